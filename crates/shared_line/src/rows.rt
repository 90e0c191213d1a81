// Forward, the outputs row by row. Rows of class 1 at 32 points come in two turns, even and odd, between which inputs are read: the
// compiler then multiplies number by number with the weights in its code, which is quicker than its vectors of 32-bit products.
// Made by crates/shared_line/make; do not edit.
ghost use Rattle.std.specs.Prelude.{not, ◌&&◌, eqb};
ghost use Rattle.shared_steps.specs.Folds.{is_odd, class_of};
ghost use Rattle.shared_steps.specs.Lines.{alternated};
ghost use Rattle.shared_steps.specs.Steps.{Ready, WroteWhere, short_sum};

use shared_steps::outputs::put;

pub fn first_4(w: &[i16], t: &[i32], back: bool, y: &mut [i32])
    requires { Ready 4 3 w.now t.now y.old }
    ensures { WroteWhere 4 (λ i. eqb (class_of 3 3 i) 1) (λ i. alternated back i (short_sum 4 3 t.now i)) y.old y.new × Ready 4 3 w.now t.now y.new }
{
    put(w, 4, 0, t, 3, back, y);
    put(w, 4, 2, t, 3, back, y);
    put(w, 4, 3, t, 3, back, y);
}

pub fn second_4(w: &[i16], t: &[i32], back: bool, y: &mut [i32])
    requires { Ready 4 1 w.now t.now y.old }
    ensures { WroteWhere 4 (λ i. eqb (class_of 3 3 i) 2) (λ i. alternated back i (short_sum 4 1 t.now i)) y.old y.new × Ready 4 1 w.now t.now y.new }
{
    put(w, 4, 1, t, 1, back, y);
}

pub fn first_16(w: &[i16], t: &[i32], back: bool, y: &mut [i32])
    requires { Ready 16 11 w.now t.now y.old }
    ensures { WroteWhere 16 (λ i. eqb (class_of 3 11 i) 1) (λ i. alternated back i (short_sum 16 11 t.now i)) y.old y.new × Ready 16 11 w.now t.now y.new }
{
    put(w, 16, 0, t, 11, back, y);
    put(w, 16, 2, t, 11, back, y);
    put(w, 16, 3, t, 11, back, y);
    put(w, 16, 6, t, 11, back, y);
    put(w, 16, 8, t, 11, back, y);
    put(w, 16, 9, t, 11, back, y);
    put(w, 16, 11, t, 11, back, y);
    put(w, 16, 12, t, 11, back, y);
    put(w, 16, 14, t, 11, back, y);
    put(w, 16, 15, t, 11, back, y);
}

pub fn second_16(w: &[i16], t: &[i32], back: bool, y: &mut [i32])
    requires { Ready 16 5 w.now t.now y.old }
    ensures { WroteWhere 16 (λ i. eqb (class_of 3 11 i) 2) (λ i. alternated back i (short_sum 16 5 t.now i)) y.old y.new × Ready 16 5 w.now t.now y.new }
{
    put(w, 16, 1, t, 5, back, y);
    put(w, 16, 4, t, 5, back, y);
    put(w, 16, 7, t, 5, back, y);
    put(w, 16, 10, t, 5, back, y);
    put(w, 16, 13, t, 5, back, y);
}

pub fn third_16(w: &[i16], t: &[i32], back: bool, y: &mut [i32])
    requires { Ready 16 1 w.now t.now y.old }
    ensures { WroteWhere 16 (λ i. eqb (class_of 3 11 i) 3) (λ i. alternated back i (short_sum 16 1 t.now i)) y.old y.new × Ready 16 1 w.now t.now y.new }
{
    put(w, 16, 5, t, 1, back, y);
}

pub fn first_even_32(w: &[i16], t: &[i32], back: bool, y: &mut [i32])
    requires { Ready 32 26 w.now t.now y.old }
    ensures { WroteWhere 32 (λ i. eqb (class_of 5 13 i) 1 && not (is_odd i)) (λ i. alternated back i (short_sum 32 26 t.now i)) y.old y.new × Ready 32 26 w.now t.now y.new }
{
    put(w, 32, 0, t, 26, back, y);
    put(w, 32, 4, t, 26, back, y);
    put(w, 32, 8, t, 26, back, y);
    put(w, 32, 10, t, 26, back, y);
    put(w, 32, 14, t, 26, back, y);
    put(w, 32, 16, t, 26, back, y);
    put(w, 32, 18, t, 26, back, y);
    put(w, 32, 20, t, 26, back, y);
    put(w, 32, 24, t, 26, back, y);
    put(w, 32, 26, t, 26, back, y);
    put(w, 32, 28, t, 26, back, y);
    put(w, 32, 30, t, 26, back, y);
}

pub fn first_odd_32(w: &[i16], t: &[i32], back: bool, y: &mut [i32])
    requires { Ready 32 26 w.now t.now y.old }
    ensures { WroteWhere 32 (λ i. eqb (class_of 5 13 i) 1 && is_odd i) (λ i. alternated back i (short_sum 32 26 t.now i)) y.old y.new × Ready 32 26 w.now t.now y.new }
{
    put(w, 32, 1, t, 26, back, y);
    put(w, 32, 3, t, 26, back, y);
    put(w, 32, 5, t, 26, back, y);
    put(w, 32, 9, t, 26, back, y);
    put(w, 32, 11, t, 26, back, y);
    put(w, 32, 13, t, 26, back, y);
    put(w, 32, 15, t, 26, back, y);
    put(w, 32, 21, t, 26, back, y);
    put(w, 32, 23, t, 26, back, y);
    put(w, 32, 25, t, 26, back, y);
    put(w, 32, 29, t, 26, back, y);
    put(w, 32, 31, t, 26, back, y);
}

pub fn second_32(w: &[i16], t: &[i32], back: bool, y: &mut [i32])
    requires { Ready 32 6 w.now t.now y.old }
    ensures { WroteWhere 32 (λ i. eqb (class_of 5 13 i) 2) (λ i. alternated back i (short_sum 32 6 t.now i)) y.old y.new × Ready 32 6 w.now t.now y.new }
{
    put(w, 32, 2, t, 6, back, y);
    put(w, 32, 7, t, 6, back, y);
    put(w, 32, 12, t, 6, back, y);
    put(w, 32, 17, t, 6, back, y);
    put(w, 32, 22, t, 6, back, y);
    put(w, 32, 27, t, 6, back, y);
}

pub fn third_32(w: &[i16], t: &[i32], back: bool, y: &mut [i32])
    requires { Ready 32 2 w.now t.now y.old }
    ensures { WroteWhere 32 (λ i. eqb (class_of 5 13 i) 3) (λ i. alternated back i (short_sum 32 2 t.now i)) y.old y.new × Ready 32 2 w.now t.now y.new }
{
    put(w, 32, 6, t, 2, back, y);
    put(w, 32, 19, t, 2, back, y);
}
