// Inverse, the sums of each class, row by row. Made by crates/shared_line/make; do not edit.
ghost use Rattle.std.specs.Prelude.{◌≡◌, pos, replicate};
ghost use Rattle.shared_steps.specs.Lines.{used};
ghost use Rattle.shared_steps.specs.Steps.{Adding, Bounded, Class};

use shared_steps::sums::row;

pub fn first_4(w: &[i16], x: &[i16], back: bool, a: &mut [i32])
    requires { Adding 4 3 0 w.now x.now a.old × (a.old ≡ replicate 3 (pos 0)) }
    ensures { Class 4 3 3 1 (used back x.now) a.new × Bounded 3 94371840 a.new }
{
    row(w, 4, 0, 3, x, back, a);
    row(w, 4, 2, 3, x, back, a);
    row(w, 4, 3, 3, x, back, a);
}

pub fn second_4(w: &[i16], x: &[i16], back: bool, a: &mut [i32])
    requires { Adding 4 1 0 w.now x.now a.old × (a.old ≡ replicate 1 (pos 0)) }
    ensures { Class 4 3 3 2 (used back x.now) a.new × Bounded 1 94371840 a.new }
{
    row(w, 4, 1, 1, x, back, a);
}

pub fn first_16(w: &[i16], x: &[i16], back: bool, a: &mut [i32])
    requires { Adding 16 11 0 w.now x.now a.old × (a.old ≡ replicate 11 (pos 0)) }
    ensures { Class 16 3 11 1 (used back x.now) a.new × Bounded 11 94371840 a.new }
{
    row(w, 16, 0, 11, x, back, a);
    row(w, 16, 2, 11, x, back, a);
    row(w, 16, 3, 11, x, back, a);
    row(w, 16, 6, 11, x, back, a);
    row(w, 16, 8, 11, x, back, a);
    row(w, 16, 9, 11, x, back, a);
    row(w, 16, 11, 11, x, back, a);
    row(w, 16, 12, 11, x, back, a);
    row(w, 16, 14, 11, x, back, a);
    row(w, 16, 15, 11, x, back, a);
}

pub fn second_16(w: &[i16], x: &[i16], back: bool, a: &mut [i32])
    requires { Adding 16 5 0 w.now x.now a.old × (a.old ≡ replicate 5 (pos 0)) }
    ensures { Class 16 3 11 2 (used back x.now) a.new × Bounded 5 94371840 a.new }
{
    row(w, 16, 1, 5, x, back, a);
    row(w, 16, 4, 5, x, back, a);
    row(w, 16, 7, 5, x, back, a);
    row(w, 16, 10, 5, x, back, a);
    row(w, 16, 13, 5, x, back, a);
}

pub fn third_16(w: &[i16], x: &[i16], back: bool, a: &mut [i32])
    requires { Adding 16 1 0 w.now x.now a.old × (a.old ≡ replicate 1 (pos 0)) }
    ensures { Class 16 3 11 3 (used back x.now) a.new × Bounded 1 94371840 a.new }
{
    row(w, 16, 5, 1, x, back, a);
}

pub fn first_32(w: &[i16], x: &[i16], back: bool, a: &mut [i32])
    requires { Adding 32 26 0 w.now x.now a.old × (a.old ≡ replicate 26 (pos 0)) }
    ensures { Class 32 5 13 1 (used back x.now) a.new × Bounded 26 94371840 a.new }
{
    row(w, 32, 0, 26, x, back, a);
    row(w, 32, 1, 26, x, back, a);
    row(w, 32, 3, 26, x, back, a);
    row(w, 32, 4, 26, x, back, a);
    row(w, 32, 5, 26, x, back, a);
    row(w, 32, 8, 26, x, back, a);
    row(w, 32, 9, 26, x, back, a);
    row(w, 32, 10, 26, x, back, a);
    row(w, 32, 11, 26, x, back, a);
    row(w, 32, 13, 26, x, back, a);
    row(w, 32, 14, 26, x, back, a);
    row(w, 32, 15, 26, x, back, a);
    row(w, 32, 16, 26, x, back, a);
    row(w, 32, 18, 26, x, back, a);
    row(w, 32, 20, 26, x, back, a);
    row(w, 32, 21, 26, x, back, a);
    row(w, 32, 23, 26, x, back, a);
    row(w, 32, 24, 26, x, back, a);
    row(w, 32, 25, 26, x, back, a);
    row(w, 32, 26, 26, x, back, a);
    row(w, 32, 28, 26, x, back, a);
    row(w, 32, 29, 26, x, back, a);
    row(w, 32, 30, 26, x, back, a);
    row(w, 32, 31, 26, x, back, a);
}

pub fn second_32(w: &[i16], x: &[i16], back: bool, a: &mut [i32])
    requires { Adding 32 6 0 w.now x.now a.old × (a.old ≡ replicate 6 (pos 0)) }
    ensures { Class 32 5 13 2 (used back x.now) a.new × Bounded 6 94371840 a.new }
{
    row(w, 32, 2, 6, x, back, a);
    row(w, 32, 7, 6, x, back, a);
    row(w, 32, 12, 6, x, back, a);
    row(w, 32, 17, 6, x, back, a);
    row(w, 32, 22, 6, x, back, a);
    row(w, 32, 27, 6, x, back, a);
}

pub fn third_32(w: &[i16], x: &[i16], back: bool, a: &mut [i32])
    requires { Adding 32 2 0 w.now x.now a.old × (a.old ≡ replicate 2 (pos 0)) }
    ensures { Class 32 5 13 3 (used back x.now) a.new × Bounded 2 94371840 a.new }
{
    row(w, 32, 6, 2, x, back, a);
    row(w, 32, 19, 2, x, back, a);
}
