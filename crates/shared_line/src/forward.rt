// The forward lines.
ghost use Rattle.std.specs.Prelude.{◌≡◌, length};
ghost use Rattle.algebra.specs.Lists.{at};
ghost use Rattle.meaning.specs.Line.{forward_line};
ghost use Rattle.shared_steps.specs.Lines.{GivenLine, kind_of, reading};
ghost use Rattle.shared_steps.specs.Steps.{Gathered};

use crate::rows::{
    first_4, first_16, first_even_32, first_odd_32, second_4, second_16, second_32, third_16,
    third_32,
};
use shared_steps::inputs::gather;
use tables::{weights_4, weights_16, weights_32};

// The numbers of class 1 at 32 points.
fn leading_inputs_32(x: &[i16], back: bool, t: &mut [i32])
    requires { (length x.now ≡ 32) × Gathered 32 5 13 1 (reading back 32 x.now) 0 t.old }
    ensures { Gathered 32 5 13 1 (reading back 32 x.now) 26 t.new }
{
    gather(x, 32, 5, 13, 1, back, 0, 8, t);
    gather(x, 32, 5, 13, 1, back, 8, 16, t);
    gather(x, 32, 5, 13, 1, back, 16, 24, t);
    gather(x, 32, 5, 13, 1, back, 24, 26, t);
}

fn forward_4(x: &[i16], back: bool, y: &mut [i32])
    requires { (length x.now ≡ 4) × (length y.old ≡ 4) }
    ensures { y.new ≡ forward_line (kind_of back) 4 (at x.now) }
{
    let w = weights_4();
    let mut t = [0i32; 3];
    gather(x, 4, 3, 3, 1, back, 0, 3, &mut t);
    first_4(&w, &t, back, y);
    let mut u = [0i32; 1];
    gather(x, 4, 3, 3, 2, back, 0, 1, &mut u);
    second_4(&w, &u, back, y);
}

fn forward_16(x: &[i16], back: bool, y: &mut [i32])
    requires { (length x.now ≡ 16) × (length y.old ≡ 16) }
    ensures { y.new ≡ forward_line (kind_of back) 16 (at x.now) }
{
    let w = weights_16();
    let mut t = [0i32; 11];
    gather(x, 16, 3, 11, 1, back, 0, 8, &mut t);
    gather(x, 16, 3, 11, 1, back, 8, 11, &mut t);
    first_16(&w, &t, back, y);
    let mut u = [0i32; 5];
    gather(x, 16, 3, 11, 2, back, 0, 5, &mut u);
    second_16(&w, &u, back, y);
    let mut v = [0i32; 1];
    gather(x, 16, 3, 11, 3, back, 0, 1, &mut v);
    third_16(&w, &v, back, y);
}

fn forward_32(x: &[i16], back: bool, y: &mut [i32])
    requires { (length x.now ≡ 32) × (length y.old ≡ 32) }
    ensures { y.new ≡ forward_line (kind_of back) 32 (at x.now) }
{
    let w = weights_32();
    let mut t = [0i32; 26];
    leading_inputs_32(x, back, &mut t);
    first_even_32(&w, &t, back, y);
    let mut u = [0i32; 6];
    gather(x, 32, 5, 13, 2, back, 0, 6, &mut u);
    second_32(&w, &u, back, y);
    let mut v = [0i32; 2];
    gather(x, 32, 5, 13, 3, back, 0, 2, &mut v);
    third_32(&w, &v, back, y);
    first_odd_32(&w, &t, back, y);
}

pub fn forward(n: usize, kind: u32, x: &[i16], y: &mut [i32])
    requires { GivenLine n kind x.now y.old }
    ensures { y.new ≡ forward_line kind n (at x.now) }
{
    let back = kind == 2;
    if n == 4 {
        forward_4(x, back, y);
    } else if n == 16 {
        forward_16(x, back, y);
    } else {
        forward_32(x, back, y);
    }
}
