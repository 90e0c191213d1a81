// The inverse lines: the sums of the classes, and then the places, eight at a time.
ghost use Rattle.std.specs.Prelude.{◌≡◌, length};
ghost use Rattle.algebra.specs.Lists.{at};
ghost use Rattle.meaning.specs.Line.{inverse_line};
ghost use Rattle.shared_steps.specs.Lines.{GivenLine, kind_of};
ghost use Rattle.shared_steps.specs.Steps.{ClassSums, FilledTo, joined_sums};

use crate::class_sums::{
    first_4, first_16, first_32, second_4, second_16, second_32, third_16, third_32,
};
use shared_steps::spread::spread;
use tables::{weights_4, weights_16, weights_32};

fn inverse_4(x: &[i16], back: bool, y: &mut [i32])
    requires { (length x.now ≡ 4) × (length y.old ≡ 4) }
    ensures { y.new ≡ inverse_line (kind_of back) 4 4 (at x.now) }
{
    let w = weights_4();
    let mut a = [0i32; 3];
    first_4(&w, x, back, &mut a);
    let mut c = [0i32; 1];
    second_4(&w, x, back, &mut c);
    let d = [0i32; 1];
    spread(&a, &c, &d, 4, 3, 3, back, 0, 4, y);
}

fn places_16(a: &[i32], c: &[i32], d: &[i32], back: bool, y: &mut [i32])
    requires { ClassSums 16 3 11 a.now c.now d.now × (length y.old ≡ 16) }
    ensures { FilledTo back 16 16 (joined_sums 3 11 a.now c.now d.now) y.new }
{
    spread(a, c, d, 16, 3, 11, back, 0, 8, y);
    spread(a, c, d, 16, 3, 11, back, 8, 16, y);
}

fn inverse_16(x: &[i16], back: bool, y: &mut [i32])
    requires { (length x.now ≡ 16) × (length y.old ≡ 16) }
    ensures { y.new ≡ inverse_line (kind_of back) 16 16 (at x.now) }
{
    let w = weights_16();
    let mut a = [0i32; 11];
    first_16(&w, x, back, &mut a);
    let mut c = [0i32; 5];
    second_16(&w, x, back, &mut c);
    let mut d = [0i32; 1];
    third_16(&w, x, back, &mut d);
    places_16(&a, &c, &d, back, y);
}

fn places_32(a: &[i32], c: &[i32], d: &[i32], back: bool, y: &mut [i32])
    requires { ClassSums 32 5 13 a.now c.now d.now × (length y.old ≡ 32) }
    ensures { FilledTo back 32 32 (joined_sums 5 13 a.now c.now d.now) y.new }
{
    spread(a, c, d, 32, 5, 13, back, 0, 8, y);
    spread(a, c, d, 32, 5, 13, back, 8, 16, y);
    spread(a, c, d, 32, 5, 13, back, 16, 24, y);
    spread(a, c, d, 32, 5, 13, back, 24, 32, y);
}

fn inverse_32(x: &[i16], back: bool, y: &mut [i32])
    requires { (length x.now ≡ 32) × (length y.old ≡ 32) }
    ensures { y.new ≡ inverse_line (kind_of back) 32 32 (at x.now) }
{
    let w = weights_32();
    let mut a = [0i32; 26];
    first_32(&w, x, back, &mut a);
    let mut c = [0i32; 6];
    second_32(&w, x, back, &mut c);
    let mut d = [0i32; 2];
    third_32(&w, x, back, &mut d);
    places_32(&a, &c, &d, back, y);
}

pub fn inverse(n: usize, kind: u32, x: &[i16], y: &mut [i32])
    requires { GivenLine n kind x.now y.old }
    ensures { y.new ≡ inverse_line kind n n (at x.now) }
{
    let back = kind == 2;
    if n == 4 {
        inverse_4(x, back, y);
    } else if n == 16 {
        inverse_16(x, back, y);
    } else {
        inverse_32(x, back, y);
    }
}
