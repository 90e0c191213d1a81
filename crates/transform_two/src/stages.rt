// Both stages of a block with a side of 2: the stage of two points is a sum and a difference, the other one two lines.
ghost use Rattle.std.specs.Prelude.{◌≡◌, ◌⊎◌, ◌<◌, min};
ghost use Rattle.meaning.specs.Inverse.{rails, inverse_block};
ghost use Rattle.transform_pairs.specs.Pairs.{short_plan};
ghost use Rattle.transform_two.specs.Two.{GivenSides};

use crate::columns::{column, crossed};
use inverse_stage::settle::settle;
use narrowing::narrow;
use product::half;
use transform_line::lines::{lines_of, step_of};
use transform_line::two::rows_of_two;

// 2 by 2.
fn square(columns: usize, rows: usize, last: u32, numbers: &mut [i32]) -> u32
    requires { GivenSides (short_plan 2 2 0 0 columns rows last) numbers.old }
    ensures { (result ≡ rails (short_plan 2 2 0 0 columns rows last) numbers.old) × (numbers.new ≡ inverse_block (short_plan 2 2 0 0 columns rows last) numbers.old) }
{
    let mut s = [0i16; 64];
    narrow(numbers, 2, columns, rows, 2, &mut s);
    let mut e = [0i32; 64];
    crossed(&s, 2, &mut e);
    let rails = settle(&e[0..4], &mut s[0..4]);
    let half = half(last);
    rows_of_two(&s, 2, 1, 2, half, last, numbers);
    rails
}

// Two rows of w.
fn lying(
    w: usize,
    horizontal: u32,
    columns: usize,
    rows: usize,
    step: usize,
    last: u32,
    numbers: &mut [i32],
) -> u32
    requires { GivenSides (short_plan w 2 horizontal 0 columns rows last) numbers.old × ((2 < w) × (step ≡ min w 32)) }
    ensures { (result ≡ rails (short_plan w 2 horizontal 0 columns rows last) numbers.old) × (numbers.new ≡ inverse_block (short_plan w 2 horizontal 0 columns rows last) numbers.old) }
{
    let mut s = [0i16; 64];
    narrow(numbers, w, columns, rows, step, &mut s);
    let mut e = [0i32; 64];
    crossed(&s, step, &mut e);
    let tile = 2 * step;
    let rails = settle(&e[0..tile], &mut s[0..tile]);
    let half = half(last);
    let n = numbers.len() / 2;
    lines_of(horizontal, w, columns, n, 2, step, &s, half, last, numbers);
    rails
}

// Two columns of h.
fn upright(
    h: usize,
    vertical: u32,
    columns: usize,
    rows: usize,
    step: usize,
    last: u32,
    numbers: &mut [i32],
) -> u32
    requires { GivenSides (short_plan 2 h 0 vertical columns rows last) numbers.old × ((2 < h) × (step ≡ min h 32)) }
    ensures { (result ≡ rails (short_plan 2 h 0 vertical columns rows last) numbers.old) × (numbers.new ≡ inverse_block (short_plan 2 h 0 vertical columns rows last) numbers.old) }
{
    let mut s = [0i16; 64];
    column(numbers, 0, rows, 0, &mut s);
    if columns == 2 {
        column(numbers, 1, rows, step, &mut s);
    }
    let elements = numbers.len();
    lines_of(vertical, h, rows, elements / 2, 2, step, &s, 64, 7, numbers);
    let mut z = [0i16; 128];
    let rails = settle(numbers, &mut z[0..elements]);
    let half = half(last);
    rows_of_two(&z, 1, h, h, half, last, numbers);
    rails
}

// Hands back the rail count.
pub fn stages(
    w: usize,
    h: usize,
    horizontal: u32,
    vertical: u32,
    columns: usize,
    rows: usize,
    last: u32,
    numbers: &mut [i32],
) -> u32
    requires { GivenSides (short_plan w h horizontal vertical columns rows last) numbers.old × ((w ≡ 2) ⊎ (h ≡ 2)) }
    ensures { (result ≡ rails (short_plan w h horizontal vertical columns rows last) numbers.old) × (numbers.new ≡ inverse_block (short_plan w h horizontal vertical columns rows last) numbers.old) }
{
    if w == 2 {
        if h == 2 {
            return square(columns, rows, last, numbers);
        }
        return upright(h, vertical, columns, rows, step_of(h), last, numbers);
    }
    lying(w, horizontal, columns, rows, step_of(w), last, numbers)
}
