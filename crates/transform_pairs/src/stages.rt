// Both stages, as `inverse_block` has them, with room for lines of 64 points. What is read becomes 16-bit numbers in a room apart; in
// `large` the weights of 32 points take that room on their way later on. What lines read stands in arrays of the function that names
// their number of pairs (docs/DECISIONS.md), so the two rooms have a function each.
ghost use Rattle.std.specs.Prelude.{◌≡◌, ◌≤◌};
ghost use Rattle.meaning.specs.Inverse.{rails, inverse_block};
ghost use Rattle.transform_pairs.specs.Pairs.{short_plan, GivenPairs, pairs_of};

use crate::pairs::pairs_of;
use inverse_stage::settle::settle;
use layout::zip::zip;
use narrowing::narrow;
use product::{half, lines};
use transform_stages::weights::{small_weights, weights};

// Sides of up to 16: buffers have to be zeroed, and those of `large` would take longer than a small block does.
fn small(
    w: usize,
    h: usize,
    horizontal: u32,
    vertical: u32,
    columns: usize,
    rows: usize,
    last: u32,
    high: usize,
    wide: usize,
    numbers: &mut [i32],
) -> u32
    requires { (GivenPairs (short_plan w h horizontal vertical columns rows last) numbers.old × ((high ≡ pairs_of rows) × (wide ≡ pairs_of columns))) × ((w ≤ 16) × (h ≤ 16)) }
    ensures { (result ≡ rails (short_plan w h horizontal vertical columns rows last) numbers.old) × (numbers.new ≡ inverse_block (short_plan w h horizontal vertical columns rows last) numbers.old) }
{
    let broad = 2 * wide;
    let apart = 2 * broad;
    let tall = 2 * h;
    let full = 2 * w;
    let elements = h * broad;
    let mut s = [0i16; 256];
    let mut z = [0i16; 256];
    let mut t = [0i16; 256];
    narrow(numbers, w, columns, rows, broad, &mut s);
    zip(&s, broad, high, broad, &mut z);
    small_weights(vertical, h, &mut t);
    if high == 1 {
        lines(1, apart, &t, 2, tall, &z, broad, h, 64, 7, numbers);
    } else if high == 2 {
        lines(2, apart, &t, 2, tall, &z, broad, h, 64, 7, numbers);
    } else if high == 4 {
        lines(4, apart, &t, 2, tall, &z, broad, h, 64, 7, numbers);
    } else {
        lines(8, apart, &t, 2, tall, &z, broad, h, 64, 7, numbers);
    }
    let rails = settle(&numbers[0..elements], &mut z[0..elements]);
    let half = half(last);
    small_weights(horizontal, w, &mut t);
    if wide == 1 {
        lines(1, full, &z, broad, 2, &t, w, h, half, last, numbers);
    } else if wide == 2 {
        lines(2, full, &z, broad, 2, &t, w, h, half, last, numbers);
    } else if wide == 4 {
        lines(4, full, &z, broad, 2, &t, w, h, half, last, numbers);
    } else {
        lines(8, full, &z, broad, 2, &t, w, h, half, last, numbers);
    }
    rails
}

fn large(
    w: usize,
    h: usize,
    horizontal: u32,
    vertical: u32,
    columns: usize,
    rows: usize,
    last: u32,
    high: usize,
    wide: usize,
    numbers: &mut [i32],
) -> u32
    requires { GivenPairs (short_plan w h horizontal vertical columns rows last) numbers.old × ((high ≡ pairs_of rows) × (wide ≡ pairs_of columns)) }
    ensures { (result ≡ rails (short_plan w h horizontal vertical columns rows last) numbers.old) × (numbers.new ≡ inverse_block (short_plan w h horizontal vertical columns rows last) numbers.old) }
{
    let broad = 2 * wide;
    let apart = 2 * broad;
    let tall = 2 * h;
    let full = 2 * w;
    let elements = h * broad;
    let mut s = [0i16; 1024];
    let mut z = [0i16; 2048];
    let mut t = [0i16; 2048];
    narrow(numbers, w, columns, rows, broad, &mut s);
    zip(&s, broad, high, broad, &mut z);
    weights(vertical, h, &mut s, &mut t);
    if high == 1 {
        lines(1, apart, &t, 2, tall, &z, broad, h, 64, 7, numbers);
    } else if high == 2 {
        lines(2, apart, &t, 2, tall, &z, broad, h, 64, 7, numbers);
    } else if high == 4 {
        lines(4, apart, &t, 2, tall, &z, broad, h, 64, 7, numbers);
    } else if high == 8 {
        lines(8, apart, &t, 2, tall, &z, broad, h, 64, 7, numbers);
    } else {
        lines(16, apart, &t, 2, tall, &z, broad, h, 64, 7, numbers);
    }
    let rails = settle(&numbers[0..elements], &mut z[0..elements]);
    let half = half(last);
    weights(horizontal, w, &mut s, &mut t);
    if wide == 1 {
        lines(1, full, &z, broad, 2, &t, w, h, half, last, numbers);
    } else if wide == 2 {
        lines(2, full, &z, broad, 2, &t, w, h, half, last, numbers);
    } else if wide == 4 {
        lines(4, full, &z, broad, 2, &t, w, h, half, last, numbers);
    } else if wide == 8 {
        lines(8, full, &z, broad, 2, &t, w, h, half, last, numbers);
    } else {
        lines(16, full, &z, broad, 2, &t, w, h, half, last, numbers);
    }
    rails
}

// Hands back the rail count. Neither `small` nor `large` is called from one place alone: the compiler would move it into its caller
// then, and its rooms with it, which add up on the stack.
pub fn stages(
    w: usize,
    h: usize,
    horizontal: u32,
    vertical: u32,
    columns: usize,
    rows: usize,
    last: u32,
    numbers: &mut [i32],
) -> u32
    requires { GivenPairs (short_plan w h horizontal vertical columns rows last) numbers.old }
    ensures { (result ≡ rails (short_plan w h horizontal vertical columns rows last) numbers.old) × (numbers.new ≡ inverse_block (short_plan w h horizontal vertical columns rows last) numbers.old) }
{
    let high = pairs_of(rows);
    let wide = pairs_of(columns);
    if 16 < w {
        return large(
            w, h, horizontal, vertical, columns, rows, last, high, wide, numbers,
        );
    }
    if 16 < h {
        return large(
            w, h, horizontal, vertical, columns, rows, last, high, wide, numbers,
        );
    }
    if w == 2 {
        return small(
            2, h, horizontal, vertical, columns, rows, last, high, wide, numbers,
        );
    }
    small(
        w, h, horizontal, vertical, columns, rows, last, high, wide, numbers,
    )
}
