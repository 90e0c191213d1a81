// Internal: a line of any kind in either direction as the full matrix product, and single weights, from the stored weights. The
// functions ask that sizes and lengths were tested before, so they have a `requires`; every function that a user calls stands in
// `line` and has none. Read specs/Lines.
#![tactic(auto)]

ghost use Rattle.std.specs.Prelude.{◌≡◌, ◌+◌, ◌*◌, ◌<◌, length};
ghost use Rattle.algebra.specs.Lists.{at};
ghost use Rattle.meaning.specs.Weights.{weight};
ghost use Rattle.meaning.specs.Taken.{TakenLine};
ghost use Rattle.product.specs.Product.{spot};
ghost use Rattle.full_line.specs.Lines.{Place, line_of};

use product::line;
use stage_weights::put_1024;
use tables::zipped::{zipped_4, zipped_8, zipped_16};

// The weight of input i in output j, of a table whose pairs are `apart`.
fn stored(t: &[i16], apart: usize, i: usize, j: usize) -> i32
    requires { 2 * j + spot apart i < length t.now }
    ensures { result ≡ at t.now (2 * j + spot apart i) }
{
    i32::from(t[2 * j + (i / 2 * apart + i % 2)])
}

/// The weight of row i in column j.
pub fn weight(n: usize, kind: u32, i: usize, j: usize) -> i32
    requires { Place n i j }
    ensures { result ≡ weight kind n i j }
{
    match n {
        4 => stored(&zipped_4(kind, false), 8, i, j),
        8 => stored(&zipped_8(kind, false), 16, i, j),
        16 => stored(&zipped_16(kind, false), 32, i, j),
        _ => {
            let mut t = [0i16; 1024];
            put_1024(kind, false, n, &mut t);
            stored(&t, 64, i, j)
        }
    }
}

/// The line of 8 points as the full product, for callers who know the size: it has the weights of 8 points alone on its stack.
pub fn eight(kind: u32, forward: bool, x: &[i16], y: &mut [i32])
    requires { TakenLine 8 kind (length x.now) (length y.old) }
    ensures { y.new ≡ line_of forward kind 8 (at x.now) }
{
    let weights = zipped_8(kind, forward);
    line(4, 16, x, 0, 2, &weights, 0, 0, y);
}

/// The line as the full product. Each size has its branch and its literal number of pairs: docs/DECISIONS.md, "The product".
pub fn full(n: usize, kind: u32, forward: bool, x: &[i16], y: &mut [i32])
    requires { TakenLine n kind (length x.now) (length y.old) }
    ensures { y.new ≡ line_of forward kind n (at x.now) }
{
    match n {
        4 => line(2, 8, x, 0, 2, &zipped_4(kind, forward), 0, 0, y),
        8 => line(4, 16, x, 0, 2, &zipped_8(kind, forward), 0, 0, y),
        16 => line(8, 32, x, 0, 2, &zipped_16(kind, forward), 0, 0, y),
        _ => {
            let mut t = [0i16; 1024];
            put_1024(kind, forward, n, &mut t);
            line(16, 64, x, 0, 2, &t, 0, 0, y);
        }
    }
}
