// Both stages, over the part of a block that is not zero.
ghost use Rattle.std.specs.Prelude.{◌≡◌, ◌++◌, ◌+◌, ◌*◌, ◌≤◌, ◌<◌, length, drop};
ghost use Rattle.algebra.specs.Shift.{nearest};
ghost use Rattle.algebra.specs.Sum.{sumℕ};
ghost use Rattle.algebra.specs.Lists.{tabulate, block};
ghost use Rattle.meaning.specs.Plan.{range_of, long_plan};
ghost use Rattle.meaning.specs.Inverse.{middle, rails, inverse_block};
ghost use Rattle.long_stages.specs.Work.{column_at, rail_of, Down, row_at, Along, GivenLong};

use crate::arith::{clipped, nearest, rail, rounded};
use crate::rules::{last_shift, reach_of};
use crate::sums::dot;
use meaning::Shape;
use stage_weights::put_1024;

// The middle values of row y, for as many columns as `m` has room for; hands back how many the clip altered.
fn middle_row(
    t: &[i16],
    h: usize,
    y: usize,
    c: &[i32],
    w: usize,
    pairs: usize,
    reach: u32,
    m: &mut [i32],
) -> u32
    requires { Down t.now h c.now w pairs (length m.old) reach × (y < h) }
    ensures { (m.new ≡ tabulate (length m.old) (λ x. middle (range_of reach) (column_at t.now h c.now w pairs x y))) × (result ≡ sumℕ (length m.old) (λ x. rail_of reach (column_at t.now h c.now w pairs x y))) }
{
    let mut rails = 0;
    for x in 0..m.len() {
        let before = rounded(dot(t, 2 * y, 2 * h, c, x, w, pairs));
        let after = clipped(before, reach);
        m[x] = after;
        rails += rail(before, after);
    }
    rails
}

// The middle values of all rows, one row after the other; hands back the rail count.
pub fn middles(
    t: &[i16],
    h: usize,
    c: &[i32],
    w: usize,
    pairs: usize,
    columns: usize,
    reach: u32,
    m: &mut [i32],
) -> u32
    requires { Down t.now h c.now w pairs columns reach × (h * columns ≤ length m.old) }
    ensures { (m.new ≡ block columns h (λ x y. middle (range_of reach) (column_at t.now h c.now w pairs x y)) ++ drop (h * columns) m.old) × (result ≡ sumℕ h (λ y. sumℕ columns (λ x. rail_of reach (column_at t.now h c.now w pairs x y)))) }
{
    let mut rails = 0;
    for y in 0..h {
        let o = y * columns;
        let e = o + columns;
        rails += middle_row(t, h, y, c, w, pairs, reach, &mut m[o..e]);
    }
    rails
}

// The residuals of row y.
pub fn residual_row(
    t: &[i16],
    w: usize,
    h: usize,
    y: usize,
    m: &[i32],
    columns: usize,
    pairs: usize,
    last: u32,
    out: &mut [i32],
)
    requires { Along t.now w h m.now columns pairs last × ((y < h) × (length out.old ≡ w)) }
    ensures { out.new ≡ tabulate w (λ x. nearest last (row_at t.now w m.now columns pairs x y)) }
{
    for x in 0..w {
        out[x] = nearest(dot(t, 2 * x, 2 * w, m, y * columns, 1, pairs), last) as i32;
    }
}

// Each line of residuals into its own stretch of the output.
pub fn residuals(
    t: &[i16],
    w: usize,
    h: usize,
    m: &[i32],
    columns: usize,
    pairs: usize,
    last: u32,
    out: &mut [i32],
)
    requires { Along t.now w h m.now columns pairs last × (length out.old ≡ h * w) }
    ensures { out.new ≡ block w h (λ x y. nearest last (row_at t.now w m.now columns pairs x y)) }
{
    for y in 0..h {
        let o = y * w;
        let e = o + w;
        residual_row(t, w, h, y, m, columns, pairs, last, &mut out[o..e]);
    }
}

// Hands back the rail count. `rows` and `columns` are counted in pairs. The weights of the rows take the room of the columns', which
// are used up by then.
pub fn stages(
    shape: Shape,
    extended: bool,
    rows: usize,
    columns: usize,
    c: &[i32],
    out: &mut [i32],
) -> u32
    requires { GivenLong extended shape rows columns c.now out.old }
    ensures { (result ≡ rails (long_plan extended shape) c.now) × (out.new ≡ inverse_block (long_plan extended shape) c.now) }
{
    let w = shape.width as usize;
    let h = shape.height as usize;
    let reach = reach_of(extended, shape.depth);
    let last = last_shift(extended, shape.depth);
    let mut m = [0i32; 1024];
    let mut t = [0i16; 1024];
    put_1024(shape.vertical, false, h, &mut t);
    let rails = middles(&t, h, c, w, rows, 2 * columns, reach, &mut m);
    put_1024(shape.horizontal, false, w, &mut t);
    residuals(&t, w, h, &m, 2 * columns, columns, last, out);
    rails
}
