// The second stage, over its own input: the middle values stand row by row at the front of the numbers, `columns` to a row, and a row
// of residuals takes w. From the last row up no row is written before it is read.
ghost use Rattle.std.specs.Prelude.{◌≡◌};
ghost use Rattle.algebra.specs.Lists.{block};
ghost use Rattle.transform_stages.specs.Work.{residual_at, GivenRows};

use crate::read::line_of;
use long_stages::stages::residual_row;

pub fn upward(t: &[i16], w: usize, h: usize, columns: usize, pairs: usize, last: u32, m: &mut [i32])
    requires { GivenRows t.now w h columns pairs last m.old }
    ensures { m.new ≡ block w h (residual_at t.now w columns pairs last m.old) }
{
    for y in (0..h).rev() {
        let line = line_of(m, y * columns, columns);
        let o = y * w;
        let e = o + w;
        residual_row(t, w, 1, 0, &line, 32, pairs, last, &mut m[o..e]);
    }
}
