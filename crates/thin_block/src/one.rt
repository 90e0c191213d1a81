// One stage: "with no middle rounding and no middle clip".
ghost use Rattle.std.specs.Prelude.{◌≡◌, ◌≤◌, ◌<◌, length};
ghost use Rattle.algebra.specs.Lists.{at, tabulate};
ghost use Rattle.algebra.specs.Shift.{nearest};
ghost use Rattle.meaning.specs.Line.{inverse_sum};
ghost use Rattle.thin_block.specs.Thin.{one_stage, thin_shift, thin_block};
ghost use Rattle.thin_block.specs.Given.{Lined, Single};

use long_stages::arith::nearest;
use meaning::Shape;

#[tactic(auto, unfolding(crate::specs::Thin::one_stage))]
pub fn one_stage(shape: Shape) -> bool
    ensures { result ≡ one_stage shape }
{
    shape.width == 1 || shape.height == 1
}

// Each number over 2^s, to the nearest.
fn round_each(s: u32, out: &mut [i32])
    requires { (0 < s) × (s ≤ 32) }
    ensures { out.new ≡ tabulate (length out.old) (λ k. nearest s (at out.old k)) }
{
    for k in 0..out.len() {
        out[k] = nearest(out[k] as i64, s) as i32;
    }
}

// The residuals of a line of n points.
fn residuals(n: u32, kind: u32, d: u32, c: &[i16], out: &mut [i32])
    requires { Lined n kind d c.now out.old }
    ensures { out.new ≡ tabulate n (λ k. nearest (thin_shift d) (inverse_sum kind n n (at c.now) k)) }
{
    full_line::full(n as usize, kind, false, c, out);
    round_each(21 - d, out);
}

// The line of the side that is not 1.
pub fn single(shape: Shape, c: &[i16], out: &mut [i32])
    requires { Single shape c.now out.old }
    ensures { out.new ≡ thin_block shape c.now }
{
    if shape.width == 1 {
        residuals(shape.height, shape.vertical, shape.depth, c, out);
    } else {
        residuals(shape.width, shape.horizontal, shape.depth, c, out);
    }
}
