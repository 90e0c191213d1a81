// Two stages, as the inverse of a block has them, with the middle values in the first area. R and the last shift are those of the
// switch that is off.
ghost use Rattle.std.specs.Prelude.{◌≡◌};
ghost use Rattle.algebra.specs.Lists.{block};
ghost use Rattle.meaning.specs.Plan.{plan_of};
ghost use Rattle.meaning.specs.Inverse.{middle_at, rails, inverse_block};
ghost use Rattle.thin_block.specs.Given.{Double};

use long_stages::rules::{last_shift, reach_of};
use long_stages::stages::{middles, residuals};
use long_stages::wide::widen;
use meaning::Shape;
use stage_weights::put_1024;

// Hands back the rail count. The second area has the coefficients until the middle values are there, and the room has the weights of
// the columns until then.
pub fn two_stages(shape: Shape, c: &[i16], first: &mut [i32], second: &mut [i32]) -> u32
    requires { Double shape c.now first.old second.old }
    ensures { (result ≡ rails (plan_of shape) c.now) × ((first.new ≡ block shape.width shape.height (middle_at (plan_of shape) c.now)) × (second.new ≡ inverse_block (plan_of shape) c.now)) }
{
    let w = shape.width as usize;
    let h = shape.height as usize;
    let pairs = w / 2;
    let reach = reach_of(false, shape.depth);
    let last = last_shift(false, shape.depth);
    let mut t = [0i16; 1024];
    widen(c, second);
    put_1024(shape.vertical, false, h, &mut t);
    let rails = middles(&t, h, second, w, h / 2, w, reach, first);
    put_1024(shape.horizontal, false, w, &mut t);
    residuals(&t, w, h, first, w, pairs, last, second);
    rails
}
