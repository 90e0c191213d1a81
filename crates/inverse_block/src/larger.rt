// Both stages of a block that is told how many of its rows and columns are read. `stages` has a way for 4 by 4 beside these, which the
// compiler moves into `block::inverse`, where it keeps its pairs (docs/DECISIONS.md); a second caller of it would stop that. So callers
// that have their own way for 4 by 4 come here.
ghost use Rattle.std.specs.Prelude.{◌≡◌};
ghost use Rattle.meaning.specs.Plan.{plan_of};
ghost use Rattle.meaning.specs.Inverse.{rails, inverse_block};
ghost use Rattle.inverse_stage.specs.Given.{GivenStages};

use crate::stages::{large, small};
use inverse_4_8::eight::{eight, is_eight};
use meaning::Shape;

// Hands back the rail count. With fewer calls the compiler would move it into the functions above, which are quicker without it.
pub fn larger(shape: Shape, rows: usize, columns: usize, c: &[i16], r: &mut [i32]) -> u32
    requires { GivenStages shape rows columns c.now r.old }
    ensures { (result ≡ rails (plan_of shape) c.now) × (r.new ≡ inverse_block (plan_of shape) c.now) }
{
    let w = shape.width as usize;
    let h = shape.height as usize;
    if is_eight(shape, c.len()) {
        if shape.horizontal == 1 {
            return eight(shape, 1, c, r);
        }
        return eight(shape, shape.horizontal, c, r);
    }
    if 128 < h * rows || 128 < h * columns || 128 < w * columns {
        return large(shape, rows, columns, c, r);
    }
    small(shape, rows, columns, c, r)
}
