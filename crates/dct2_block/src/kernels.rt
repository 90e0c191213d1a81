// Blocks of kind 0 both ways, by the kernels, where these work them and nothing counts; all others go by the lines of the product.
ghost use Rattle.std.specs.Prelude.{◌≡◌, true};
ghost use Rattle.meaning.specs.Plan.{plan_of};
ghost use Rattle.meaning.specs.Inverse.{rails, inverse_block};
ghost use Rattle.inverse_stage.specs.Given.{GivenStages};

use crate::worked::worked;
use meaning::Shape;

// Whether a block of so many numbers is one of kind 0 both ways, and larger than 4 by 4: those go by the product, all lines written out.
fn is_dct2(shape: Shape, elements: usize) -> bool
    ensures { result ≡ true → (shape.horizontal ≡ 0) × (shape.vertical ≡ 0) }
{
    16 < elements && shape.horizontal == 0 && shape.vertical == 0
}

// Whether the block is worked and its rail count is 0. Where it is not, the stages of `inverse_block` have to work it.
pub fn by_kernels(shape: Shape, rows: usize, columns: usize, c: &[i16], r: &mut [i32]) -> bool
    requires { GivenStages shape rows columns c.now r.old }
    ensures { result ≡ true → (rails (plan_of shape) c.now ≡ 0) × (r.new ≡ inverse_block (plan_of shape) c.now) }
{
    is_dct2(shape, c.len()) && worked(shape, rows, columns, c, r)
}
