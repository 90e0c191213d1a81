// The refusals that need no look at the coefficients.
ghost use Rattle.std.specs.Prelude.{◌≡◌, ◌++◌, ◌*◌};
ghost use Rattle.algebra.specs.Refusals.{number_of};
ghost use Rattle.meaning.specs.Refusal.{number_in};
ghost use Rattle.thin_block.specs.Thin.{is_line, is_side, thin_shape_tests, area_tests};

use meaning::{Refusal, Shape, is_depth, is_size};

#[tactic(auto, unfolding(crate::specs::Thin::is_line))]
fn is_line(n: u32) -> bool
    ensures { result ≡ is_line n }
{
    matches!(n, 4 | 8 | 16)
}

// "1 and 2 accept 1 where the other side is 4, 8 or 16".
#[tactic(auto, unfolding(crate::specs::Thin::is_side))]
fn is_side(n: u32, other: u32) -> bool
    ensures { result ≡ is_side n other }
{
    is_size(n) || (n == 1 && is_line(other))
}

// 6 and 19.
fn area_refusal(n: usize, input: usize, first: usize, second: usize) -> Result<(), Refusal>
    ensures { number_in result ≡ number_of (area_tests n input first second) }
{
    if input != n {
        return Err(Refusal::Input);
    }
    if first < n || second < n {
        return Err(Refusal::WorkArea);
    }
    Ok(())
}

// 1 to 5, 20, 6 and 19.
pub fn thin_refusal(shape: Shape, input: usize, first: usize, second: usize) -> Result<(), Refusal>
    ensures { number_in result ≡ number_of (thin_shape_tests shape ++ area_tests (shape.width * shape.height) input first second) }
{
    let width = is_side(shape.width, shape.height);
    let height = is_side(shape.height, shape.width);
    shape.refusal_by(width, height, is_depth(shape.depth))?;
    let elements = shape.width as usize * shape.height as usize;
    area_refusal(elements, input, first, second)
}
