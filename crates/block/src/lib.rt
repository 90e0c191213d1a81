// Blocks, in both directions, over any numbers and any buffers. The work behind them stands in `inverse_hunt`, `dct2_block`,
// `inverse_block`, `forward_hunt` and `forward_block`.
#![tactic(auto)]

ghost use Rattle.std.specs.Prelude.{◌≡◌};
ghost use Rattle.meaning.specs.Answer.{Outcome};
ghost use Rattle.meaning.specs.Forward.{forward_outcome};
ghost use Rattle.meaning.specs.Inverse.{inverse_outcome};
ghost use Rattle.block.specs.Answered.{answer_of};

use meaning::{Answer, Refusal, Shape, accepted, block_refusal};

// The shape, number by number. A struct or a slice that is handed on as it came the compiler copies in vectors, which wait for the
// stores that have just written it; so `inverse` reads `coefficients[0..]`, which is the same, too.
fn fields(shape: Shape) -> Shape
    ensures { result ≡ shape }
{
    Shape {
        width: shape.width,
        height: shape.height,
        horizontal: shape.horizontal,
        vertical: shape.vertical,
        depth: shape.depth,
        columns: shape.columns,
        rows: shape.rows,
    }
}

// The answer, of which number and place stand in one number: so they are stored as one, as a caller in C reads them. What was stored
// as two numbers and is read as one has to wait, for as long as a quarter of a small block.
fn answered(code: u64, rails: u32) -> Answer
    ensures { result ≡ answer_of code rails }
{
    Answer {
        number: (code % 4294967296) as u32,
        place: (code / 4294967296) as u32,
        rails,
    }
}

/// The inverse of a block: residuals from coefficients, with the rail count. Any numbers, any buffers.
pub fn inverse(shape: Shape, coefficients: &[i16], residuals: &mut [i32]) -> Answer
    ensures { ◌≡◌ {A = Outcome} (result, residuals.new) (inverse_outcome shape coefficients.now residuals.old) }
{
    let c = &coefficients[0..];
    let s = fields(shape);
    let mut code: u64 = 0;
    let mut rails: u32 = 0;
    if let Err(refusal) = block_refusal(s, false, c.len(), residuals.len()) {
        code = refusal.number() as u64;
    } else {
        let rows = inverse_hunt::live::rows(s, c);
        let columns = inverse_hunt::live::columns(s, rows, c);
        let found = inverse_hunt::hunt::first_outside(s, columns, rows, c);
        if let Some(place) = found {
            code = place as u64 * 4294967296 + 8;
        } else if !dct2_block::kernels::by_kernels(s, rows, columns, c, residuals) {
            rails = inverse_block::stages::stages(s, rows, columns, c, residuals);
        }
    }
    answered(code, rails)
}

/// The forward block: residuals to coefficients. Refusals 1 to 5, 20, 6, 7, then 9.
pub fn forward(shape: Shape, residuals: &[i16], coefficients: &mut [i16]) -> Answer
    ensures { ◌≡◌ {A = Outcome} (result, coefficients.new) (forward_outcome shape residuals.now coefficients.old) }
{
    if let Err(refusal) = block_refusal(shape, false, residuals.len(), coefficients.len()) {
        return refusal.at(0);
    }
    let found = forward_hunt::hunt::first_too_large(shape, residuals);
    if let Some(place) = found {
        return Refusal::TooLarge.at(place as u32);
    }
    forward_block::stages::stages(shape, residuals, coefficients);
    accepted(0)
}
