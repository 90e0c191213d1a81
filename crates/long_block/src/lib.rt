// The second edition's long numbers (document 02, Wish 14): the inverse of a block with coefficients and middle values of 32 bits and
// sums of 64, whose range and last shift follow the extended-precision switch. One public function, `inverse`, and its contract is
// `long_outcome` of meaning/specs/Long; read that first, then `long_stages`. What each function there asks, `inverse` has seen to.
#![tactic(auto)]

ghost use Rattle.std.specs.Prelude.{◌≡◌};
ghost use Rattle.meaning.specs.Answer.{Outcome};
ghost use Rattle.meaning.specs.Long.{long_outcome};

use long_stages::{hunt, live, rules, stages};
use meaning::{Answer, Refusal, Shape, accepted, block_refusal};

/// The inverse of a block of long numbers: residuals from coefficients, with the rail count. Any numbers, any buffers.
pub fn inverse(shape: Shape, extended: bool, coefficients: &[i32], residuals: &mut [i32]) -> Answer
    ensures { ◌≡◌ {A = Outcome} (result, residuals.new) (long_outcome extended shape coefficients.now residuals.old) }
{
    if let Err(refusal) = block_refusal(shape, extended, coefficients.len(), residuals.len()) {
        return refusal.at(0);
    }
    if let Some(place) = hunt::first_outside(shape, coefficients) {
        return Refusal::OutsideKept.at(place as u32);
    }
    let reach = rules::reach_of(extended, shape.depth);
    if let Some(place) = hunt::first_beyond(reach, coefficients) {
        return Refusal::OutOfRange.at(place as u32);
    }
    let w = shape.width as usize;
    let rows = live::row_pairs(coefficients, w, shape.height as usize);
    let columns = live::column_pairs(coefficients, w, 2 * rows);
    accepted(stages::stages(shape, extended, rows, columns, coefficients, residuals))
}
