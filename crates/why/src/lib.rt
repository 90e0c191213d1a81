// Why is this residual what it is? (document 02, Wish 4): the four parts of a residual at a place. Two public functions, `parts` and
// `long_parts`, and their contracts are `why_outcome` and `long_why_outcome` of specs/Why; read that first, then arith, sums and answer,
// and of proofs/ Adding, where the parts add up to the residual, Refusing and Example; the others serve these or the functions.
#![tactic(auto)]

mod answer;
mod arith;
mod sums;

ghost use Rattle.std.specs.Prelude.{◌≡◌, length};
ghost use Rattle.why.specs.Why.{why_outcome, long_why_outcome};

pub use crate::answer::Parts;
use crate::answer::{later, refused};
use long_stages::wide::widen;
use meaning::{Shape, block_refusal};

// Room for the largest block.
fn room() -> [i32; 1024]
    ensures { length result ≡ 1024 }
{
    [0; 1024]
}

/// The parts of the residual at a place of an inverse block. Any numbers, any buffer.
pub fn parts(shape: Shape, coefficients: &[i16], place: u32) -> Parts
    ensures { result ≡ why_outcome shape coefficients.now place }
{
    let n = coefficients.len();
    // "those of the inverse without 7": as of an output that is as long as the input
    if let Err(refusal) = block_refusal(shape, false, n, n) {
        return refused(refusal, 0);
    }
    let mut wide = room();
    widen(coefficients, &mut wide[0..n]);
    later(shape, false, &wide[0..n], place)
}

/// The same of a block of long numbers.
pub fn long_parts(shape: Shape, extended: bool, coefficients: &[i32], place: u32) -> Parts
    ensures { result ≡ long_why_outcome extended shape coefficients.now place }
{
    let n = coefficients.len();
    if let Err(refusal) = block_refusal(shape, extended, n, n) {
        return refused(refusal, 0);
    }
    later(shape, extended, coefficients, place)
}
