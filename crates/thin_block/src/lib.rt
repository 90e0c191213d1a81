// Blocks one sample wide or high (document 02, Wish 7), in one call with those of the inverse: one stage for a side of 1, two
// otherwise, over two lent work areas. `work` says everything of both areas: its contract is `thin_outcome` of specs/Thin; read that
// first. `inverse` hands back the stretch that holds the result: specs/Handed. Then check (the refusals; the hunt for 8 is that of
// `inverse_hunt`), one and two (the stages).
#![tactic(auto)]

mod check;
mod one;
mod two;

ghost use Rattle.std.specs.Prelude.{◌≡◌};
ghost use Rattle.meaning.specs.Refusal.{refusal_number};
ghost use Rattle.thin_block.specs.Thin.{Areas, thin_outcome};
ghost use Rattle.thin_block.specs.Handed.{handed};

use crate::check::thin_refusal;
use crate::one::{one_stage, single};
use crate::two::two_stages;
use inverse_hunt::hunt::first_outside;
use meaning::{Refusal, Shape};

/// What a call hands back beside its areas: the number of the refusal or 0, its place, the rail count, and which area starts with
/// the residuals: 1, 2, or 0 for a refused call.
#[repr(C)]
#[derive(Clone, Copy)]
pub struct Thin {
    pub number: u32,
    pub place: u32,
    pub rails: u32,
    pub area: u32,
}

impl Thin {
    fn refused(refusal: Refusal, place: u32) -> Thin
        ensures { result ≡ record { number = refusal_number refusal; place = place; rails = 0; area = 0 } }
    {
        Thin {
            number: refusal.number(),
            place,
            rails: 0,
            area: 0,
        }
    }

    fn accepted(rails: u32, area: u32) -> Thin
        ensures { result ≡ record { number = 0; place = 0; rails = rails; area = area } }
    {
        Thin {
            number: 0,
            place: 0,
            rails,
            area,
        }
    }
}

/// The inverse of a block of which one side may be 1: the residuals stand in the first area after one stage, in the second after
/// two. Any numbers, any buffers.
pub fn work(shape: Shape, coefficients: &[i16], first: &mut [i32], second: &mut [i32]) -> Thin
    ensures { ◌≡◌ {A = Areas} (record { answer = result; first = first.new; second = second.new }) (thin_outcome shape coefficients.now first.old second.old) }
{
    if let Err(refusal) = thin_refusal(shape, coefficients.len(), first.len(), second.len()) {
        return Thin::refused(refusal, 0);
    }
    let w = shape.width as usize;
    let h = shape.height as usize;
    if let Some(place) = first_outside(shape, w, h, coefficients) {
        return Thin::refused(Refusal::OutsideKept, place as u32);
    }
    let n = coefficients.len();
    if one_stage(shape) {
        single(shape, coefficients, &mut first[..n]);
        return Thin::accepted(0, 1);
    }
    let rails = two_stages(shape, coefficients, &mut first[..n], &mut second[..n]);
    Thin::accepted(rails, 2)
}

/// The same, with the residuals handed back as the stretch that holds them, and the answer beside it.
pub fn inverse<'a>(
    shape: Shape,
    coefficients: &[i16],
    first: &'a mut [i32],
    second: &'a mut [i32],
    number: &mut u32,
    place: &mut u32,
    rails: &mut u32,
) -> &'a mut [i32]
    ensures { record { number = number.exit.now; place = place.new; rails = rails.new; stretch = result.now; start = result.ref_ptr } ≡ handed shape coefficients.now first.old second.old first.entry.ref_ptr second.entry.ref_ptr }
{
    let answer = work(shape, coefficients, &mut first[..], &mut second[..]);
    *number = answer.number;
    *place = answer.place;
    *rails = answer.rails;
    if answer.area == 0 {
        return &mut first[..0];
    }
    let n = coefficients.len();
    if answer.area == 2 {
        return &mut second[..n];
    }
    &mut first[..n]
}
