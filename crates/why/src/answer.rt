// The refusals after 6 in their order, and the answer.
ghost use Rattle.std.specs.Prelude.{◌≡◌, [], ◌∷◌, ◌*◌, ◌<◌};
ghost use Rattle.algebra.specs.Refusals.{first_of};
ghost use Rattle.meaning.specs.Long.{beyond_test};
ghost use Rattle.meaning.specs.Plan.{long_plan};
ghost use Rattle.meaning.specs.Refusal.{refusal_number};
ghost use Rattle.meaning.specs.Inverse.{outside_test};
ghost use Rattle.why.specs.Why.{parts_of, no_parts, place_test};
ghost use Rattle.why.specs.Work.{Passed, Clean};

use crate::arith::last_rounding;
use crate::sums::carried;
use long_stages::hunt::{first_beyond, first_outside};
use long_stages::rules::{last_shift, reach_of};
use meaning::{Refusal, Shape};

/// What a call hands back: the number of the refusal or 0, its place, and the four parts, whose sum is 2^(27-d) times the residual,
/// or 2^(7+s) times for the long numbers.
#[repr(C)]
#[derive(Clone, Copy)]
pub struct Parts {
    pub number: u32,
    pub place: u32,
    pub exact: i64,
    pub middle_roundings: i64,
    pub clippings: i64,
    pub last_rounding: i64,
}

// "Refusals, all four parts 0".
pub fn refused(refusal: Refusal, place: u32) -> Parts
    ensures { result ≡ no_parts (refusal_number refusal) place }
{
    Parts {
        number: refusal.number(),
        place,
        exact: 0,
        middle_roundings: 0,
        clippings: 0,
        last_rounding: 0,
    }
}

// The parts at a place below w*h.
fn told(shape: Shape, extended: bool, c: &[i32], place: u32) -> Parts
    requires { Clean extended shape c.now × (place < shape.width * shape.height) }
    ensures { result ≡ parts_of (long_plan extended shape) c.now place }
{
    let x = place % shape.width;
    let y = place / shape.width;
    let s = carried(shape, extended, c, x as usize, y as usize);
    let last = last_shift(extended, shape.depth);
    Parts {
        number: 0,
        place: 0,
        exact: s.exact,
        middle_roundings: s.middle_roundings,
        clippings: s.clippings,
        last_rounding: last_rounding(s.row, last),
    }
}

// 8, 27 and 15, and then the parts.
pub fn later(shape: Shape, extended: bool, c: &[i32], place: u32) -> Parts
    requires { Passed extended shape c.now }
    ensures { result ≡ first_of (outside_test (long_plan extended shape) c.now ∷ beyond_test (long_plan extended shape) c.now ∷ place_test (long_plan extended shape) place ∷ []) no_parts (parts_of (long_plan extended shape) c.now place) }
{
    if let Some(first) = first_outside(shape, c) {
        return refused(Refusal::OutsideKept, first as u32);
    }
    if let Some(far) = first_beyond(reach_of(extended, shape.depth), c) {
        return refused(Refusal::OutOfRange, far as u32);
    }
    if place < shape.width * shape.height {
        return told(shape, extended, c, place);
    }
    refused(Refusal::Place, 0)
}
