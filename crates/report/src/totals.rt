// The totals, which the caller keeps: 578 numbers, lent to each call. `add` takes one block.
ghost use Rattle.std.specs.Prelude.{◌≡◌, ℕ, ◌+◌, ◌<◌, ◌≤◌, true, List};
ghost use Rattle.meaning.specs.Shape.{is_kind};
ghost use Rattle.forward_and_back.specs.Trip.{trip_answer};
ghost use Rattle.report.specs.Totals.{empty, side, place, entered, counted, plus, add_outcome};

use forward_and_back::trip;
use meaning::{Answer, Refusal, Shape};

/// The totals of no blocks.
pub fn empty() -> [u64; 578]
    ensures { result ≡ empty }
{
    [0; 578]
}

/// The same, in totals that are lent.
pub fn clear(totals: &mut [u64; 578])
    ensures { totals.new ≡ empty }
{
    *totals = [0; 578];
}

// 4, 8, 16 and 32 are 0 to 3.
fn side(n: u32) -> usize
    ensures { (result ≡ side n) × (result ≤ 3) }
{
    match n {
        4 => 0,
        8 => 1,
        16 => 2,
        _ => 3,
    }
}

// Where the four totals of a shape start.
fn place(shape: Shape) -> usize
    requires { (is_kind shape.horizontal ≡ true) × (is_kind shape.vertical ≡ true) }
    ensures { (result ≡ place shape) × (result ≤ 572) }
{
    let width = side(shape.width);
    let height = side(shape.height);
    let horizontal = shape.horizontal as usize;
    let vertical = shape.vertical as usize;
    ((width * 4 + height) * 9 + (horizontal * 3 + vertical)) * 4
}

// A number more, modulo 2^64.
fn count(totals: &mut [u64; 578], i: usize, more: u64)
    requires { i < 578 }
    ensures { totals.new ≡ plus i more totals.old }
{
    totals[i] = totals[i].wrapping_add(more);
}

// The four of a block.
fn enter(totals: &mut [u64; 578], i: usize, rails: u64, largest: u64, squares: u64)
    requires { i + 3 < 578 }
    ensures { totals.new ≡ entered i rails largest squares totals.old }
{
    count(totals, i, 1);
    count(totals, i + 1, rails);
    totals[i + 2] = totals[i + 2].max(largest);
    count(totals, i + 3, squares);
}

// A block that is among the first 65,536, before it is counted as given.
fn tally(totals: &mut [u64; 578], shape: Shape, residuals: &[i16]) -> Answer
    ensures { (result ≡ trip_answer shape residuals.now) × (totals.new ≡ counted shape residuals.now totals.old) }
{
    let trip = trip(shape, residuals);
    let answer = trip.answer;
    if answer.number != 0 {
        count(totals, 576, 1);
        return answer;
    }
    enter(
        totals,
        place(shape),
        answer.rails as u64,
        trip.largest,
        trip.squares,
    );
    answer
}

/// Runs a block forward and back, and counts it. Refusals: 22 where 65,536 blocks were given before, and the totals stay; then
/// those of the forward without 7, and the block is counted as refused.
pub fn add(totals: &mut [u64; 578], shape: Shape, residuals: &[i16]) -> Answer
    ensures { ◌≡◌ {A = Answer × List ℕ} (result, totals.new) (add_outcome totals.old shape residuals.now) }
{
    if totals[577] >= 65536 {
        return Refusal::TotalsFull.at(0);
    }
    let answer = tally(totals, shape, residuals);
    count(totals, 577, 1);
    answer
}
