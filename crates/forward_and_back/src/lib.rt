// Internal: one block, forward and back, and how far it strays: what `report` adds up. `trip` says nothing of its numbers where the
// block is refused. Read specs/Trip; of proofs/, Back (the way back refuses nothing).
#![tactic(auto)]

ghost use Rattle.std.specs.Prelude.{◌≡◌, ◌*◌, ◌≤◌, min, nat_abs, ◌-ℤ◌, length};
ghost use Rattle.algebra.specs.Sum.{sumℕ};
ghost use Rattle.meaning.specs.Taken.{NoneAbove};
ghost use Rattle.forward_and_back.specs.Trip.{trip_answer, returned, apart, greatest, largest, squares};

use meaning::{Answer, Shape};

// The size of a difference.
fn difference(given: i16, back: i32) -> u64
    ensures { result ≡ nat_abs (given -ℤ back) }
{
    u64::from(i32::from(given).abs_diff(back))
}

fn largest_difference(given: &[i16], back: &[i32]) -> u64
    requires { (length given.now ≡ length back.now) × NoneAbove 262144 back.now }
    ensures { result ≡ greatest (length given.now) (apart given.now back.now) }
{
    let mut most = 0;
    for k in 0..given.len() {
        most = most.max(difference(given[k], back[k]));
    }
    most
}

fn squared_differences(given: &[i16], back: &[i32]) -> u64
    requires { (length given.now ≡ length back.now) × (length given.now ≤ 1024) × NoneAbove 262144 back.now }
    ensures { result ≡ sumℕ (length given.now) (λ k. apart given.now back.now k * apart given.now back.now k) }
{
    let mut sum: u64 = 0;
    for k in 0..given.len() {
        let size = difference(given[k], back[k]);
        sum += size * size;
    }
    sum
}

// The forward into one buffer, the inverse into another.
fn there_and_back(
    shape: Shape,
    residuals: &[i16],
    coefficients: &mut [i16],
    back: &mut [i32],
) -> Answer
    requires { (length coefficients.old ≡ min (length residuals.now) 1024) × (length back.old ≡ min (length residuals.now) 1024) }
    ensures { (result ≡ trip_answer shape residuals.now) × (result.number ≡ 0 → back.new ≡ returned shape residuals.now) }
{
    let forward = block::forward(shape, residuals, coefficients);
    if forward.number != 0 {
        return forward;
    }
    block::inverse(shape, coefficients, back)
}

// What a block adds to the totals, beside its answer.
#[derive(Clone, Copy)]
pub struct Measured {
    pub answer: Answer,
    pub largest: u64,
    pub squares: u64,
}

pub fn trip(shape: Shape, residuals: &[i16]) -> Measured
    ensures { (result.answer ≡ trip_answer shape residuals.now) × (result.answer.number ≡ 0 → (result.largest ≡ largest shape residuals.now) × (result.squares ≡ squares shape residuals.now)) }
{
    // No block has more than 1,024 residuals.
    let n = residuals.len().min(1024);
    let mut coefficients = [0i16; 1024];
    let mut back = [0i32; 1024];
    let answer = there_and_back(shape, residuals, &mut coefficients[..n], &mut back[..n]);
    if answer.number != 0 {
        return Measured {
            answer,
            largest: 0,
            squares: 0,
        };
    }
    let largest = largest_difference(residuals, &back[..n]);
    let squares = squared_differences(residuals, &back[..n]);
    Measured {
        answer,
        largest,
        squares,
    }
}
