// One step on the cells: `values` is what they hold, `written` says of each whether it was written.
ghost use Rattle.std.specs.Prelude.{◌≡◌, true, false, cond, ◌&&◌, ℕ, ◌+◌, ◌<◌, ◌≤◌, ltb, length, set, get_or};
ghost use Rattle.algebra.specs.Lists.{at};
ghost use Rattle.meaning.specs.Refusal.{number_in};
ghost use Rattle.steps.specs.Steps.{ran, refused, multiplies, step};
ghost use Rattle.steps.specs.Numbers.{cell_of, step_from};
ghost use Rattle.steps.specs.Outcome.{fits32, whole_numbers};
ghost use Rattle.step_run.specs.Parts.{step_at, state, tell};

use crate::arith::{cell, combine, reads_two};
use meaning::Refusal;

// The second cell that is read, or the first again.
fn second(two: bool, d: i32, a: usize) -> usize
    ensures { result ≡ cond two (cell_of d) a }
{
    if two { cell(d) } else { a }
}

fn inside(t: usize, a: usize, b: usize, n: usize) -> bool
    ensures { result ≡ (ltb t n && (ltb a n && ltb b n)) }
{
    t < n && a < n && b < n
}

fn known(written: &[bool], a: usize, b: usize) -> bool
    requires { (a < length written.now) × (b < length written.now) }
    ensures { result ≡ (get_or written.now a false && get_or written.now b false) }
{
    written[a] && written[b]
}

// The second number: what the second cell holds, or the constant.
fn operand(two: bool, values: &[i32], b: usize, d: i32) -> i32
    requires { b < length values.now }
    ensures { result ≡ cond two (at values.now b) d }
{
    if two { values[b] } else { d }
}

// z in cell t, where it fits.
fn store(z: i64, t: usize, values: &mut [i32], written: &mut [bool]) -> Result<(), Refusal>
    requires { (t < length values.old) × (t < length written.old) }
    ensures { (c : ℕ) → tell (number_in result) (state values.new written.new c) ≡ cond (fits32 z) (ran (state (set values.old t z) (set written.old t true) c)) (refused 29) }
{
    match i32::try_from(z) {
        Ok(number) => {
            values[t] = number;
            written[t] = true;
            Ok(())
        }
        Err(_) => Err(Refusal::StepResult),
    }
}

// The step (o, t, a, d). The cells that are read are looked at before one is written.
fn one(
    o: i32,
    t: usize,
    a: usize,
    d: i32,
    n: usize,
    values: &mut [i32],
    written: &mut [bool],
) -> Result<(), Refusal>
    requires { (n ≤ length values.old) × (n ≤ length written.old) }
    ensures { (c : ℕ) → tell (number_in result) (state values.new written.new (c + multiplies (step_from o t a d))) ≡ step whole_numbers n (state values.old written.old c) (step_from o t a d) }
{
    let two = reads_two(o);
    let b = second(two, d, a);
    if !inside(t, a, b, n) {
        return Err(Refusal::Cell);
    }
    if !known(written, a, b) {
        return Err(Refusal::Unwritten);
    }
    let y = operand(two, values, b, d);
    let z = combine(o, values[a], y);
    store(z, t, values, written)
}

// The step that starts at place i.
pub fn next(
    steps: &[i32],
    i: usize,
    n: usize,
    values: &mut [i32],
    written: &mut [bool],
) -> Result<(), Refusal>
    requires { (i + 4 ≤ length steps.now) × ((n ≤ length values.old) × (n ≤ length written.old)) }
    ensures { (c : ℕ) → tell (number_in result) (state values.new written.new (c + multiplies (step_at steps.now i))) ≡ step whole_numbers n (state values.old written.old c) (step_at steps.now i) }
{
    let t = cell(steps[i + 1]);
    let a = cell(steps[i + 2]);
    one(steps[i], t, a, steps[i + 3], n, values, written)
}

// 1 where the step that starts at place i multiplies.
pub fn multiplies(steps: &[i32], i: usize) -> u32
    requires { i + 4 ≤ length steps.now }
    ensures { (result ≡ multiplies (step_at steps.now i)) × (result ≤ 1) }
{
    match steps[i] {
        0..=2 => 0,
        _ => 1,
    }
}
