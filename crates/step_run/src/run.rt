// A list of steps, run: its refusals before the first step, the inputs into the first cells, every step, the output cells.
ghost use Rattle.std.specs.Prelude.{◌≡◌, true, map, ◌++◌, ◌<◌, ◌≤◌, length, drop, replicate};
ghost use Rattle.algebra.specs.Lists.{at};
ghost use Rattle.algebra.specs.Refusals.{number_of};
ghost use Rattle.meaning.specs.Refusal.{number_in};
ghost use Rattle.steps.specs.Counted.{step_count};
ghost use Rattle.steps.specs.Steps.{run, finished, whole_run};
ghost use Rattle.steps.specs.Numbers.{cell_of, decode, list_of};
ghost use Rattle.steps.specs.Outcome.{Result, whole_numbers, list_tests, given, steps_outcome};
ghost use Rattle.step_run.specs.Parts.{state, tell_count, outs_refusal, readings};

use crate::arith::cell;
use crate::step::{multiplies, next};
use meaning::Refusal;
use steps::StepCount;

// 18, 6, 7 and 28 of a list, before any step.
fn refusal(
    steps: usize,
    cells: usize,
    inputs: usize,
    outs: usize,
    input: usize,
    output: usize,
) -> Result<(), Refusal>
    ensures { number_in result ≡ number_of (list_tests steps cells inputs outs input output) }
{
    if steps > 2048 || cells > 2048 {
        return Err(Refusal::TooManySteps);
    }
    if input != inputs {
        return Err(Refusal::Input);
    }
    if output != outs {
        return Err(Refusal::Output);
    }
    if cells < inputs {
        return Err(Refusal::Cell);
    }
    Ok(())
}

// The inputs into the first cells.
fn load(x: &[i16], values: &mut [i32], written: &mut [bool])
    requires { (length x.now ≤ length values.old) × (length x.now ≤ length written.old) }
    ensures { (values.new ≡ x.now ++ drop (length x.now) values.old) × (written.new ≡ replicate (length x.now) true ++ drop (length x.now) written.old) }
{
    for (i, &v) in x.iter().enumerate() {
        values[i] = i32::from(v);
        written[i] = true;
    }
}

// Every step, to the first that is refused: how many of them multiply.
fn follow(steps: &[i32], n: usize, values: &mut [i32], written: &mut [bool]) -> Result<u32, Refusal>
    requires { (length steps.now < 8196) × ((n ≤ length values.old) × (n ≤ length written.old)) }
    ensures { tell_count result (state values.new written.new) ≡ run whole_numbers n (decode steps.now) (state values.old written.old 0) }
{
    let mut count: u32 = 0;
    for k in 0..steps.len() / 4 {
        next(steps, 4 * k, n, values, written)?;
        count += multiplies(steps, 4 * k);
    }
    Ok(count)
}

// 28 and 17 at the first output cell that meets one.
fn unread(outs: &[i32], n: usize, written: &[bool]) -> Result<(), Refusal>
    requires { n ≤ length written.now }
    ensures { number_in result ≡ outs_refusal n written.now outs.now }
{
    for out in outs {
        let o = cell(*out);
        if n <= o {
            return Err(Refusal::Cell);
        }
        if !written[o] {
            return Err(Refusal::Unwritten);
        }
    }
    Ok(())
}

// What a cell holds; 0 where there is none.
fn held(values: &[i32], o: i32) -> i32
    ensures { result ≡ at values.now (cell_of o) }
{
    values.get(cell(o)).copied().unwrap_or(0)
}

fn hand_over(outs: &[i32], values: &[i32], y: &mut [i32])
    requires { length y.old ≡ length outs.now }
    ensures { y.new ≡ readings values.now outs.now }
{
    for (i, &o) in outs.iter().enumerate() {
        y[i] = held(values, o);
    }
}

// After the last step: the output cells.
fn finish(
    outs: &[i32],
    n: usize,
    values: &[i32],
    written: &[bool],
    count: u32,
    y: &mut [i32],
) -> Result<u32, Refusal>
    requires { (n ≤ length written.now) × (length y.old ≡ length outs.now) }
    ensures { ◌≡◌ {A = Result} (step_count result, y.new) (given y.old (finished whole_numbers n (map cell_of outs.now) (state values.now written.now count))) }
{
    unread(outs, n, written)?;
    hand_over(outs, values, y);
    Ok(count)
}

// A list that is not refused before its first step.
fn accepted(n: usize, steps: &[i32], outs: &[i32], x: &[i16], y: &mut [i32]) -> Result<u32, Refusal>
    requires { ((length steps.now < 8196) × (n ≤ 2048)) × ((length x.now ≤ n) × (length y.old ≡ length outs.now)) }
    ensures { ◌≡◌ {A = Result} (step_count result, y.new) (given y.old (whole_run whole_numbers (list_of (length x.now) n steps.now outs.now) x.now)) }
{
    let mut values: [i32; 2048] = [0; 2048];
    let mut written: [bool; 2048] = [false; 2048];
    load(x, &mut values, &mut written);
    let count = follow(steps, n, &mut values, &mut written)?;
    finish(outs, n, &values, &written, count, y)
}

/// Runs a list of steps: four numbers to a step in `steps`, the output cells in `outs`.
pub fn run(
    inputs: u32,
    cells: u32,
    steps: &[i32],
    outs: &[i32],
    x: &[i16],
    y: &mut [i32],
) -> StepCount
    ensures { ◌≡◌ {A = Result} (result, y.new) (steps_outcome (list_of inputs cells steps.now outs.now) x.now y.old) }
{
    let (n, first) = (cells as usize, inputs as usize);
    if let Err(refusal) = refusal(steps.len() / 4, n, first, outs.len(), x.len(), y.len()) {
        return StepCount::from(Err(refusal));
    }
    StepCount::from(accepted(n, steps, outs, x, y))
}
