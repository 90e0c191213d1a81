// The forward DST-VII line by its list of steps: on every 16-bit input it is the full product.
ghost use Rattle.std.specs.Prelude.{◌≡◌, ◌≤◌, nat_abs, length};
ghost use Rattle.algebra.specs.Refusals.{number_of};
ghost use Rattle.meaning.specs.Refusal.{number_in};
ghost use Rattle.steps.specs.Outcome.{Result, Sixteen};
ghost use Rattle.step_lists.specs.Listed.{step_line_tests, step_line, step_line_outcome};

use crate::list::is_listed;
use crate::stored::{outs_4, outs_16, outs_32, steps_4, steps_16, steps_32};
use meaning::{Refusal, length_refusal};
use step_run::run::run;
use steps::StepCount;

fn wide(x: i16) -> i32
    ensures { (result ≡ x) × (nat_abs result ≤ 32768) }
{
    i32::from(x)
}

// That numbers of 16 bits are at most 32768 in size is what reading tells; the loop does nothing else.
fn sixteen(x: &[i16])
    ensures { Sixteen x.now }
{
    for v in x {
        wide(*v);
    }
}

// 1, 6 and 7.
fn refusal(n: u32, input: usize, output: usize) -> Result<(), Refusal>
    ensures { number_in result ≡ number_of (step_line_tests n input output) }
{
    if !is_listed(n) {
        return Err(Refusal::Width);
    }
    length_refusal(n as usize, input, output)
}

// A line that is not refused.
fn accepted(n: u32, x: &[i16], y: &mut [i32]) -> StepCount
    requires { number_of (step_line_tests n (length x.now) (length y.old)) ≡ 0 }
    ensures { ◌≡◌ {A = Result} (result, y.new) (step_line n x.now) }
{
    sixteen(x);
    match n {
        4 => run(4, 11, &steps_4(), &outs_4(), x, y),
        16 => run(16, 40, &steps_16(), &outs_16(), x, y),
        _ => run(32, 79, &steps_32(), &outs_32(), x, y),
    }
}

/// The forward DST-VII line of n points by its list of steps, n being 4, 16 or 32.
pub fn forward(n: u32, x: &[i16], y: &mut [i32]) -> StepCount
    ensures { ◌≡◌ {A = Result} (result, y.new) (step_line_outcome n x.now y.old) }
{
    if let Err(refusal) = refusal(n, x.len(), y.len()) {
        return StepCount::from(Err(refusal));
    }
    accepted(n, x, y)
}
