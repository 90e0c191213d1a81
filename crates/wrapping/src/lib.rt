// Sums that wrap on the way (document 02, Wish 9): a second, plain engine for lines, with adders of 32 bits that wrap, products in a
// given order and any starting number. Read specs/Order, Wrapped and Outcome; of proofs/, OwnProducts, whose `wraps-to` says that such
// an adder ends on the line's sums, Adder, whose `ends_on` is the argument, and SameLine. Numbers as bits stand in word, the order's
// test in places, the sums in running.
#![tactic(auto)]

mod places;
mod running;
mod word;

ghost use Rattle.std.specs.Prelude.{◌≡◌};
ghost use Rattle.algebra.specs.Lists.{at};
ghost use Rattle.algebra.specs.Refusals.{number_of};
ghost use Rattle.meaning.specs.Answer.{Outcome};
ghost use Rattle.meaning.specs.Refusal.{number_in};
ghost use Rattle.wrapping.specs.Feed.{line_sums};
ghost use Rattle.wrapping.specs.Outcome.{wrapped_tests, wrapped_outcome, forward_wrapped, inverse_wrapped};

use crate::places::is_order;
use crate::running::line;
use meaning::{Answer, Refusal, accepted, line_refusal};

// 1, 3, 6, 7 and 21.
fn wrapped_refusal(
    n: u32,
    kind: u32,
    input: usize,
    output: usize,
    order: &[u32],
) -> Result<(), Refusal>
    ensures { number_in result ≡ number_of (wrapped_tests n kind input output order.now) }
{
    line_refusal(n, kind, input, output)?;
    if !is_order(order, n as usize) {
        return Err(Refusal::Order);
    }
    Ok(())
}

// Either direction: the first refusal that applies, or the line.
fn total(
    n: u32,
    kind: u32,
    forward: bool,
    start: u32,
    order: &[u32],
    x: &[i16],
    y: &mut [i32],
) -> Answer
    ensures { ◌≡◌ {A = Outcome} (result, y.new) (wrapped_outcome n kind order.now x.now y.old (line_sums forward kind n (at x.now))) }
{
    if let Err(refusal) = wrapped_refusal(n, kind, x.len(), y.len(), order) {
        return refusal.at(0);
    }
    line(n as usize, kind, forward, start, order, x, y);
    accepted(0)
}

/// The forward line, its products fed in the order given to an adder that holds `start` and wraps.
pub fn forward(n: u32, kind: u32, start: u32, order: &[u32], x: &[i16], y: &mut [i32]) -> Answer
    ensures { ◌≡◌ {A = Outcome} (result, y.new) (forward_wrapped n kind order.now x.now y.old) }
{
    total(n, kind, true, start, order, x, y)
}

/// The inverse line, likewise.
pub fn inverse(n: u32, kind: u32, start: u32, order: &[u32], x: &[i16], y: &mut [i32]) -> Answer
    ensures { ◌≡◌ {A = Outcome} (result, y.new) (inverse_wrapped n kind order.now x.now y.old) }
{
    total(n, kind, false, start, order, x, y)
}
