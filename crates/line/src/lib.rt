// Lines: the weights one by one, and lines of 4, 8, 16 and 32 points, over any numbers and any buffers. `forward` and `inverse` go
// the fast path, `forward_product` and `inverse_product` the full product; the two of a direction have one contract. Read specs/Line,
// then proofs/Agreement and proofs/Unique. The work behind them stands in `shared_line`, `dct2_line` and `full_line`.
#![tactic(auto)]

ghost use Rattle.std.specs.Prelude.{◌≡◌, true, false, length};
ghost use Rattle.algebra.specs.Lists.{at};
ghost use Rattle.algebra.specs.Refusals.{number_of};
ghost use Rattle.meaning.specs.Shape.{is_size};
ghost use Rattle.meaning.specs.Answer.{Outcome, line_tests, forward_line_outcome, inverse_line_outcome};
ghost use Rattle.full_line.specs.Lines.{line_of};
ghost use Rattle.shared_steps.specs.Lines.{is_shared};
ghost use Rattle.line.specs.Line.{is_place, weight_or_zero, line_outcome};

use full_line::{eight, full};
use meaning::{Answer, accepted, is_kind, is_size, line_refusal};

fn is_place(kind: u32, n: u32, i: u32, j: u32) -> bool
    ensures { result ≡ is_place kind n i j }
{
    is_kind(kind) && is_size(n) && i < n && j < n
}

/// The weight in row i and column j of the matrix of n points; 0 where there is no such kind, size, row or column.
pub fn weight(kind: u32, n: u32, i: u32, j: u32) -> i32
    ensures { result ≡ weight_or_zero kind n i j }
{
    if !is_place(kind, n, i, j) {
        return 0;
    }
    full_line::weight(n as usize, kind, i as usize, j as usize)
}

// The sizes with shared weights, of kinds 1 and 2: all but 8.
fn is_shared(n: u32) -> bool
    requires { is_size n ≡ true }
    ensures { result ≡ is_shared n }
{
    n != 8
}

// A line that was accepted, by its folds, or of kind 0 by its halves. Where nothing is shared the product is the only path. The
// directions are apart, so that neither has the other's numbers on its stack.
fn fast_forward(n: u32, kind: u32, x: &[i16], y: &mut [i32])
    requires { number_of (line_tests n kind (length x.now) (length y.old)) ≡ 0 }
    ensures { y.new ≡ line_of true kind n (at x.now) }
{
    if kind == 0 {
        dct2_line::forward::forward(n as usize, x, y);
    } else if is_shared(n) {
        shared_line::forward::forward(n as usize, kind, x, y);
    } else {
        eight(kind, true, x, y);
    }
}

fn fast_inverse(n: u32, kind: u32, x: &[i16], y: &mut [i32])
    requires { number_of (line_tests n kind (length x.now) (length y.old)) ≡ 0 }
    ensures { y.new ≡ line_of false kind n (at x.now) }
{
    if kind == 0 {
        dct2_line::inverse::inverse(n as usize, x, y);
    } else if is_shared(n) {
        shared_line::inverse::inverse(n as usize, kind, x, y);
    } else {
        eight(kind, false, x, y);
    }
}

// Any numbers and any buffers: the first refusal that applies, or the line by the full product.
fn total(n: u32, kind: u32, forward: bool, x: &[i16], y: &mut [i32]) -> Answer
    ensures { ◌≡◌ {A = Outcome} (result, y.new) (line_outcome forward n kind x.now y.old) }
{
    if let Err(refused) = line_refusal(n, kind, x.len(), y.len()) {
        return refused.at(0);
    }
    full(n as usize, kind, forward, x, y);
    accepted(0)
}

/// The forward line by the fast path.
pub fn forward(n: u32, kind: u32, x: &[i16], y: &mut [i32]) -> Answer
    ensures { ◌≡◌ {A = Outcome} (result, y.new) (forward_line_outcome n kind x.now y.old) }
{
    if let Err(refusal) = line_refusal(n, kind, x.len(), y.len()) {
        return refusal.at(0);
    }
    fast_forward(n, kind, x, y);
    accepted(0)
}

/// The forward line by the full product.
pub fn forward_product(n: u32, kind: u32, x: &[i16], y: &mut [i32]) -> Answer
    ensures { ◌≡◌ {A = Outcome} (result, y.new) (forward_line_outcome n kind x.now y.old) }
{
    total(n, kind, true, x, y)
}

/// The inverse line by the fast path.
pub fn inverse(n: u32, kind: u32, x: &[i16], y: &mut [i32]) -> Answer
    ensures { ◌≡◌ {A = Outcome} (result, y.new) (inverse_line_outcome n kind x.now y.old) }
{
    if let Err(refusal) = line_refusal(n, kind, x.len(), y.len()) {
        return refusal.at(0);
    }
    fast_inverse(n, kind, x, y);
    accepted(0)
}

/// The inverse line by the full product.
pub fn inverse_product(n: u32, kind: u32, x: &[i16], y: &mut [i32]) -> Answer
    ensures { ◌≡◌ {A = Outcome} (result, y.new) (inverse_line_outcome n kind x.now y.old) }
{
    total(n, kind, false, x, y)
}

/// What both paths of a direction hand back.
#[repr(C)]
#[derive(Clone, Copy)]
pub struct Both {
    pub fast: Answer,
    pub full: Answer,
}

/// The forward line by both paths, each into its own buffer: equal buffers come back equal, with equal answers.
pub fn forward_both(n: u32, kind: u32, x: &[i16], y: &mut [i32], z: &mut [i32]) -> Both
    ensures fact { ◌≡◌ {A = Outcome × Outcome} ((result.fast, y.new), (result.full, z.new)) (forward_line_outcome n kind x.now y.old, forward_line_outcome n kind x.now z.old) }
    ensures agree { y.old ≡ z.old → ◌≡◌ {A = Outcome} (result.fast, y.new) (result.full, z.new) }
{
    let fast = forward(n, kind, x, y);
    let full = forward_product(n, kind, x, z);
    Both { fast, full }
}

/// The inverse line by both paths, likewise.
pub fn inverse_both(n: u32, kind: u32, x: &[i16], y: &mut [i32], z: &mut [i32]) -> Both
    ensures fact { ◌≡◌ {A = Outcome × Outcome} ((result.fast, y.new), (result.full, z.new)) (inverse_line_outcome n kind x.now y.old, inverse_line_outcome n kind x.now z.old) }
    ensures agree { y.old ≡ z.old → ◌≡◌ {A = Outcome} (result.fast, y.new) (result.full, z.new) }
{
    let fast = inverse(n, kind, x, y);
    let full = inverse_product(n, kind, x, z);
    Both { fast, full }
}
