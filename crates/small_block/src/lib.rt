// 4 by 4 blocks by value: four lines of four go in and come back, and nothing is lent. Read specs/Small; of proofs/, FourByFour and
// Unique.
#![tactic(auto)]

ghost use Rattle.std.specs.Prelude.{◌≡◌, ◌+◌, ◌≤◌};
ghost use Rattle.algebra.specs.Lists.{at, tabulate, flat};
ghost use Rattle.meaning.specs.Answer.{Outcome};
ghost use Rattle.small_block.specs.Small.{small_forward, small_inverse};

use block::{forward, inverse};
use meaning::{Answer, Shape};

/// What a forward block by value hands back: the answer, and the coefficients, sixteen zeros where it was turned down.
#[derive(Clone, Copy)]
pub struct SmallCoefficients {
    pub answer: Answer,
    pub block: [[i16; 4]; 4],
}

/// What an inverse block by value hands back: the answer, and the residuals, sixteen zeros where it was turned down.
#[derive(Clone, Copy)]
pub struct SmallResiduals {
    pub answer: Answer,
    pub block: [[i32; 4]; 4],
}

/// The coefficients, for a caller that is proved.
pub fn coefficients_of(c: SmallCoefficients) -> [[i16; 4]; 4]
    ensures { result ≡ c.block }
{
    c.block
}

/// The residuals, for a caller that is proved.
pub fn residuals_of(r: SmallResiduals) -> [[i32; 4]; 4]
    ensures { result ≡ r.block }
{
    r.block
}

// The line that starts at a place, and the four of them.
fn coefficient_line(c: [i16; 16], from: usize) -> [i16; 4]
    requires { from ≤ 12 }
    ensures { result ≡ tabulate 4 (λ k. at c (from + k)) }
{
    [c[from], c[from + 1], c[from + 2], c[from + 3]]
}

fn coefficient_lines(c: [i16; 16]) -> [[i16; 4]; 4]
    ensures { flat result ≡ c }
{
    let first = coefficient_line(c, 0);
    let second = coefficient_line(c, 4);
    let third = coefficient_line(c, 8);
    let fourth = coefficient_line(c, 12);
    [first, second, third, fourth]
}

fn residual_line(r: [i32; 16], from: usize) -> [i32; 4]
    requires { from ≤ 12 }
    ensures { result ≡ tabulate 4 (λ k. at r (from + k)) }
{
    [r[from], r[from + 1], r[from + 2], r[from + 3]]
}

fn residual_lines(r: [i32; 16]) -> [[i32; 4]; 4]
    ensures { flat result ≡ r }
{
    let first = residual_line(r, 0);
    let second = residual_line(r, 4);
    let third = residual_line(r, 8);
    let fourth = residual_line(r, 12);
    [first, second, third, fourth]
}

/// The forward block of 4 by 4 residuals. Refusals 3, 4, 5 and 9.
pub fn forward_4x4(
    block: [[i16; 4]; 4],
    horizontal: u32,
    vertical: u32,
    depth: u32,
) -> SmallCoefficients
    ensures { ◌≡◌ {A = Outcome} (result.answer, flat result.block) (small_forward block horizontal vertical depth) }
{
    let mut coefficients = [0i16; 16];
    let shape = Shape::new(4, 4, horizontal, vertical, depth);
    let answer = forward(shape, block.as_flattened(), &mut coefficients);
    SmallCoefficients {
        answer,
        block: coefficient_lines(coefficients),
    }
}

/// The inverse of 4 by 4 coefficients, with the rail count. Refusals 3, 4 and 5.
pub fn inverse_4x4(
    block: [[i16; 4]; 4],
    horizontal: u32,
    vertical: u32,
    depth: u32,
) -> SmallResiduals
    ensures { ◌≡◌ {A = Outcome} (result.answer, flat result.block) (small_inverse block horizontal vertical depth) }
{
    let mut residuals = [0i32; 16];
    let shape = Shape::new(4, 4, horizontal, vertical, depth);
    let answer = inverse(shape, block.as_flattened(), &mut residuals);
    SmallResiduals {
        answer,
        block: residual_lines(residuals),
    }
}

/// What both forms of the forward block hand back, each with its coefficients.
#[derive(Clone, Copy)]
pub struct BothCoefficients {
    pub by_value: Answer,
    pub lent: Answer,
    pub by_value_block: [i16; 16],
    pub lent_block: [i16; 16],
}

/// What both forms of the inverse hand back, each with its residuals.
#[derive(Clone, Copy)]
pub struct BothResiduals {
    pub by_value: Answer,
    pub lent: Answer,
    pub by_value_block: [i32; 16],
    pub lent_block: [i32; 16],
}

/// The forward block of 4 by 4 residuals by value and lent: the same answer and the same numbers.
pub fn forward_both(
    block: [[i16; 4]; 4],
    horizontal: u32,
    vertical: u32,
    depth: u32,
) -> BothCoefficients
    ensures fact { ◌≡◌ {A = Outcome} (result.by_value, result.by_value_block) (small_forward block horizontal vertical depth) }
    ensures agree { ◌≡◌ {A = Outcome} (result.by_value, result.by_value_block) (result.lent, result.lent_block) }
{
    let small = forward_4x4(block, horizontal, vertical, depth);
    let mut lent_block = [0i16; 16];
    let shape = Shape::new(4, 4, horizontal, vertical, depth);
    let lent = forward(shape, block.as_flattened(), &mut lent_block);
    let mut by_value_block = [0i16; 16];
    by_value_block.copy_from_slice(small.block.as_flattened());
    BothCoefficients {
        by_value: small.answer,
        lent,
        by_value_block,
        lent_block,
    }
}

/// The inverse of 4 by 4 coefficients by value and lent: the same answer and the same numbers.
pub fn inverse_both(
    block: [[i16; 4]; 4],
    horizontal: u32,
    vertical: u32,
    depth: u32,
) -> BothResiduals
    ensures fact { ◌≡◌ {A = Outcome} (result.by_value, result.by_value_block) (small_inverse block horizontal vertical depth) }
    ensures agree { ◌≡◌ {A = Outcome} (result.by_value, result.by_value_block) (result.lent, result.lent_block) }
{
    let small = inverse_4x4(block, horizontal, vertical, depth);
    let mut lent_block = [0i32; 16];
    let shape = Shape::new(4, 4, horizontal, vertical, depth);
    let lent = inverse(shape, block.as_flattened(), &mut lent_block);
    let mut by_value_block = [0i32; 16];
    by_value_block.copy_from_slice(small.block.as_flattened());
    BothResiduals {
        by_value: small.answer,
        lent,
        by_value_block,
        lent_block,
    }
}
