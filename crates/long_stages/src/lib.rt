// Internal: both stages of an inverse block in long numbers, for calls that were tested: coefficients and middle values of 32 bits,
// sums of 64. Read rules (R, the range, the last shift), hunt (8 and 27), live (how much of the block is not zero), specs/Sums and
// sums, specs/Work and stages. `wide` takes coefficients of
// 16 bits to long numbers.
#![tactic(auto)]

pub mod arith;
pub mod hunt;
pub mod live;
pub mod rules;
pub mod stages;
pub mod sums;
pub mod wide;
