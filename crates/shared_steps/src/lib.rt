// Internal: the steps of a folded line, over the numbers n, p and q of its size, and the law behind them. Read specs/Folds, then
// inputs and outputs (forward: the inputs are folded, in 32 bits), sums and spread (inverse: the sums are folded); of proofs/, Law
// and Classes. The functions ask that sizes, lengths and tables were tested or made before, so they have a `requires`.
#![tactic(auto)]

mod arith;
pub mod inputs;
pub mod outputs;
mod places;
pub mod spread;
pub mod sums;
