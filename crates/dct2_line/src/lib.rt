// Internal: lines of kind 0 by their even and odd halves, for calls that were tested, so with a `requires`. The law is that of
// `halves`: read its specs first, then inverse and forward, with specs/Lines. table has the weights of the odd halves, arith sums in
// 32 bits.
#![tactic(auto)]

pub mod arith;
pub mod forward;
pub mod inverse;
pub mod table;
