// A block named by its count: where the n-th data field of a file stands. Read specs/Pick, then the theorems of proofs/ (Fuel,
// Unique), then pick.
#![tactic(auto)]

pub mod pick;
