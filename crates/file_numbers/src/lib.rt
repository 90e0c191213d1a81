// Internal: the numbers of a body, for the crates that take a block from a file, which lend an output of the right length: hence a
// `requires`. Read specs/Numbers, then bytes.
#![tactic(auto)]

pub mod bytes;
