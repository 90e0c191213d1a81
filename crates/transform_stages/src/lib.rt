// Internal: the stages of a transform block in place, for calls that were tested: numbers of 32 bits, sums of 64, every line of 2 to 64
// points. Read specs/Work; weights, the weights of a line of any size; read, the first columns and rows, apart from the numbers that
// the stages write; upward, the second stage from the last row up, over its own input; stages, both stages, and the one of a thin block.
#![tactic(auto)]

pub mod read;
pub mod stages;
pub mod table;
pub mod upward;
pub mod weights;
