// Internal: both stages of a transform block by pairs of 16-bit numbers, in place, for calls that were tested: lines of 2 to 64 points,
// of which the first columns and rows are read. Read specs/Pairs; pairs, how many pairs a line of so many inputs takes; stages, both
// stages, as `inverse_block` has them, on what `narrowing` has made 16-bit numbers of.
#![tactic(auto)]

pub mod pairs;
pub mod stages;
