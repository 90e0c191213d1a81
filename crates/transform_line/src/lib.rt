// Internal: the lines of transform blocks with a side of 1 or 2, of 16-bit numbers, by as many pairs as are read, for calls that were
// tested. Read specs/Lines; zero and other, the lines of kind 0 and of kinds 1 and 2; lines, which of them a line takes; two, lines of two
// points; stage, the one stage of a side of 1. Of proofs/, Runs has what a caller of lines cites.
#![tactic(auto)]

pub mod lines;
mod other;
pub mod stage;
pub mod two;
mod zero;
