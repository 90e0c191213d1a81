// Internal: the inverse of a block of document 01 by 16-bit numbers, in place, for calls that were tested: the first columns and rows of
// it are read. Read specs/Short; staged, both stages of numbers that were narrowed; quick, small blocks of kind 0, with the look for
// 27; rooms, every block, by the room that it is narrowed into.
#![tactic(auto)]

pub mod quick;
pub mod rooms;
pub mod staged;
