// Internal: the inverse of blocks of kind 0 both ways, of sides 4 to 32, by the kernels of their columns and rows; for calls that were
// tested. Read specs/Stages; down, the first stage, strip by strip; along, the second, group of rows by group of rows; touched, whether
// a middle value stands at an end of its range; stages, both; alone, a block with one coefficient; worked, which of these a
// block takes; kernels, which blocks are worked here.
#![tactic(auto)]

pub mod alone;
pub mod along;
pub mod down;
pub mod kernels;
pub mod stages;
pub mod touched;
pub mod worked;
