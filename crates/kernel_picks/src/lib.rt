// Internal: which kernel works a strip of columns (`down`) or a group of rows (`along`) of a block. Read specs/Picks, which kernels
// there are; then down and along.
#![tactic(auto)]

pub mod along;
pub mod down;
