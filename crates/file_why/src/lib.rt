// The parts of a residual of a block of a block file. Read specs/Named, then proofs/Unique, then named.
#![tactic(auto)]

pub mod named;
