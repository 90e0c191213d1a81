// Internal: what the stages of every forward block share. Read shift, how far each stage shifts; place, numbers in 16 bits and zeros
// beyond them.
#![tactic(auto)]

pub mod place;
pub mod shift;
