// A block of a block file as a picture. Read specs/Shown, then proofs/Unique, then shown.
#![tactic(auto)]

pub mod shown;
