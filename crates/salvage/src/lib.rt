// What can be saved of a broken block file. Read specs/ first, Pieces and then Outcomes; then the theorems of proofs/: Cover,
// Undamaged, Again, Fuel, Effort, Unique and Numbers; then saving, and search behind it.
#![tactic(auto)]

pub mod saving;
mod search;
