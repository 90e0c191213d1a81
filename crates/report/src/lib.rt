// A report in whole numbers: totals over blocks that are run forward and back. Read specs/: Totals (what is kept and what a block adds,
// over one block of `forward_and_back`), Given (what is said of any list of blocks); of proofs/, Report, Limit, Order and Unique; then totals.
#![tactic(auto)]

pub mod totals;
