// The whole run of a block file: what it prints, field by field, and the refusal that ends it, as one function. Read specs/ first:
// Run, what a file prints (Does serves the functions inside that do a turn); then the theorems of proofs/: Unique, Fuel, Counted,
// Printed, Numbers; then run.
#![tactic(auto)]

pub mod run;
