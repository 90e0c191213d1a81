// Internal: the matrices of LFNST as definitions, and the line by a stored one. The numbers as data are `lfnst_16` and `lfnst_48`. Read
// specs/Lfnst; of proofs/, Sizes has how large a sum of the weights can be. crates/lfnst_tables/make writes specs/Lfnst4, specs/Lfnst8 and
// the two crates from matrices.txt.
#![tactic(auto)]

pub mod lines;
