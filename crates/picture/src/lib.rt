// Residual blocks as pictures: binary graymaps of the Netpbm family. What is read as a header stands in `picture_header`, what a
// sample is in `picture_samples`. Read specs/ first: Picture (what is written), Outcomes; then the theorems of proofs/: RoundTrip,
// Unique; then write and read.
#![tactic(auto)]

pub mod read;
pub mod write;
