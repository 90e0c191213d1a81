// Internal: residuals as the samples of a picture, and back, for calls that were tested, so with a `requires`. Nothing but `picture`
// depends on it. Read specs/Samples, then put and read; of proofs/ Samples, which has that a sample gives its residual again.
#![tactic(auto)]

pub mod put;
pub mod read;
