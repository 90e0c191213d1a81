// Internal: what the stages of every inverse block of 16-bit numbers share, whatever rooms they have. Read specs/Given, what they are
// given; specs/Settled with settle, what is done to the sums between them; shift, how far the last one shifts; proofs/Work, what their
// lines are.
#![tactic(auto)]

pub mod settle;
pub mod shift;
