// Internal: the work behind `block::inverse` and the blocks of `transform_block`, for calls that tests and a hunt have passed, so with a
// `requires`. Read `inverse_stage` first, then stages, then larger.
#![tactic(auto)]

pub mod larger;
pub mod stages;
