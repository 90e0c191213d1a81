// Internal: the work behind `block::forward`, for calls that its tests and the hunt have passed, so with a `requires`. Nothing
// but `block` depends on it. Read `forward_stage` first; specs/Stage, what a stage is given and what it leaves; then stages,
// both of them.
#![tactic(auto)]

pub mod stages;
