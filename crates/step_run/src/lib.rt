// The runner of a list of steps, over any numbers and any buffers: `run::run`. Read specs/Parts beside it; what a run is to give
// stands in `steps`. `arith` has the four operations, exact in 64 bits, `step` one step, `run` the whole.
#![tactic(auto)]

mod arith;
pub mod run;
mod step;
