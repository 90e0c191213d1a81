// Internal: what is looked for in the residuals of a forward block before it is worked, for calls that were tested: the hunt for
// refusal 9. Nothing but `block` depends on it.
#![tactic(auto)]

pub mod hunt;
