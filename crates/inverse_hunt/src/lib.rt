// Internal: what is looked for in the coefficients of an inverse block before it is worked, for calls that were tested. Read live,
// how much of a block is not zero (`Part` of `layout`); then hunt, the hunt for refusal 8.
#![tactic(auto)]

pub mod hunt;
pub mod live;
