// The mathematics that every contract and proof stands on: integers, finite sums, shifts, clipping, lists, refusals.
// There is no code here. Read specs/ for the definitions (Sum, Shift, Clip, Equal, Lists, First, Refusals), then proofs/ for
// their laws, one file for each idea, in the order of proofs/Lib; Unique is the law that makes a contract's outcome the only one.
#![tactic(auto)]
