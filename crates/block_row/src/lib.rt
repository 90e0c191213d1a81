// A row of blocks in one call: up to 64 inverse blocks, each on its own stretch of one input and one output. Read specs/ first,
// Numbers and Row, then of proofs/ OneByOne (the calls made one by one, over specs/Calls), NearExact (demand 3 of each block) and
// Unique; then row.
#![tactic(auto)]

mod numbers;
pub mod row;
