// Internal: both stages of a transform block with a side of 2, of 16-bit numbers, in place, for calls that were tested. Read specs/Two;
// columns, the stage down columns of two points, and the two columns of a block that is 2 wide; stages, both stages.
#![tactic(auto)]

pub mod columns;
pub mod stages;
