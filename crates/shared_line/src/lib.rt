// Internal: the folded lines of 4, 16 and 32 points, kinds 1 and 2, in both directions. Read forward and inverse; rows and class_sums
// name the rows of each class, and the steps and their law stand in `shared_steps`. Each step is called with the numbers of its size
// written out, so that the compiler has them: it unrolls the steps and puts the weights into its code, and no table is copied.
// 8 points share nothing, and these lines do not know them.
#![tactic(auto)]

mod class_sums;
pub mod forward;
pub mod inverse;
mod rows;
