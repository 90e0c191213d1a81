// Internal: inverse blocks of 4 by 4 and of 8 by 8, for which rooms that every size shares would take longer than the work does. Read
// specs/Square, then rows, four and eight.
#![tactic(auto)]

pub mod eight;
pub mod four;
pub mod rows;
