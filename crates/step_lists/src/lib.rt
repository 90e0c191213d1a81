// The lists of steps of the forward DST-VII at 4, 16 and 32 points as data: `list::list` hands one out as numbers, and
// `forward::forward` runs it. Read specs/Listed; `stored` has the numbers.
#![tactic(auto)]

pub mod forward;
pub mod list;
mod stored;

/// What is told of a list: the number of the refusal or 0, its inputs, its cells, its steps and its output cells.
#[repr(C)]
#[derive(Clone, Copy)]
pub struct Listed {
    pub number: u32,
    pub inputs: u32,
    pub cells: u32,
    pub steps: u32,
    pub outs: u32,
}
