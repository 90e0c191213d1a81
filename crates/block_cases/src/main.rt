// Runs a table of block calls and prints a line for each; the file stdout has the lines that the model gives
// (harness/src/bin/block_cases.rs). A line: what stands in the block; the direction, the shape, the lengths of input and
// output; number, place and rail count; how many numbers of the output the call changed, the output's sum, and its sum
// with each number times its place from 1; and an output of sixteen numbers whole. A block by value: both kinds and the
// depth, number, place and rail count and the sixteen numbers, then the same of the lent form.
#![tactic(auto)]

mod by_value;
mod call;
mod cases;
mod few;
mod numbers;
mod print;
mod worst;

use call::Direction;
use file_input::left_out::LeftOut;
use std::io;

fn all(out: &impl Print) -> io::Result<()> {
    few::items(out)?;
    few::refusals(out, Direction::Inverse)?;
    few::outside(out)?;
    few::refusals(out, Direction::Forward)?;
    few::too_large(out)?;
    worst::inverse(out)?;
    worst::forward(out)?;
    by_value::all(out)
}

// What cannot be written is left out, and what comes behind it is tried.
fn main(rt: HostRuntime) {
    let _ = all(&LeftOut(&rt));
}
