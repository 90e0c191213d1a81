// Prints the forward DST-VII of 4, 16 or 32 points as a list of steps: `blocks_steps N`. A line is an input's cell, a step, or an
// output's cell; the last line counts. Nothing is proved of the text but that it ends: tests/step_lists holds what is printed to
// the lists that the harness makes.
#![tactic(auto)]

mod text;

use file_input::ending::{Failure, tell, written};
use file_input::{print_whole, word, word_buffer, word_count};
use plain_text::number_of;
use std::io;
use step_lists::list::list;
use text::Listing;

// The list of n points; both buffers are as long as its steps and its output cells.
fn show(out: &impl Print, n: u32, steps: &mut [i32], outs: &mut [i32]) -> io::Result<()> {
    let cells = list(n, steps, outs).cells;
    print_whole(out, Listing { cells, steps, outs })
}

fn show_named(out: &impl Print, word: &[u8]) -> Result<(), Failure> {
    let Some(n) = number_of(word) else {
        return Err(Failure::Because("N is no number"));
    };
    match n {
        4 => written(show(out, 4, &mut [0; 72], &mut [0; 4])),
        16 => written(show(out, 16, &mut [0; 1108], &mut [0; 16])),
        32 => written(show(out, 32, &mut [0; 5208], &mut [0; 32])),
        _ => Err(Failure::Because("there are lists of 4, 16 and 32 points alone")),
    }
}

fn answer(rt: &HostRuntime) -> Result<(), Failure> {
    for i in 1..word_count(rt) {
        let mut space = word_buffer();
        show_named(rt, word(rt, i, &mut space))?;
    }
    Ok(())
}

fn main(rt: HostRuntime) {
    tell(&rt, answer(&rt));
}
