// Prints totals of the tag 03 blocks of block files, each run forward and back: `blocks_report FILE... PROGRESS`. A block that is
// refused is counted; a field that is refused ends its file, and a line on standard error says so. With 4 for PROGRESS, how many
// files are done is written to that descriptor. std opens a file whose name is UTF-8 text; with a d behind, as -d or 4d, another one is
// open on the descriptor 10 above its word's number. Nothing is proved here but that it ends: `tests/report` holds what is printed to
// the harness's model.
#![tactic(auto)]

mod files;
mod table;

use file_input::ending::{Failure, tell, written};
use file_input::{print_whole, word, word_buffer, word_count};
use files::{End, Reading};
use std::env::Env;
use table::Report;

// Whether a word asks for progress.
fn wanted(rt: &impl Env, i: usize) -> bool {
    let mut space = word_buffer();
    word(rt, i, &mut space).first() == Some(&b'4')
}

// Whether a word says that files without a name in text are open.
fn lent(rt: &impl Env, i: usize) -> bool {
    let mut space = word_buffer();
    word(rt, i, &mut space).get(1) == Some(&b'd')
}

fn report(out: &impl Print, totals: [u64; 578], end: End) -> Result<(), Failure> {
    written(print_whole(out, Report(totals)))?;
    match end {
        End::Whole => Ok(()),
        End::Refused => Err(Failure::Refused),
    }
}

// A file that could not be read is told before the line about progress goes, and all else after it.
fn answer(rt: &HostRuntime, last: usize) {
    let mut run = Reading {
        rt,
        err: &rt.stderr(),
        totals: report::totals::empty(),
        progress: wanted(rt, last),
        lent: lent(rt, last),
    };
    match run.take_all(&mut rt.stdin(), last) {
        Ok(end) => {
            run.clear();
            tell(rt, report(rt, run.totals, end));
        }
        Err(failure) => {
            tell(rt, Err(failure));
            run.clear();
        }
    }
}

fn main(rt: HostRuntime) {
    if let Some(last) = word_count(&rt).checked_sub(1) {
        answer(&rt, last);
    }
}
