// Prints the parts of a residual of the block file on standard input: `blocks_why BLOCK PLACE`. The block is named by its count among the
// data fields, the first being 1; the place is column + row * width. Where there are no parts, its ending says why, or a line on
// standard error which refusal.
// Nothing is proved of the text but that it ends: `tests/why` holds what is printed to the harness's model.
#![tactic(auto)]

mod text;

use file_input::ending::{Failure, tell, written};
use file_input::{file_buffer, read_input, say_refusal, say_refused, word, word_buffer};
use file_why::named::named;
use meaning::Refusal;
use plain_text::number_of;
use std::io;
use text::Text;
use why::Parts;

// A refusal that has to do with a place of the block: the one that was asked for, as it was written, or else that of a coefficient.
fn say_place(err: &impl Print, parts: Parts, offset: usize, asked: &[u8]) -> io::Result<()> {
    say_refused(err, parts.number, offset)?;
    if parts.number != Refusal::Place.number() {
        return println!(err; " place {}", parts.place);
    }
    err.print(" place ")?;
    err.write_all(asked)?;
    err.println("")
}

fn show(
    out: &impl Print,
    err: &impl Print,
    file: &[u8],
    n: usize,
    place: u32,
    asked: &[u8],
) -> Result<(), Failure> {
    let reasons = named(file, n, place);
    let parts = reasons.parts;
    let offset = reasons.offset;
    let depth = reasons.depth;
    match (reasons.tag, parts.number) {
        (3, _) => Err(Failure::Because("the block is a forward, which has no such parts")),
        (2, 0) => written(out.print(Text { depth, parts })),
        (2, _) => Err(Failure::refused(say_place(err, parts, offset, asked))),
        (_, 0) => Err(Failure::Because("there is no such block")),
        (_, number) => Err(Failure::refused(say_refusal(err, number, offset))),
    }
}

fn answer(rt: &HostRuntime) -> Result<(), Failure> {
    let mut block = word_buffer();
    let block = word(rt, 1, &mut block);
    let mut place = word_buffer();
    let asked = word(rt, 2, &mut place);
    let mut file = file_buffer();
    let read = read_input(&mut rt.stdin(), &mut file);
    if read.failed {
        return Err(Failure::Unread(0));
    }
    let Some(n) = number_of(block) else {
        return Err(Failure::Because("the block is no number"));
    };
    let Some(place) = number_of(asked) else {
        return Err(Failure::Because("the place is no number"));
    };
    let place = place as u32;
    show(rt, &rt.stderr(), &file[..read.count], n, place, asked)
}

fn main(rt: HostRuntime) {
    tell(&rt, answer(&rt));
}
