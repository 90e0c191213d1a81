// Writes the picture of a block of the block file on standard input to standard output. The block is named by the first
// argument: its count among the data fields, the first being 1. Where there is no picture, its ending says why, or a line on standard
// error which refusal.
#![tactic(auto)]

ghost use Rattle.std.specs.Prelude.{◌≡◌, length};

use file_input::ending::{Failure, tell, written};
use file_input::{file_buffer, read_input, say_refusal, word, word_buffer};
use plain_text::number_of;

// As long as the largest picture.
fn picture_buffer() -> [u8; 2063]
    ensures { 2063 ≡ length result }
{
    [0; 2063]
}

fn show(out: &impl Print, err: &impl Print, file: &[u8], n: usize) -> Result<(), Failure> {
    let mut picture = picture_buffer();
    let view = file_picture::shown::shown(file, n, &mut picture);
    if view.number != 0 {
        return Err(Failure::refused(say_refusal(err, view.number, view.offset)));
    }
    match picture.get(..view.bytes as usize) {
        None | Some([]) => Err(Failure::Because("there is no such block")),
        Some(drawn) => written(out.write_all(drawn)),
    }
}

fn answer(rt: &HostRuntime) -> Result<(), Failure> {
    let mut space = word_buffer();
    let block = word(rt, 1, &mut space);
    let mut file = file_buffer();
    let read = read_input(&mut rt.stdin(), &mut file);
    if read.failed {
        return Err(Failure::Unread(0));
    }
    match number_of(block) {
        Some(n) => show(rt, &rt.stderr(), &file[..read.count], n),
        None => Err(Failure::Because("the block is no number")),
    }
}

fn main(rt: HostRuntime) {
    tell(&rt, answer(&rt));
}
