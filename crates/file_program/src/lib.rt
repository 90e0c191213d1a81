// Internal: from a reader to an answer, for the programs that run a block file. Nothing can be said of the bytes that a
// system reads and writes: what `answer` does with them, and `tell`, which tells how it ended, is to be read, and `tests/program` tries it.
#![tactic(auto)]

ghost use Rattle.std.specs.Prelude.{◌≡◌, length};

pub use file_input::ending::tell;
use file_input::ending::{Failure, written};
use file_input::{file_buffer, read_input};
use std::io::Read;

// A buffer's `ensures` gives its length alone.
fn text_buffer() -> [u8; 524288]
    ensures { 524288 ≡ length result }
{
    [0; 524288]
}

// Runs the block file that stands on `input`, and writes what it prints to `output`. A file of which a part could not be read
// prints nothing.
pub fn answer(input: &mut impl Read, output: &impl Print) -> Result<(), Failure> {
    let mut file = file_buffer();
    let read = read_input(input, &mut file);
    if read.failed {
        return Err(Failure::Unread(0));
    }
    let mut text = text_buffer();
    let done = file_run::run::run(&file[..read.count], &mut text);
    written(output.write_all(&text[..done.length]))?;
    if done.number != 0 {
        return Err(Failure::Refused);
    }
    Ok(())
}
