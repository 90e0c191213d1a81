// Writes what can be saved of the block file on standard input to standard output, and each dropped stretch to standard error: a
// line each, its offset and its length. Where nothing is written, its ending says why, or a line on standard error which refusal.
#![tactic(auto)]

ghost use Rattle.std.specs.Prelude.{◌≡◌, length};

use file_input::ending::{Failure, tell, written};
use file_input::{file_buffer, read_input, say_refusal};
use std::io;

// 1,024 places.
fn list_buffer() -> [u32; 2048]
    ensures { 2048 ≡ length result }
{
    [0; 2048]
}

// An offset and a length by turns.
fn say_dropped(err: &impl Print, list: &[u32]) -> io::Result<()> {
    let (stretches, _) = list.as_chunks::<2>();
    for [offset, length] in stretches {
        println!(err; "{offset} {length}")?;
    }
    Ok(())
}

fn save(out: &impl Print, err: &impl Print, file: &[u8]) -> Result<(), Failure> {
    let mut kept = file_buffer();
    let mut list = list_buffer();
    let saved = salvage::saving::salvage(file, &mut kept, &mut list);
    if saved.number != 0 {
        // The offset is that of the file's start: nothing is written, whichever field is the first too many.
        return Err(Failure::refused(say_refusal(err, saved.number, 0)));
    }
    let kept = kept.get(..saved.bytes as usize).unwrap_or(&[]);
    let dropped = list.get(..saved.stretches as usize * 2).unwrap_or(&[]);
    written(out.write_all(kept))?;
    say_dropped(err, dropped).map_err(|_| Failure::Unsaid)
}

fn answer(rt: &HostRuntime) -> Result<(), Failure> {
    let mut file = file_buffer();
    let read = read_input(&mut rt.stdin(), &mut file);
    if read.failed {
        return Err(Failure::Unread(0));
    }
    save(rt, &rt.stderr(), &file[..read.count])
}

fn main(rt: HostRuntime) {
    tell(&rt, answer(&rt));
}
