// Internal: what the programs behind `blocks` share: their words, the bytes of a file, what is said on standard error, and how a
// program ended. Nothing can be said of the bytes that a system reads and writes: what stands here is to be read, and `tests/program`
// tries it. Read `read_input`, then `ending`, of which `blocks` at the root makes a status.
#![tactic(auto)]

pub mod descriptor;
pub mod ending;
pub mod left_out;

ghost use Rattle.std.specs.Prelude.{◌≡◌, ◌≤◌, length};
ghost use Rattle.file_input.specs.Counts.{IsPrefixLen};

use std::env::{Env, FillError};
use std::fmt::Display;
use std::io::{ErrorKind, Read};
use std::{fmt, io};

// One byte more than a file may have, so that a program can tell that there is one. A buffer's `ensures` gives its length alone.
pub fn file_buffer() -> [u8; 65537]
    ensures { 65537 ≡ length result }
{
    [0; 65537]
}

// As long as any path of the system.
pub fn word_buffer() -> [u8; 4096]
    ensures { 4096 ≡ length result }
{
    [0; 4096]
}

// How many words a program was started with, its own name among them.
pub fn word_count(rt: &impl Env) -> usize {
    let mut space = [0u8; 1];
    for i in 0..usize::MAX {
        if let Err(FillError::NotPresent) = rt.arg(i, &mut space) {
            return i;
        }
    }
    usize::MAX
}

// Word i, put at the start of `space`; an empty one where it is missing or too long.
pub fn word<'a>(rt: &impl Env, i: usize, space: &'a mut [u8]) -> &'a [u8]
    ensures { length result.now ≤ length space.old }
{
    match rt.arg(i, space) {
        Ok(count) => &space[..count],
        Err(_) => &[],
    }
}

// What was read: how many bytes, and whether a read failed.
#[derive(Clone, Copy)]
pub struct Input {
    pub count: usize,
    pub failed: bool,
}

// Reads until `file` is full, the input ends or a read fails. How many reads that takes is not known before: each may give fewer bytes
// than there is room for.
pub fn read_input(input: &mut impl Read, file: &mut [u8]) -> Input
    ensures { IsPrefixLen result.count file.new }
{
    let mut count = 0;
    while count < file.len() {
        match input.read(&mut file[count..]) {
            Ok(0) => break,
            Ok(more) => count += more,
            Err(_) => {
                return Input {
                    count,
                    failed: true,
                };
            }
        }
    }
    Input {
        count,
        failed: false,
    }
}

// A room and how much of it a text takes so far. Text by text it is filled quicker than by a `Cursor`.
#[derive(Drop)]
struct Page<'a> {
    room: &'a mut [u8],
    end: usize,
}

impl fmt::Write for Page<'_> {
    fn write_str(&mut self, text: &str) -> fmt::Result {
        for byte in text.bytes() {
            let Some(place) = self.room.get_mut(self.end) else {
                return Err(fmt::Error);
            };
            *place = byte;
            self.end += 1;
        }
        Ok(())
    }
}

// A text at the start of `room`, so that one write takes it.
fn laid<'a>(room: &'a mut [u8], text: impl Display + Drop) -> io::Result<&'a [u8]> {
    let mut page = Page {
        room: &mut room[..],
        end: 0,
    };
    if fmt::Write::write(&mut page, text).is_err() {
        return Err(io::Error::from(ErrorKind::WriteZero));
    }
    let end = page.end;
    Ok(&room[..end.min(room.len())])
}

// Prints a text of at most 65,536 bytes by one write: a reader who leaves after a part of it is no failure then.
pub fn print_whole(out: &impl Print, text: impl Display + Drop) -> io::Result<()> {
    let mut room = [0u8; 65536];
    out.write_all(laid(&mut room, text)?)
}

// "R number offset", for a refusal in the place of the answer; the caller ends the line.
pub fn say_refused(err: &impl Print, number: u32, offset: usize) -> io::Result<()> {
    print!(err; "R {number} {offset}")
}

// The same as a line.
pub fn say_refusal(err: &impl Print, number: u32, offset: usize) -> io::Result<()> {
    println!(err; "R {number} {offset}")
}
