// The files, one after the other.
ghost use Rattle.std.specs.Prelude.{◌≡◌, length};

use file_fields::cursor::Cursor;
use file_input::ending::Failure;
use file_input::{descriptor, file_buffer, read_input, say_refused, word, word_buffer};
use file_numbers::bytes::read_numbers;
use meaning::{Refusal, Shape};
use std::env::Env;
use std::fs::File;
use std::io;
use std::io::{ErrorKind, Read};
use std::rt::Files;

/// How a file was read: to its end, or to a refusal, which was said.
#[derive(Clone, Copy, PartialEq, Eq)]
pub enum End {
    Whole,
    Refused,
}

// Where a refusal ended the reading of a file: its number, and the offset of the field.
#[derive(Clone, Copy)]
struct Stop {
    number: u32,
    offset: usize,
}

fn residual_buffer() -> [i16; 1024]
    ensures { length result ≡ 1024 }
{
    [0; 1024]
}

// Adds the block of a tag 03 field, and gives the number of its refusal or 0.
fn add_block(totals: &mut [u64; 578], shape: Shape, body: &[u8]) -> u32 {
    let n = body.len() / 2;
    // The body is that of a block.
    if n > 1024 || body.len() != n + n {
        return 0;
    }
    let mut residuals = residual_buffer();
    let residuals = &mut residuals[..n];
    read_numbers(body, residuals);
    report::totals::add(totals, shape, residuals).number
}

// Adds the blocks of a file, up to the first field that is refused, or to the block that is one too many. A file has fewer than
// 65,537 fields.
fn add_file(totals: &mut [u64; 578], file: &[u8]) -> Result<(), Stop> {
    let full = Refusal::TotalsFull.number();
    let mut cursor = Cursor::new();
    for _field in 0..65537 {
        let advance = cursor.advance(file);
        let number = advance.number;
        let offset = cursor.at;
        if number != 0 {
            return Err(Stop { number, offset });
        }
        match advance.tag {
            0 => return Ok(()),
            3 => {
                if add_block(totals, cursor.shape, cursor.body(file)) == full {
                    return Err(Stop {
                        number: full,
                        offset,
                    });
                }
            }
            _ => (),
        }
        cursor = advance.next;
    }
    Ok(())
}

fn say_stop(err: &impl Print, stop: Stop, path: &[u8]) -> io::Result<()> {
    say_refused(err, stop.number, stop.offset)?;
    err.print(" ")?;
    err.write_all(path)?;
    err.println("")
}

// Opens the file that word i names.
fn open<R: Files>(rt: &R, path: &[u8], i: usize, lent: bool) -> io::Result<R::File> {
    match std::str::from_utf8(path) {
        Ok(name) => File::open(rt, name),
        Err(_) if lent => descriptor::open(rt, i.saturating_add(10)),
        Err(_) => Err(io::Error::from(ErrorKind::InvalidFilename)),
    }
}

const PROGRESS: &str = "/proc/self/fd/4";

/// A run of the program: what it reads by, where it says what was refused, and the totals so far.
#[derive(Drop)]
pub struct Reading<'a, R, E> {
    pub rt: &'a R,
    pub err: &'a E,
    pub totals: [u64; 578],
    /// Whether how many files are done is to be written.
    pub progress: bool,
    /// Whether files without a name in text are open.
    pub lent: bool,
}

impl<R: Env + Files, E: Print> Reading<'_, R, E> {
    // What a reader gives, which word i names.
    fn take_input(&mut self, input: &mut impl Read, i: usize, path: &[u8]) -> Result<End, Failure> {
        let mut file = file_buffer();
        let read = read_input(input, &mut file);
        if read.failed {
            return Err(Failure::Unread(i));
        }
        let Err(stop) = add_file(&mut self.totals, &file[..read.count]) else {
            return Ok(End::Whole);
        };
        // Where the line about progress was.
        self.clear();
        match say_stop(self.err, stop, path) {
            Ok(()) => Ok(End::Refused),
            Err(_) => Err(Failure::Unsaid),
        }
    }

    // Takes the file that word i names, - being standard input.
    fn take(&mut self, input: &mut impl Read, i: usize) -> Result<End, Failure> {
        let mut space = word_buffer();
        let path = word(self.rt, i, &mut space);
        if path == b"-".as_slice() {
            return self.take_input(input, i, path);
        }
        match open(self.rt, path, i, self.lent) {
            Ok(mut file) => self.take_input(&mut file, i, path),
            Err(_) => Err(Failure::Unread(i)),
        }
    }

    /// All files, up to one that cannot be read; whether a refusal ended one of them.
    pub fn take_all(&mut self, input: &mut impl Read, last: usize) -> Result<End, Failure> {
        let mut end = End::Whole;
        for i in 1..last {
            if self.take(input, i)? == End::Refused {
                end = End::Refused;
            }
            self.tell(i, last);
        }
        Ok(end)
    }

    /// Takes away the line about progress.
    pub fn clear(&self) {
        if self.progress {
            descriptor::write(self.rt, PROGRESS, b"\r\x1b[K");
        }
    }

    // How many files are done, of those before the last word; nothing stays of it in the end.
    fn tell(&self, done: usize, last: usize) {
        self.clear();
        let all = last.saturating_sub(1);
        if !self.progress || done >= all {
            return;
        }
        let (mut first, mut second) = (itoa::Buffer::new(), itoa::Buffer::new());
        for words in [first.format(done), " of ", second.format(all), " files"] {
            descriptor::write(self.rt, PROGRESS, words.as_bytes());
        }
    }
}
