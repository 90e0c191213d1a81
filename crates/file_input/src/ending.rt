// How a program ended: a line on a descriptor of its own, of which `blocks` makes the status. What a program says on standard error has
// names in it: here no name and no byte of a file can stand. Where the descriptor is closed, nothing is told.
ghost use Rattle.std.specs.Prelude.{◌≡◌, Ok, Err, MatchResult};
ghost use Rattle.file_input.specs.declared.ending.Failure.TheVariants.{Refused, Unwritten, Unsaid};

use crate::{descriptor, laid};
use std::rt::Files;
use std::{fmt, io};

const ENDING: &str = "/proc/self/fd/3";

/// Why a program ended with another status than 0.
#[derive(Clone, Copy)]
pub enum Failure {
    /// Status 1: the refusal stands in the answer or was said.
    Refused,
    /// Status 2: a word names the input, which could not be read. The first word is 1; 0 is standard input where no word names it.
    Unread(usize),
    /// Status 2: the answer could not be written.
    Unwritten,
    /// Status 2: standard error could not be written.
    Unsaid,
    /// Status 2, and why.
    Because(&'static str),
}

impl Failure {
    /// Of a refusal, by whether it could be said.
    pub fn refused(said: io::Result<()>) -> Failure
        ensures { MatchResult said (λ done. result ≡ Refused) (λ error. result ≡ Unsaid) }
    {
        match said {
            Ok(()) => Failure::Refused,
            Err(_) => Failure::Unsaid,
        }
    }
}

impl fmt::Display for Failure {
    fn fmt<W: fmt::Write>(&self, f: &mut fmt::Formatter<W>) -> fmt::Result {
        match *self {
            Failure::Refused => f.write_str("1"),
            Failure::Unread(word) => write!(f, "unread {word}"),
            Failure::Unwritten => f.write_str("2 the answer could not be written"),
            Failure::Unsaid => f.write_str("2 standard error could not be written"),
            Failure::Because(why) => write!(f, "2 {why}"),
        }
    }
}

/// Of an answer, by whether it could be written.
pub fn written(answer: io::Result<()>) -> Result<(), Failure>
    ensures { MatchResult answer (λ done. result ≡ Ok done) (λ error. result ≡ Err Unwritten) }
{
    answer.map_err(|_| Failure::Unwritten)
}

/// Status 0 where all went well. A line is told by one write: a reader who has a part of it has all.
pub fn tell(rt: &impl Files, ended: Result<(), Failure>) {
    let mut room = [0u8; 128];
    match ended {
        Ok(()) => descriptor::write(rt, ENDING, b"0\n"),
        Err(failure) => {
            if let Ok(line) = laid(&mut room, format_args!("{failure}\n")) {
                descriptor::write(rt, ENDING, line);
            }
        }
    }
}
