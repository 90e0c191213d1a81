// Runs stored files, and writes for each its name on a line and then what it prints. The files and the text are made by
// harness/src/bin/file_cases.rs, from the independent model.
#![tactic(auto)]

use file_input::left_out::LeftOut;
use file_input::{word, word_buffer, word_count};
use std::env::Env;
use std::fs::File;
use std::io;
use std::io::{Cursor, ErrorKind, Write};
use std::rt::Files;

// std's names are text.
fn open<R: Files>(rt: &R, path: &[u8]) -> io::Result<R::File> {
    match std::str::from_utf8(path) {
        Ok(text) => File::open(rt, text),
        Err(_) => Err(io::Error::from(ErrorKind::InvalidFilename)),
    }
}

// An error's words, without its number, which std puts behind them.
fn words(text: &[u8]) -> &str {
    match std::str::from_utf8(text) {
        Ok(all) => match all.split_once(" (os error ") {
            Some((words, _)) => words,
            None => all,
        },
        Err(_) => "",
    }
}

fn say_unopened(err: &impl Print, path: &[u8], error: io::Error) -> io::Result<()> {
    let mut room = [0u8; 128];
    let mut text = Cursor::new(&mut room[..]);
    let _ = write!(text, "{error}");
    let end = text.position() as usize;
    Print::write_all(err, path)?;
    println!(err; ": {}", words(&room[..end.min(128)]))
}

// What cannot be written is left out, and the next case runs.
fn case<R: Env + Files + Print>(rt: &R, err: &impl Print, i: usize) {
    let mut space = word_buffer();
    let path = word(rt, i, &mut space);
    let _ = Print::write_all(rt, path);
    let _ = rt.println(":");
    match open(rt, path) {
        Ok(mut file) => {
            let _ = file_program::answer(&mut file, rt);
        }
        Err(error) => {
            let _ = say_unopened(&LeftOut(err), path, error);
        }
    }
}

fn main(rt: HostRuntime) {
    for i in 1..word_count(&rt) {
        case(&rt, &rt.stderr(), i);
    }
}
