// A descriptor by its number. std reaches one by its path alone, which opens it anew: what it is open on is written at its end.
use crate::laid;
use std::fs::{File, OpenOptions};
use std::io::{ErrorKind, Write};
use std::rt::Files;
use std::{fs, io};

// Not one that is open for reading alone, and to which its own number would not write.
fn is_written(rt: &impl Files, path: &str) -> bool {
    match fs::symlink_metadata(rt, path) {
        Ok(link) => !link.permissions().readonly(),
        Err(_) => false,
    }
}

fn append(rt: &impl Files, path: &str, words: &[u8]) -> io::Result<()> {
    let mut to = OpenOptions::new().append(true).open(rt, path)?;
    to.write_all(words)
}

// Where it is closed, nothing is written.
pub fn write(rt: &impl Files, path: &str, words: &[u8]) {
    if is_written(rt, path) {
        let _ = append(rt, path, words);
    }
}

// For reading, from the start of what it is open on.
pub fn open<R: Files>(rt: &R, number: usize) -> io::Result<R::File> {
    let mut room = [0u8; 40];
    match std::str::from_utf8(laid(&mut room, format_args!("/proc/self/fd/{number}"))?) {
        Ok(path) => File::open(rt, path),
        Err(_) => Err(io::Error::from(ErrorKind::InvalidFilename)),
    }
}
