// The pieces of a file, one by one, and the search behind a place where reading stops.
ghost use Rattle.std.specs.Prelude.{◌≡◌, ◌≤◌, ◌<◌, length};
ghost use Rattle.file_fields.specs.Cursor.{advance_of};
ghost use Rattle.salvage.specs.Pieces.{data_follows, goes_on, next_after, onward, piece_at};

use file_fields::cursor::{Advance, Cursor};
use file_fields::is_data;

// A field that was read, or a stretch that is dropped.
#[derive(Clone, Copy)]
pub struct Piece {
    pub offset: usize,
    pub bytes: usize,
    pub kept: bool,
}

// A piece, and the cursor behind it.
#[derive(Clone, Copy)]
pub struct Found {
    pub piece: Piece,
    pub next: Cursor,
}

fn data_follows(file: &[u8], cursor: Cursor) -> bool
    ensures { result ≡ data_follows file.now cursor }
{
    let field = cursor.advance(file);
    is_data(field.tag) || field.tag == 4 && is_data(field.next.advance(file).tag)
}

fn goes_on(file: &[u8], at: usize) -> bool
    ensures { result ≡ goes_on file.now at }
{
    let here = Cursor {
        at,
        ..Cursor::new()
    };
    let first = here.advance(file);
    first.tag == 1 && data_follows(file, first.next)
}

fn next_after(file: &[u8], at: usize) -> usize
    requires { at < length file.now }
    ensures { result ≡ next_after file.now at }
{
    for i in at + 1..file.len() {
        if goes_on(file, i) {
            return i;
        }
    }
    file.len()
}

fn onward(file: &[u8], cursor: Cursor, advance: Advance) -> Cursor
    requires { (cursor.at < length file.now) × (advance ≡ advance_of file.now cursor) }
    ensures { (result ≡ onward file.now cursor) × ((cursor.at < result.at) × (result.at ≤ length file.now)) }
{
    if advance.number == 0 {
        return advance.next;
    }
    Cursor {
        at: next_after(file, cursor.at),
        ..cursor
    }
}

pub fn piece_at(file: &[u8], cursor: Cursor) -> Found
    requires { cursor.at < length file.now }
    ensures { (result.piece ≡ piece_at file.now cursor) × ((result.next ≡ onward file.now cursor) × ((cursor.at < result.next.at) × (result.next.at ≤ length file.now))) }
{
    let advance = cursor.advance(file);
    let next = onward(file, cursor, advance);
    let offset = cursor.at;
    let piece = Piece {
        offset,
        bytes: next.at - offset,
        kept: advance.number == 0,
    };
    Found { piece, next }
}
