// The new file and the list of dropped stretches.
ghost use Rattle.std.specs.Prelude.{◌≡◌, List, ℕ, ◌+◌, ◌≤◌, length};
ghost use Rattle.algebra.specs.Lists.{over};
ghost use Rattle.meaning.specs.Refusal.{refusal_number};
ghost use Rattle.file_text.specs.Wrote.{Wrote};
ghost use Rattle.salvage.specs.Pieces.{kept_of, written, dropped_of, dropped};
ghost use Rattle.salvage.specs.Outcomes.{salvage_outcome};

use crate::search::{Piece, piece_at};
use file_fields::cursor::Cursor;
use file_text::text::put;
use meaning::Refusal;

/// The number of the refusal or 0, how many bytes the new file has, and how many stretches were dropped.
#[repr(C)]
#[derive(Clone, Copy)]
pub struct Saved {
    pub number: u32,
    pub bytes: u32,
    pub stretches: u32,
}

// How many numbers a piece gives to the list, added to n.
fn counted(piece: Piece, n: usize) -> usize
    requires { n ≤ 131072 }
    ensures { result ≡ n + length (dropped_of piece) }
{
    if piece.kept { n } else { n + 2 }
}

fn count(file: &[u8]) -> usize
    requires { length file.now ≤ 65536 }
    ensures { result ≡ length (dropped file.now) }
{
    let mut cursor = Cursor::new();
    let mut n = 0;
    // no `for`: each piece says where the next one starts
    while cursor.at < file.len() {
        let found = piece_at(file, cursor);
        n = counted(found.piece, n);
        cursor = found.next;
    }
    n
}

fn copy(part: &[u8], out: &mut [u8], at: usize) -> usize
    requires { at + length part.now ≤ length out.old }
    ensures { Wrote part.now (length part.now) at out.old out.new result }
{
    let mut p = at;
    for &byte in part {
        p = put(byte, out, p);
    }
    p
}

fn keep(file: &[u8], piece: Piece, out: &mut [u8], at: usize) -> usize
    requires { (piece.offset + piece.bytes ≤ length file.now) × (at + length (kept_of file.now piece) ≤ length out.old) }
    ensures { Wrote (kept_of file.now piece) (length (kept_of file.now piece)) at out.old out.new result }
{
    if !piece.kept {
        return at;
    }
    let start = piece.offset;
    let end = start + piece.bytes;
    copy(&file[start..end], out, at)
}

// Puts the new file at the start of a buffer that has room for the old one, and returns its length.
fn put_kept(file: &[u8], out: &mut [u8]) -> usize
    requires { length file.now ≤ length out.old }
    ensures { (result ≡ length (written file.now)) × (out.new ≡ over (written file.now) out.old) }
{
    let mut cursor = Cursor::new();
    let mut p = 0;
    // no `for`: each piece says where the next one starts
    while cursor.at < file.len() {
        let found = piece_at(file, cursor);
        p = keep(file, found.piece, out, p);
        cursor = found.next;
    }
    p
}

fn list_stretch(piece: Piece, list: &mut [u32], at: usize) -> usize
    requires { (piece.offset + piece.bytes ≤ 65536) × (at + length (dropped_of piece) ≤ length list.old) }
    ensures { Wrote (dropped_of piece) 2 at list.old list.new result }
{
    if piece.kept {
        return at;
    }
    let next = at + 1;
    list[at] = piece.offset as u32;
    list[next] = piece.bytes as u32;
    next + 1
}

// Puts the list at the start of a buffer that has room for it, and returns its length.
fn put_dropped(file: &[u8], list: &mut [u32]) -> usize
    requires { (length file.now ≤ 65536) × (length (dropped file.now) ≤ length list.old) }
    ensures { (result ≡ length (dropped file.now)) × (list.new ≡ over (dropped file.now) list.old) }
{
    let mut cursor = Cursor::new();
    let mut p = 0;
    // no `for`: each piece says where the next one starts
    while cursor.at < file.len() {
        let found = piece_at(file, cursor);
        p = list_stretch(found.piece, list, p);
        cursor = found.next;
    }
    p
}

fn refused(refusal: Refusal) -> Saved
    ensures { result ≡ record { number = refusal_number refusal; bytes = 0; stretches = 0 } }
{
    Saved {
        number: refusal.number(),
        bytes: 0,
        stretches: 0,
    }
}

/// Writes what can be saved of a block file to the start of `out`, and each dropped stretch, its offset and its length, to the
/// start of `list`. Any bytes, and buffers of any length.
pub fn salvage(file: &[u8], out: &mut [u8], list: &mut [u32]) -> Saved
    ensures { ◌≡◌ {A = Saved × List ℕ × List ℕ} (result, out.new, list.new) (salvage_outcome file.now out.old list.old) }
{
    if file.len() > 65536 {
        return refused(Refusal::FileTooLong);
    }
    if out.len() < file.len() {
        return refused(Refusal::Output);
    }
    if list.len() < 2048 {
        return refused(Refusal::Output);
    }
    if count(file) > 2048 {
        return refused(Refusal::TooManyDropped);
    }
    let bytes = put_kept(file, out);
    let numbers = put_dropped(file, list);
    Saved {
        number: 0,
        bytes: bytes as u32,
        stretches: (numbers / 2) as u32,
    }
}
