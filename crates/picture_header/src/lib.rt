// The header of a graymap, read byte by byte. Read specs/Header; then the theorems of proofs/: Variants, what headers give, one to a line,
// and Unique (Tests and Reading serve these functions and `picture`); then this file, and byte, what one byte more makes of a header.
#![tactic(auto)]

mod byte;

ghost use Rattle.std.specs.Prelude.{◌≡◌};
ghost use Rattle.picture_header.specs.Header.{behind_p5, is_p5, header_of, is_picture};

/// What was read: the part that was begun last (0 for P5, 1 the width, 2 the height, 3 the maximum value, 4 where this is no
/// header), whether that part goes on, whether a comment does, and the three numbers.
#[derive(Clone, Copy)]
pub struct Header {
    pub part: u32,
    pub going: bool,
    pub comment: bool,
    pub width: u32,
    pub height: u32,
    pub maximum: u32,
}

/// A header, and the place behind what was read of it.
#[derive(Clone, Copy)]
pub struct FoundHeader {
    pub header: Header,
    pub start: usize,
}

fn behind_p5() -> Header
    ensures { result ≡ behind_p5 }
{
    Header {
        part: 0,
        going: true,
        comment: false,
        width: 0,
        height: 0,
        maximum: 0,
    }
}

fn is_p5(file: &[u8]) -> bool
    ensures { result ≡ is_p5 file.now }
{
    file.len() >= 2 && file[0] == b'P' && file[1] == b'5'
}

/// Reads the header of a file. Any bytes.
pub fn header_of(file: &[u8]) -> FoundHeader
    ensures { result ≡ header_of file.now }
{
    if !is_p5(file) {
        let header = byte::no_header();
        return FoundHeader { header, start: 0 };
    }
    let mut header = behind_p5();
    for start in 2..file.len() {
        if byte::ended(header) {
            return FoundHeader { header, start };
        }
        header = byte::with_byte(header, file[start]);
    }
    FoundHeader {
        header,
        start: file.len(),
    }
}

/// Whether a header is that of a picture: whole, with the maximum value 65535 and sizes that 1 and 2 would not refuse.
#[tactic(auto, unfolding(crate::specs::Header::is_picture))]
pub fn is_picture(header: Header) -> bool
    ensures { result ≡ is_picture header }
{
    header.part == 3
        && !header.going
        && header.maximum == 65535
        && meaning::is_size(header.width)
        && meaning::is_size(header.height)
}
