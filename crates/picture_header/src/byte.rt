// A byte more of a header.
ghost use Rattle.std.specs.Prelude.{◌≡◌, true, false, ◌-◌};
ghost use Rattle.picture_header.specs.Header.{ends_line, is_space, is_digit, none, ended, white, commented, more, with_digit, part_of, digit, plain, with_byte};

use crate::Header;

fn ends_line(b: u8) -> bool
    ensures { result ≡ ends_line b }
{
    b == b'\n' || b == b'\r'
}

fn is_space(b: u8) -> bool
    ensures { result ≡ is_space b }
{
    b == b' ' || b == b'\t' || ends_line(b)
}

fn is_digit(b: u8) -> bool
    ensures { result ≡ is_digit b }
{
    b'0' <= b && b <= b'9'
}

pub fn no_header() -> Header
    ensures { result ≡ none }
{
    Header {
        part: 4,
        going: false,
        comment: false,
        width: 0,
        height: 0,
        maximum: 0,
    }
}

pub fn ended(header: Header) -> bool
    ensures { result ≡ ended header }
{
    header.part >= 3 && !header.going
}

// A digit more of a number.
fn more(n: u32, b: u8) -> u32
    requires { is_digit b ≡ true }
    ensures { result ≡ more n (b - 48) }
{
    // no sum wraps: 10 times a number above 6553 is more than 65536 as it is
    if n > 6553 {
        return 65536;
    }
    (n * 10 + u32::from(b - b'0')).min(65536)
}

// White space, or the end of a comment's line.
fn white(header: Header) -> Header
    ensures { result ≡ white header }
{
    Header {
        going: false,
        comment: false,
        ..header
    }
}

fn commented(header: Header) -> Header
    ensures { result ≡ commented header }
{
    Header {
        comment: true,
        ..header
    }
}

// The number `n` of part `mine` where a digit of part `part` is read.
fn with_digit(mine: u32, part: u32, n: u32, b: u8) -> u32
    requires { is_digit b ≡ true }
    ensures { result ≡ with_digit mine part n (b - 48) }
{
    if mine == part { more(n, b) } else { n }
}

// The part that a digit belongs to.
fn part_of(header: Header) -> u32
    requires { ended header ≡ false }
    ensures { result ≡ part_of header }
{
    if header.going {
        header.part
    } else {
        header.part + 1
    }
}

fn digit(header: Header, b: u8) -> Header
    requires { (ended header ≡ false) × (is_digit b ≡ true) }
    ensures { result ≡ digit header (b - 48) }
{
    let part = part_of(header);
    if part == 0 {
        return no_header();
    }
    let width = with_digit(1, part, header.width, b);
    let height = with_digit(2, part, header.height, b);
    let maximum = with_digit(3, part, header.maximum, b);
    Header {
        part,
        going: true,
        comment: false,
        width,
        height,
        maximum,
    }
}

// A byte that no comment holds.
fn plain(header: Header, b: u8) -> Header
    requires { ended header ≡ false }
    ensures { result ≡ plain header b }
{
    if b == b'#' {
        return commented(header);
    }
    if is_space(b) {
        return white(header);
    }
    if is_digit(b) {
        return digit(header, b);
    }
    no_header()
}

// A byte more of a header that has not ended.
pub fn with_byte(header: Header, b: u8) -> Header
    requires { ended header ≡ false }
    ensures { result ≡ with_byte header b }
{
    if header.comment {
        if ends_line(b) {
            return white(header);
        }
        return header;
    }
    plain(header, b)
}
