// "Write it as a binary graymap".
ghost use Rattle.std.specs.Prelude.{◌≡◌, true, List, ℕ, ◌+◌, ◌≤◌, length};
ghost use Rattle.meaning.specs.Shape.{is_size};
ghost use Rattle.meaning.specs.Refusal.{refusal_number};
ghost use Rattle.file_text.specs.Text.{decimal};
ghost use Rattle.file_text.specs.Wrote.{Wrote};
ghost use Rattle.picture.specs.Picture.{number, header_text};
ghost use Rattle.picture.specs.Outcomes.{write_outcome};

use file_text::text::{put, put_decimal};
use meaning::{Refusal, is_size};
use picture_samples::put::{any_beyond, put_samples};

/// What writing hands back: the number of the refusal or 0, and how many bytes the file has.
#[repr(C)]
#[derive(Clone, Copy)]
pub struct Written {
    pub number: u32,
    pub bytes: u32,
}

fn digits_of(n: u32) -> usize
    requires { is_size n ≡ true }
    ensures { (result ≡ length (decimal n)) × (result ≤ 2) }
{
    if n < 10 { 1 } else { 2 }
}

// A number, and the byte behind it.
fn put_number(n: u32, end: u8, file: &mut [u8], at: usize) -> usize
    requires { at + 11 ≤ length file.old }
    ensures { Wrote (number n end) 11 at file.old file.new result }
{
    let next = put_decimal(n, file, at);
    put(end, file, next)
}

// "P5, then w and h, then 65535: lines ended by byte 0A, one space inside".
fn put_header(width: u32, height: u32, file: &mut [u8]) -> usize
    requires { 36 ≤ length file.old }
    ensures { Wrote (header_text width height) 36 0 file.old file.new result }
{
    let p = put(b'P', file, 0);
    let name = put(b'5', file, p);
    let first = put(b'\n', file, name);
    let wide = put_number(width, b' ', file, first);
    let high = put_number(height, b'\n', file, wide);
    put_number(65535, b'\n', file, high)
}

fn refused(refusal: Refusal) -> Written
    ensures { result ≡ record { number = refusal_number refusal; bytes = 0 } }
{
    Written {
        number: refusal.number(),
        bytes: 0,
    }
}

/// Writes a block of residuals, which stand row by row, as a picture at the start of `file`. Any numbers and lengths.
pub fn write(width: u32, height: u32, residuals: &[i32], file: &mut [u8]) -> Written
    ensures { ◌≡◌ {A = Written × List ℕ} (result, file.new) (write_outcome width height residuals.now file.old) }
{
    if !is_size(width) {
        return refused(Refusal::Width);
    }
    if !is_size(height) {
        return refused(Refusal::Height);
    }
    let count = width as usize * height as usize;
    if residuals.len() != count {
        return refused(Refusal::Input);
    }
    if any_beyond(residuals) {
        return refused(Refusal::Residual);
    }
    let bytes = digits_of(width) + digits_of(height) + 11 + 2 * count;
    if file.len() < bytes {
        return refused(Refusal::Output);
    }
    let start = put_header(width, height, file);
    let end = put_samples(residuals, file, start);
    Written {
        number: 0,
        bytes: end as u32,
    }
}
