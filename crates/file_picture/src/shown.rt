// "People want to look at a residual block in a picture viewer": a block of a file, named by its count.
ghost use Rattle.std.specs.Prelude.{◌≡◌, List, ℕ, pos, length};
ghost use Rattle.algebra.specs.Lists.{at};
ghost use Rattle.file_numbers.specs.Numbers.{numbers};
ghost use Rattle.file_run.specs.Run.{blank};
ghost use Rattle.file_fields.specs.Body.{Fits};
ghost use Rattle.file_picture.specs.Shown.{refused_at, drawn_at, inverse_shown, shown_outcome};

use file_numbers::bytes::{read_numbers, read_wide_numbers};
use file_pick::pick::pick;
use meaning::Shape;

/// What is handed back: the number of the refusal or 0, the offset of the field, and how long the picture is: 0 where there is
/// none, and beside number 0 where the file has no such block.
#[derive(Clone, Copy)]
pub struct View {
    pub number: u32,
    pub offset: usize,
    pub bytes: u32,
}

fn refused(number: u32, offset: usize) -> View
    ensures { result ≡ refused_at number offset }
{
    View {
        number,
        offset,
        bytes: 0,
    }
}

// Draws residuals that stand in a block of a shape.
fn drawn(shape: Shape, residuals: &[i32], offset: usize, picture: &mut [u8]) -> View
    ensures { ◌≡◌ {A = View × List ℕ} (result, picture.new) (drawn_at shape residuals.now offset picture.old) }
{
    let written = picture::write::write(shape.width, shape.height, residuals, picture);
    View {
        number: written.number,
        offset,
        bytes: written.bytes,
    }
}

// Runs the inverse, and draws its residuals.
fn inverse_drawn(
    shape: Shape,
    coefficients: &[i16],
    residuals: &mut [i32],
    offset: usize,
    picture: &mut [u8],
) -> View
    requires { residuals.old ≡ blank shape }
    ensures { ◌≡◌ {A = View × List ℕ} (result, picture.new) (inverse_shown shape coefficients.now offset picture.old) }
{
    let answer = block::inverse(shape, coefficients, residuals);
    if answer.number != 0 {
        return refused(answer.number, offset);
    }
    drawn(shape, residuals, offset, picture)
}

// A buffer for the coefficients of a block.
fn narrow_zeros() -> [i16; 1024]
    ensures { length result ≡ 1024 }
{
    [0; 1024]
}

// A buffer for residuals.
fn wide_zeros() -> [i32; 1024]
    ensures { (length result ≡ 1024) × ((k : ℕ) → at result k ≡ pos 0) }
{
    [0; 1024]
}

// "Tag 02: coefficients": the residuals of the inverse.
fn inverse_shown(shape: Shape, body: &[u8], offset: usize, picture: &mut [u8]) -> View
    requires { Fits shape body.now }
    ensures { ◌≡◌ {A = View × List ℕ} (result, picture.new) (inverse_shown shape (numbers body.now) offset picture.old) }
{
    let n = body.len() / 2;
    let mut coefficients = narrow_zeros();
    read_numbers(body, &mut coefficients[..n]);
    let mut residuals = wide_zeros();
    inverse_drawn(
        shape,
        &coefficients[..n],
        &mut residuals[..n],
        offset,
        picture,
    )
}

// "Tag 03: residuals": those given.
fn forward_shown(shape: Shape, body: &[u8], offset: usize, picture: &mut [u8]) -> View
    requires { Fits shape body.now }
    ensures { ◌≡◌ {A = View × List ℕ} (result, picture.new) (drawn_at shape (numbers body.now) offset picture.old) }
{
    let n = body.len() / 2;
    let mut residuals = wide_zeros();
    read_wide_numbers(body, &mut residuals[..n]);
    drawn(shape, &residuals[..n], offset, picture)
}

/// Puts the picture of a block at the start of `picture`: that of the n-th data field of a file, of which the first is 1. Any
/// bytes and lengths.
pub fn shown(file: &[u8], n: usize, picture: &mut [u8]) -> View
    ensures { ◌≡◌ {A = View × List ℕ} (result, picture.new) (shown_outcome file.now n picture.old) }
{
    let cursor = pick(file, n);
    let advance = cursor.advance(file);
    let offset = cursor.at;
    let shape = cursor.shape;
    match advance.tag {
        2 => inverse_shown(shape, cursor.body(file), offset, picture),
        3 => forward_shown(shape, cursor.body(file), offset, picture),
        _ => refused(advance.number, offset),
    }
}
