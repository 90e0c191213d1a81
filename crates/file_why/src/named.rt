// "A support engineer names a block and a place and wants the parts": a block of a file, named by its count.
ghost use Rattle.std.specs.Prelude.{◌≡◌, length};
ghost use Rattle.why.specs.Why.{why_outcome, no_parts};
ghost use Rattle.file_numbers.specs.Numbers.{numbers};
ghost use Rattle.file_fields.specs.Body.{Fits};
ghost use Rattle.file_why.specs.Named.{named_outcome};

use file_numbers::bytes::read_numbers;
use file_pick::pick::pick;
use meaning::Shape;
use why::Parts;

/// What is handed back: the tag of the field that was named, or 0 where there is none; its offset, or that of the field at which the
/// reader stopped; the depth of an inverse block, or 0; and its parts, with the reader's number where it stopped.
#[derive(Clone, Copy)]
pub struct Reasons {
    pub tag: u32,
    pub offset: usize,
    pub depth: u32,
    pub parts: Parts,
}

// A buffer for the coefficients of a block.
fn narrow_zeros() -> [i16; 1024]
    ensures { length result ≡ 1024 }
{
    [0; 1024]
}

// "Tag 02: coefficients": the parts of a residual of the inverse.
fn body_parts(shape: Shape, body: &[u8], place: u32) -> Parts
    requires { Fits shape body.now }
    ensures { result ≡ why_outcome shape (numbers body.now) place }
{
    let n = body.len() / 2;
    let mut coefficients = narrow_zeros();
    read_numbers(body, &mut coefficients[..n]);
    why::parts(shape, &coefficients[..n], place)
}

// No parts.
fn none(number: u32) -> Parts
    ensures { result ≡ no_parts number 0 }
{
    Parts {
        number,
        place: 0,
        exact: 0,
        middle_roundings: 0,
        clippings: 0,
        last_rounding: 0,
    }
}

/// The parts of the residual at a place of a block: the n-th data field of a file, of which the first is 1. Any bytes.
pub fn named(file: &[u8], n: usize, place: u32) -> Reasons
    ensures { result ≡ named_outcome file.now n place }
{
    let cursor = pick(file, n);
    let advance = cursor.advance(file);
    let shape = cursor.shape;
    if advance.tag == 2 {
        let parts = body_parts(shape, cursor.body(file), place);
        return Reasons {
            tag: 2,
            offset: cursor.at,
            depth: shape.depth,
            parts,
        };
    }
    Reasons {
        tag: advance.tag,
        offset: cursor.at,
        depth: 0,
        parts: none(advance.number),
    }
}
