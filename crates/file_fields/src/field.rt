// What stands at a place of the file.
ghost use Rattle.std.specs.Prelude.{◌≡◌, cond, eqb, ◌+◌, ◌≤◌, ◌<◌, length};
ghost use Rattle.meaning.specs.Refusal.{number_in};
ghost use Rattle.file_fields.specs.Field.{is_none, byte_at, length_at, shape_at, header_number, field_number, shape_behind, field_at};
ghost use Rattle.file_fields.specs.Read.{field_in};
ghost use Rattle.file_fields.specs.Cursor.{found_at};

use crate::cursor::Cursor;
use meaning::{Refusal, Shape};

// A field that was read: its tag, where its body starts and how many bytes it has, and the cursor behind it.
#[derive(Clone, Copy)]
pub struct ReadField {
    pub tag: u32,
    pub start: usize,
    pub bytes: usize,
    pub next: Cursor,
}

fn length_at(file: &[u8], at: usize) -> usize
    requires { at + 3 ≤ length file.now }
    ensures { (result ≡ length_at file.now at) × (result < 65536) }
{
    usize::from(u16::from_be_bytes([file[at + 1], file[at + 2]]))
}

fn shape_at(file: &[u8], start: usize) -> Shape
    requires { start + 5 ≤ length file.now }
    ensures { result ≡ shape_at file.now start }
{
    Shape::new(
        u32::from(file[start]),
        u32::from(file[start + 1]),
        u32::from(file[start + 2]),
        u32::from(file[start + 3]),
        u32::from(file[start + 4]),
    )
}

// What the header decides of a shape.
fn shape_refusal(bytes: usize) -> Result<(), Refusal>
    ensures { number_in result ≡ cond (eqb bytes 5) 0 12 }
{
    if bytes != 5 {
        return Err(Refusal::FieldLength);
    }
    Ok(())
}

// "a held shape that 1 to 5 would refuse counts as none".
fn held(shape: Shape) -> Result<(), Refusal>
    ensures { number_in result ≡ cond (is_none shape) 13 0 }
{
    if shape.refusal().is_err() {
        return Err(Refusal::NoShape);
    }
    Ok(())
}

// What the header decides of a field of kept numbers.
fn kept_refusal(bytes: usize, shape: Shape) -> Result<(), Refusal>
    ensures { number_in result ≡ header_number 4 bytes shape }
{
    if bytes != 2 {
        return Err(Refusal::FieldLength);
    }
    held(shape)
}

// What the header decides of a data field: of tag 03 as of tag 02.
fn data_refusal(bytes: usize, shape: Shape) -> Result<(), Refusal>
    requires { bytes < 65536 }
    ensures { number_in result ≡ header_number 2 bytes shape }
{
    held(shape)?;
    if bytes as u32 != 2 * (shape.width * shape.height) {
        return Err(Refusal::Input);
    }
    Ok(())
}

fn header_refusal(tag: u8, bytes: usize, shape: Shape) -> Result<(), Refusal>
    requires { bytes < 65536 }
    ensures { number_in result ≡ header_number tag bytes shape }
{
    match tag {
        1 => shape_refusal(bytes),
        2 | 3 => data_refusal(bytes, shape),
        4 => kept_refusal(bytes, shape),
        _ => Err(Refusal::UnknownTag),
    }
}

// The shape that holds behind a field whose body is there.
fn shape_behind(file: &[u8], at: usize, shape: Shape) -> Shape
    requires { (at < length file.now) × ((byte_at file.now at ≡ 1 → at + 8 ≤ length file.now) × (byte_at file.now at ≡ 4 → at + 5 ≤ length file.now)) }
    ensures { result ≡ shape_behind file.now at shape }
{
    match file[at] {
        1 => shape_at(file, at + 3),
        4 => shape.keeping(u32::from(file[at + 3]), u32::from(file[at + 4])),
        _ => shape,
    }
}

// What the header decides is told before a body that is cut short.
fn field_refusal(file: &[u8], at: usize, shape: Shape) -> Result<(), Refusal>
    requires { (at < length file.now) × (length file.now ≤ 65536) }
    ensures { number_in result ≡ field_number file.now at shape }
{
    if file.len() < at + 3 {
        return Err(Refusal::CutShort);
    }
    let bytes = length_at(file, at);
    header_refusal(file[at], bytes, shape)?;
    let end = at + 3 + bytes;
    if file.len() < end {
        return Err(Refusal::CutShort);
    }
    shape_behind(file, at, shape).refusal()
}

fn field_at(file: &[u8], at: usize, shape: Shape) -> Result<Option<ReadField>, Refusal>
    requires { length file.now ≤ 65536 }
    ensures { field_in at shape result ≡ field_at file.now at shape }
{
    if at >= file.len() {
        return Ok(None);
    }
    field_refusal(file, at, shape)?;
    let bytes = length_at(file, at);
    let start = at + 3;
    let behind = shape_behind(file, at, shape);
    let next = Cursor {
        at: start + bytes,
        shape: behind,
    };
    Ok(Some(ReadField {
        tag: u32::from(file[at]),
        start,
        bytes,
        next,
    }))
}

// What a cursor finds, or none at the end of the file: 14 comes first, at any place.
pub fn found(file: &[u8], cursor: Cursor) -> Result<Option<ReadField>, Refusal>
    ensures { field_in cursor.at cursor.shape result ≡ found_at file.now cursor }
{
    if file.len() > 65536 {
        return Err(Refusal::FileTooLong);
    }
    field_at(file, cursor.at, cursor.shape)
}
