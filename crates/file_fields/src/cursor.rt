// The reader: "moves a place through the file one field at a time, and hands back the body as that stretch of the caller's
// own bytes".
ghost use Rattle.std.specs.Prelude.{◌≡◌, List, ℕ};
ghost use Rattle.file_fields.specs.Cursor.{file_start, advance_of, body_of};

use crate::field::found;
use meaning::Shape;

/// A place in a file, and the shape that holds there. Any numbers.
#[derive(Clone, Copy)]
pub struct Cursor {
    pub at: usize,
    pub shape: Shape,
}

/// What an advance hands back: the number of the refusal or 0, the tag of the field that was read or 0, and the next cursor.
#[derive(Clone, Copy)]
pub struct Advance {
    pub number: u32,
    pub tag: u32,
    pub next: Cursor,
}

impl Cursor {
    /// The start of a file, before any shape.
    pub fn new() -> Cursor
        ensures { result ≡ file_start }
    {
        let shape = Shape::new(0, 0, 0, 0, 0);
        Cursor { at: 0, shape }
    }

    /// Reads the field at the cursor's place.
    pub fn advance(self, file: &[u8]) -> Advance
        ensures { result ≡ advance_of file.now self }
    {
        let (number, tag, next) = match found(file, self) {
            Ok(Some(field)) => (0, field.tag, field.next),
            Ok(None) => (0, 0, self),
            Err(refusal) => (refusal.number(), 0, self),
        };
        Advance { number, tag, next }
    }

    /// The body of the field at the cursor's place: part of `file` itself. Called on the cursor before its advance.
    pub fn body(self, file: &[u8]) -> &[u8]
        ensures { ◌≡◌ {A = (ℕ × ℕ) × List ℕ} (result.ref_ptr, result.now) (body_of file.entry.ref_ptr file.now self) }
    {
        match found(file, self) {
            Ok(Some(field)) => &file[field.start..field.start + field.bytes],
            _ => &file[..0],
        }
    }
}
