// The reader of a block file: a cursor that moves field by field. Read specs/ first, Field and then Cursor (Read says what the functions
// inside hand back); then the theorems of proofs/: Unique and Found (Shapes, Tests and Whole serve them); then cursor, and field behind it.
#![tactic(auto)]

pub mod cursor;
mod field;

ghost use Rattle.std.specs.Prelude.{◌≡◌};
ghost use Rattle.file_fields.specs.Field.{is_data};

/// Whether a tag is that of coefficients or of residuals.
pub fn is_data(tag: u32) -> bool
    ensures { result ≡ is_data tag }
{
    tag == 2 || tag == 3
}
