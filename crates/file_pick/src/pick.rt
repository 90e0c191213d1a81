// "names a block".
ghost use Rattle.std.specs.Prelude.{◌≡◌};
ghost use Rattle.file_pick.specs.Pick.{passes, left, picked};

use file_fields::cursor::Cursor;
use file_fields::is_data;

#[tactic(auto, unfolding(crate::specs::Pick::passes))]
fn passes(tag: u32, n: usize) -> bool
    ensures { result ≡ passes tag n }
{
    tag != 0 && (!is_data(tag) || n != 1)
}

#[tactic(auto, unfolding(crate::specs::Pick::left))]
fn left(tag: u32, n: usize) -> usize
    ensures { result ≡ left tag n }
{
    if is_data(tag) { n.saturating_sub(1) } else { n }
}

/// The cursor at the n-th data field of a file, of which the first is 1; where there is none, the cursor at which the reader
/// stops. Its advance and its body are the reader's. Any bytes.
pub fn pick(file: &[u8], n: usize) -> Cursor
    ensures { result ≡ picked file.now n }
{
    let mut left_over = n;
    let mut cursor = Cursor::new();
    // no `for`: each field says where the next one starts
    'fields: loop {
        let advance = cursor.advance(file);
        if !passes(advance.tag, left_over) {
            return cursor;
        }
        left_over = left(advance.tag, left_over);
        cursor = advance.next;
    }
}
