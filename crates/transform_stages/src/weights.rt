// The weights of a line, in one room: of any size in one of 2048, of up to 16 points in one of 256. `s` is a room on the way, which
// callers lend: two of them would stand on the stack.
ghost use Rattle.std.specs.Prelude.{◌≡◌, true, ◌≤◌, length};
ghost use Rattle.meaning.specs.Shape.{is_size, has_line};
ghost use Rattle.transform_stages.specs.Work.{LineWeights};

use crate::table::{put_64, zipped_2};
use stage_weights::{few, front, put_1024};
use tables::zipped::zipped_16;

// Of 4 to 32 points, by way of the room that these have.
fn middling(kind: u32, n: usize, s: &mut [i16; 1024], u: &mut [i16; 2048])
    requires { (is_size n ≡ true) × ((length s.old ≡ 1024) × (length u.old ≡ 2048)) }
    ensures { (length s.new ≡ 1024) × ((length u.new ≡ 2048) × LineWeights kind n u.new) }
{
    put_1024(kind, false, n, s);
    front(s, 1024, u);
}

pub fn weights(kind: u32, n: usize, s: &mut [i16; 1024], u: &mut [i16; 2048])
    requires { (has_line kind n ≡ true) × ((length s.old ≡ 1024) × (length u.old ≡ 2048)) }
    ensures { (length s.new ≡ 1024) × ((length u.new ≡ 2048) × LineWeights kind n u.new) }
{
    if n == 64 {
        put_64(u);
    } else if n == 2 {
        front(&zipped_2(), 4, u);
    } else {
        middling(kind, n, s, u);
    }
}

// Of up to 16 points.
pub fn small_weights(kind: u32, n: usize, u: &mut [i16; 256])
    requires { (has_line kind n ≡ true) × ((n ≤ 16) × (length u.old ≡ 256)) }
    ensures { (length u.new ≡ 256) × LineWeights kind n u.new }
{
    if n == 2 {
        front(&zipped_2(), 4, u);
    } else if n == 16 {
        front(&zipped_16(kind, false), 256, u);
    } else {
        few(kind, false, n, u);
    }
}
