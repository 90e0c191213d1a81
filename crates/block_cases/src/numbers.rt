// What stands in a block, and what an output holds before a call. Every buffer has room for the largest block.
ghost use Rattle.std.specs.Prelude.{◌≤◌};

use std::array;

// A number at one place, then a number at another, and zeros.
pub fn only(place: usize, number: i16, next: usize, other: i16) -> [i16; 1024] {
    let mut a = [0; 1024];
    if place < 1024 && next < 1024 {
        a[place] = number;
        a[next] = other;
    }
    a
}

// The number at place k of rows of w: the two by turns in each of the first columns and rows, and 0 elsewhere.
fn by_turns(k: usize, w: usize, columns: usize, rows: usize, even: i16, odd: i16) -> i16 {
    if w == 0 {
        return 0;
    }
    let x = k % w;
    let y = k / w;
    if columns <= x || rows <= y {
        return 0;
    }
    if x % 2 == y % 2 { even } else { odd }
}

pub fn filled(w: u32, columns: usize, rows: usize, even: i16, odd: i16) -> [i16; 1024] {
    array::from_fn(|k| by_turns(k, w as usize, columns, rows, even, odd))
}

// What place k of an output holds before a call.
pub fn mark(k: usize) -> i32 {
    if k % 2 == 0 { 1234 } else { -4321 }
}

pub fn marks() -> [i16; 1024] {
    filled(1024, 1024, 1024, 1234, -4321)
}

pub fn widened<const N: usize>(from: [i16; N]) -> [i32; N]
    requires { N ≤ 1024 }
{
    let mut to = [0; N];
    for (wide, narrow) in to.iter_mut().zip(&from) {
        *wide = i32::from(*narrow);
    }
    to
}
