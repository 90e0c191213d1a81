// Internal: the tests of a transform block's fields, each over the numbers that it looks at. What they mean is said where the block is,
// in transform_block/specs/TransformBlock.antt.
#![tactic(auto)]

ghost use Rattle.std.specs.Prelude.{◌≡◌, true, not, cond, ◌&&◌, ◌||◌, eqb, leb};
ghost use Rattle.meaning.specs.Shape.{is_size, is_depth_to};

use meaning::is_size;

pub fn is_side(n: u32) -> bool
    ensures { result ≡ (eqb n 1 || (eqb n 2 || (is_size n || eqb n 64))) }
{
    matches!(n, 1 | 2 | 64) || is_size(n)
}

// "not both 1".
pub fn is_pair(width: u32, height: u32) -> bool
    ensures { result ≡ ((eqb height 1 || (eqb height 2 || (is_size height || eqb height 64))) && not (eqb width 1 && eqb height 1)) }
{
    is_side(height) && !(width == 1 && height == 1)
}

// "a kind other than 0 where the side is 2 or 64".
pub fn no_line(kind: u32, n: u32) -> bool
    ensures { result ≡ ((eqb n 2 || eqb n 64) && not (eqb kind 0)) }
{
    matches!(n, 2 | 64) && kind != 0
}

pub fn is_depth(d: u32) -> bool
    ensures { result ≡ is_depth_to 16 d }
{
    8 <= d && d <= 16
}

// "at most 4" columns and rows with LFNST.
pub fn is_corner(lfnst: u32, columns: u32, rows: u32) -> bool
    ensures { result ≡ cond (not (eqb lfnst 0)) (leb columns 4 && leb rows 4) true }
{
    lfnst == 0 || (columns <= 4 && rows <= 4)
}

// Sides of 4 or more, and kind 0.
pub fn takes_low(width: u32, height: u32, horizontal: u32, vertical: u32) -> bool
    ensures { result ≡ ((leb 4 width && leb 4 height) && (eqb horizontal 0 && eqb vertical 0)) }
{
    4 <= width && 4 <= height && horizontal == 0 && vertical == 0
}

// The index, the set and the flag of LFNST.
pub fn known_low(lfnst: u32, set: u32, transposed: u32) -> bool
    ensures { result ≡ (leb lfnst 2 && (leb set 3 && leb transposed 1)) }
{
    lfnst <= 2 && set <= 3 && transposed <= 1
}
