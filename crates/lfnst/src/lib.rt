// Internal: LFNST, the low-frequency stage that runs over the corner of a block before columns and rows, in place; it asks for a matrix
// that there is and for a corner in its range, which the call of a transform block tests. Read specs/LowFrequency, then rules (what
// the sides decide), corner (what is read, and in which order), sums (the values), places (where they go) and `stage`. Of
// proofs/, Left and Same have what a caller cites, Fits that no sum leaves 32 bits, and Examples the sizes at which the rule changes.
#![tactic(auto)]

mod corner;
mod places;
pub mod rules;
mod sums;

ghost use Rattle.std.specs.Prelude.{◌≡◌};
ghost use Rattle.lfnst.specs.LowFrequency.{low_at};
ghost use Rattle.lfnst.specs.Work.{GivenStage, Placed, corner_at, side_of};

use crate::corner::read_corner;
use crate::places::{place_16, place_48};
use crate::rules::{is_wide, pairs_of};
use crate::sums::values;

// The first 4 or 8 columns and rows of a block of rows of `width`, as the stage leaves them.
pub fn stage(
    width: u32,
    height: u32,
    index: u32,
    set: u32,
    transposed: bool,
    reach: u32,
    columns: u32,
    rows: u32,
    numbers: &mut [i32],
)
    requires { GivenStage width height index set reach columns rows numbers.old }
    ensures { Placed (side_of width height) (side_of width height) width (low_at width height index set transposed reach (corner_at width columns rows numbers.old)) numbers.old numbers.new }
{
    let w = width as usize;
    let mut corner = [0i32; 16];
    read_corner(w, columns as usize, rows as usize, numbers, &mut corner);
    let mut v = [0i32; 48];
    let wide = is_wide(width, height);
    let pairs = pairs_of(width, height);
    let matrix = (2 * set + index - 1) as usize;
    values(wide, matrix, pairs, reach, &corner, &mut v);
    if wide {
        place_48(transposed, w, &v, numbers);
    } else {
        place_16(transposed, w, &v, numbers);
    }
}
