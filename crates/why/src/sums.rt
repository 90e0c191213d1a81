// The sums over the kept columns, each carried through the horizontal weights.
ghost use Rattle.std.specs.Prelude.{◌≡◌, ◌<◌};
ghost use Rattle.meaning.specs.Plan.{long_plan};
ghost use Rattle.why.specs.Work.{Clean, sums_of};

use crate::arith::{between, carry, clipping, rounding};
use long_stages::rules::reach_of;
use long_stages::sums::dot;
use meaning::Shape;
use stage_weights::put_1024;

// Three of the parts, and the row sum, of which the last rounding is made.
#[derive(Clone, Copy)]
pub struct Sums {
    pub exact: i64,
    pub middle_roundings: i64,
    pub clippings: i64,
    pub row: i64,
}

// Of the residual in column x of row y: e is the sum of kept column i.
pub fn carried(shape: Shape, extended: bool, c: &[i32], x: usize, y: usize) -> Sums
    requires { Clean extended shape c.now × ((x < shape.width) × (y < shape.height)) }
    ensures { result ≡ sums_of (long_plan extended shape) c.now x y }
{
    let w = shape.width as usize;
    let h = shape.height as usize;
    let columns = shape.columns as usize;
    let reach = reach_of(extended, shape.depth);
    let mut down = [0i16; 1024];
    let mut along = [0i16; 1024];
    put_1024(shape.vertical, false, h, &mut down);
    put_1024(shape.horizontal, false, w, &mut along);
    let mut exact = 0;
    let mut middle_roundings = 0;
    let mut clippings = 0;
    let mut row = 0;
    let mut i = 0;
    while i < columns {
        let e = dot(&down, 2 * y, 2 * h, c, i, w, h / 2);
        let weight = along[2 * x + i / 2 * (2 * w) + i % 2];
        exact = carry(exact, weight, e);
        middle_roundings = carry(middle_roundings, weight, rounding(e));
        clippings = carry(clippings, weight, clipping(e, reach));
        row = carry(row, weight, between(e, reach));
        i += 1;
    }
    Sums {
        exact,
        middle_roundings,
        clippings,
        row,
    }
}
