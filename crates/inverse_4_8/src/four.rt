// A block of 4 by 4. Rooms and loops that every size shares would take longer than its products do, so it has code of its own. The
// kind is a literal wherever weights are taken, so that the compiler multiplies by constants: of one that is not known it would
// choose every weight by itself, and here it writes out all lines.
ghost use Rattle.std.specs.Prelude.{◌≡◌, true, ◌≤◌, ◌<◌, length};
ghost use Rattle.meaning.specs.Shape.{is_kind};
ghost use Rattle.meaning.specs.Plan.{plan_of};
ghost use Rattle.meaning.specs.Inverse.{rails, inverse_block};
ghost use Rattle.inverse_stage.specs.Given.{GivenStages};
ghost use Rattle.inverse_4_8.specs.Square.{Square, down_block, along_block};

use crate::rows::rows;
use inverse_stage::settle::settle;
use inverse_stage::shift::last_shift;
use layout::zip::zip;
use meaning::Shape;
use product::{half, lines};
use tables::zipped::zipped_4;

// The first stage: down the columns the inputs of a line are weights and its weights are the block's rows, zipped.
fn down(kind: u32, c: &[i16], e: &mut [i32; 16])
    requires { (is_kind kind ≡ true) × ((length c.now ≡ 16) × (length e.old ≡ 16)) }
    ensures { e.new ≡ down_block kind 4 4 c.now }
{
    let mut z = [0i16; 16];
    zip(c, 4, 2, 4, &mut z);
    if kind == 1 {
        let t = zipped_4(1, false);
        lines(2, 8, &t, 2, 8, &z, 4, 4, 64, 7, e);
    } else if kind == 2 {
        let t = zipped_4(2, false);
        lines(2, 8, &t, 2, 8, &z, 4, 4, 64, 7, e);
    } else {
        let t = zipped_4(0, false);
        lines(2, 8, &t, 2, 8, &z, 4, 4, 64, 7, e);
    }
}

// The second stage, along the rows of middle values.
fn along(kind: u32, n: usize, m: &[i16; 16], last: u32, r: &mut [i32])
    requires { (is_kind kind ≡ true) × (((0 < last) × (last ≤ 20)) × ((length m.now ≡ 16) × ((length r.old ≡ 16) × (n ≡ 4)))) }
    ensures { r.new ≡ along_block kind 4 4 m.now last }
{
    let half = half(last);
    if kind == 1 {
        let t = zipped_4(1, false);
        lines(2, 8, m, 4, 2, &t, 4, 4, half, last, r);
    } else if kind == 2 {
        let t = zipped_4(2, false);
        lines(2, 8, m, 4, 2, &t, 4, 4, half, last, r);
    } else {
        rows(m, n, half, last, r);
    }
}

// Hands back the rail count. All of the block is worked, whatever is kept: it is zero outside of its kept part.
pub fn four(shape: Shape, c: &[i16], r: &mut [i32]) -> u32
    requires { GivenStages shape shape.height shape.width c.now r.old × Square 4 shape }
    ensures { (result ≡ rails (plan_of shape) c.now) × (r.new ≡ inverse_block (plan_of shape) c.now) }
{
    let mut e = [0i32; 16];
    let mut m = [0i16; 16];
    down(shape.vertical, c, &mut e);
    let rails = settle(&e, &mut m);
    along(
        shape.horizontal,
        shape.width as usize,
        &m,
        last_shift(shape),
        r,
    );
    rails
}

pub fn is_four(shape: Shape) -> bool
    ensures { result ≡ true → Square 4 shape }
{
    shape.width == 4 && shape.height == 4
}
