// Both stages of an inverse block, over the part of it that is not zero. Down the columns the inputs of a line are weights and its
// weights are the block's rows, zipped: output y of every column is one line. Along a row the inputs are its middle values. The
// first stage writes rounded sums where the residuals will stand; each line of residuals is then written into its own stretch.
// What lines read stands in arrays of the function that names their number of pairs: what is lent might overlap the output, as far
// as the compiler knows, and it then takes one number at a time (docs/DECISIONS.md). So the two rooms have a function each.
ghost use Rattle.std.specs.Prelude.{◌≡◌, ◌*◌};
ghost use Rattle.meaning.specs.Plan.{plan_of};
ghost use Rattle.meaning.specs.Inverse.{rails, inverse_block};
ghost use Rattle.inverse_stage.specs.Given.{GivenStages, Room};

use inverse_4_8::eight::{eight, is_eight};
use inverse_4_8::four::{four, is_four};
use inverse_stage::settle::settle;
use inverse_stage::shift::last_shift;
use layout::small::is_small;
use layout::zip::zip;
use meaning::Shape;
use product::{half, lines};
use stage_weights::{put_128, put_1024};

// Where every list that a stage needs has room in 128 numbers: buffers have to be zeroed, and those of `large` would take as long
// as a small block does.
pub fn small(shape: Shape, rows: usize, columns: usize, c: &[i16], r: &mut [i32]) -> u32
    requires { GivenStages shape rows columns c.now r.old × Room 128 (plan_of shape) rows columns }
    ensures { (result ≡ rails (plan_of shape) c.now) × (r.new ≡ inverse_block (plan_of shape) c.now) }
{
    let w = shape.width as usize;
    let h = shape.height as usize;
    let elements = h * columns;
    let wide = 2 * columns;
    let tall = 2 * h;
    let full = 2 * w;
    let mut z = [0i16; 128];
    let mut t = [0i16; 128];
    zip(c, w, rows / 2, columns, &mut z);
    put_128(shape.vertical, false, h, &mut t);
    if rows <= 4 {
        lines(2, wide, &t, 2, tall, &z, columns, h, 64, 7, r);
    } else {
        lines(4, wide, &t, 2, tall, &z, columns, h, 64, 7, r);
    }
    let rails = settle(&r[0..elements], &mut z[0..elements]);
    let last = last_shift(shape);
    let half = half(last);
    put_128(shape.horizontal, false, w, &mut t);
    if columns <= 4 {
        lines(2, full, &z, columns, 2, &t, w, h, half, last, r);
    } else {
        lines(4, full, &z, columns, 2, &t, w, h, half, last, r);
    }
    rails
}

pub fn large(shape: Shape, rows: usize, columns: usize, c: &[i16], r: &mut [i32]) -> u32
    requires { GivenStages shape rows columns c.now r.old }
    ensures { (result ≡ rails (plan_of shape) c.now) × (r.new ≡ inverse_block (plan_of shape) c.now) }
{
    let w = shape.width as usize;
    let h = shape.height as usize;
    let elements = h * columns;
    let wide = 2 * columns;
    let tall = 2 * h;
    let full = 2 * w;
    let mut z = [0i16; 1024];
    let mut t = [0i16; 1024];
    zip(c, w, rows / 2, columns, &mut z);
    put_1024(shape.vertical, false, h, &mut t);
    if rows <= 4 {
        lines(2, wide, &t, 2, tall, &z, columns, h, 64, 7, r);
    } else if rows <= 8 {
        lines(4, wide, &t, 2, tall, &z, columns, h, 64, 7, r);
    } else if rows <= 16 {
        lines(8, wide, &t, 2, tall, &z, columns, h, 64, 7, r);
    } else {
        lines(16, wide, &t, 2, tall, &z, columns, h, 64, 7, r);
    }
    let rails = settle(&r[0..elements], &mut z[0..elements]);
    let last = last_shift(shape);
    let half = half(last);
    put_1024(shape.horizontal, false, w, &mut t);
    if columns <= 4 {
        lines(2, full, &z, columns, 2, &t, w, h, half, last, r);
    } else if columns <= 8 {
        lines(4, full, &z, columns, 2, &t, w, h, half, last, r);
    } else if columns <= 16 {
        lines(8, full, &z, columns, 2, &t, w, h, half, last, r);
    } else {
        lines(16, full, &z, columns, 2, &t, w, h, half, last, r);
    }
    rails
}

// Hands back the rail count. Neither `eight`, `small` nor `large` is called from one place alone: the compiler would move it into its
// caller then, and lose the pairs (docs/DECISIONS.md).
pub fn stages(shape: Shape, rows: usize, columns: usize, c: &[i16], r: &mut [i32]) -> u32
    requires { GivenStages shape rows columns c.now r.old }
    ensures { (result ≡ rails (plan_of shape) c.now) × (r.new ≡ inverse_block (plan_of shape) c.now) }
{
    let w = shape.width as usize;
    let h = shape.height as usize;
    if is_four(shape) {
        return four(shape, c, r);
    }
    if is_eight(shape, c.len()) {
        if shape.horizontal == 1 {
            return eight(shape, 1, c, r);
        }
        return eight(shape, shape.horizontal, c, r);
    }
    if is_small(shape) {
        return small(shape, h, w, c, r);
    }
    if 128 < h * rows || 128 < h * columns || 128 < w * columns {
        return large(shape, rows, columns, c, r);
    }
    small(shape, rows, columns, c, r)
}
