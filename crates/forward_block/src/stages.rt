// Both stages of a forward block. Along a row the inputs of a line are its residuals; down the columns they are weights, and the
// weights are the rows between the stages, zipped: output y of every column is one line. What stands between the stages is
// written where the coefficients will stand.
ghost use Rattle.std.specs.Prelude.{◌≡◌, true, ◌*◌, ◌/◌, ◌≤◌, length};
ghost use Rattle.meaning.specs.Shape.{is_size};
ghost use Rattle.meaning.specs.Forward.{forward_block};
ghost use Rattle.forward_block.specs.Stage.{Residuals, line_value, PutLines, Stage, Rooms};

use forward_stage::place::{clear_beyond, narrow};
use forward_stage::shift::{column_shift, row_shift};
use layout::small::is_small;
use layout::zip::zip;
use meaning::{Shape, kept_columns, kept_rows};
use product::{half, lines};
use stage_weights::{put_128, put_1024};

// Lines in 16 bits, each in the first places of its row. The sums of one line stand in a list of this function's own: of one that
// was lent the compiler would not know that it is apart from inputs and weights, and lose the pairs (docs/DECISIONS.md).
fn put_lines(
    pairs: usize,
    a: &[i16],
    step: usize,
    gap: usize,
    b: &[i16],
    apart: usize,
    kept: usize,
    some: usize,
    wide: usize,
    shift: u32,
    out: &mut [i16],
)
    requires { PutLines pairs a.now step gap b.now apart kept some wide shift (length out.old) }
    ensures { Stage kept wide some (line_value pairs a.now step gap b.now apart shift) out.new out.old }
{
    let half = half(shift);
    let mut e = [0i32; 32];
    for y in 0..some {
        let o = step * y;
        let q = y * wide;
        let f = q + kept;
        lines(
            pairs,
            apart,
            &a[o..],
            step,
            gap,
            b,
            kept,
            1,
            half,
            shift,
            &mut e,
        );
        narrow(&e, &mut out[q..f]);
    }
}

// Lines of n inputs. The number of pairs is a literal at each call: what it is used for is unrolled.
fn stage(
    n: usize,
    a: &[i16],
    step: usize,
    gap: usize,
    b: &[i16],
    apart: usize,
    kept: usize,
    some: usize,
    wide: usize,
    shift: u32,
    out: &mut [i16],
)
    requires { (is_size n ≡ true) × PutLines (n / 2) a.now step gap b.now apart kept some wide shift (length out.old) }
    ensures { Stage kept wide some (line_value (n / 2) a.now step gap b.now apart shift) out.new out.old }
{
    if n == 4 {
        put_lines(2, a, step, gap, b, apart, kept, some, wide, shift, out);
    } else if n == 8 {
        put_lines(4, a, step, gap, b, apart, kept, some, wide, shift, out);
    } else if n == 16 {
        put_lines(8, a, step, gap, b, apart, kept, some, wide, shift, out);
    } else {
        put_lines(16, a, step, gap, b, apart, kept, some, wide, shift, out);
    }
}

// "Rows first", the kept columns of them; "Then columns", the kept rows of them. In lent rooms, whatever their lengths are: `along`
// has the weights of the rows, and then the rows between the stages, zipped; `down` has those of the columns.
fn worked(
    shape: Shape,
    residuals: &[i16],
    along: &mut [i16],
    down: &[i16],
    coefficients: &mut [i16],
)
    requires { Residuals shape residuals.now × (Rooms shape along.old down.now (length along.old) × (length coefficients.old ≡ shape.width * shape.height)) }
    ensures { coefficients.new ≡ forward_block shape residuals.now }
{
    let w = shape.width as usize;
    let h = shape.height as usize;
    let columns = kept_columns(shape);
    let rows = kept_rows(shape);
    let p = row_shift(shape);
    let q = column_shift(shape);
    stage(
        w,
        residuals,
        w,
        2,
        along,
        2 * w,
        columns,
        h,
        columns,
        p,
        coefficients,
    );
    zip(coefficients, columns, h / 2, columns, along);
    clear_beyond(rows * columns, coefficients);
    stage(
        h,
        down,
        2,
        2 * h,
        along,
        2 * columns,
        columns,
        rows,
        w,
        q,
        coefficients,
    );
}

// Blocks of up to 8 by 8: rooms have to be zeroed, and those of `large` would take as long as a small block does.
fn small(shape: Shape, residuals: &[i16], coefficients: &mut [i16])
    requires { Residuals shape residuals.now × ((length coefficients.old ≡ shape.width * shape.height) × ((shape.width ≤ 8) × (shape.height ≤ 8))) }
    ensures { coefficients.new ≡ forward_block shape residuals.now }
{
    let w = shape.width as usize;
    let h = shape.height as usize;
    let mut along = [0i16; 128];
    put_128(shape.horizontal, true, w, &mut along);
    let mut down = [0i16; 128];
    put_128(shape.vertical, true, h, &mut down);
    worked(shape, residuals, &mut along, &down, coefficients);
}

fn large(shape: Shape, residuals: &[i16], coefficients: &mut [i16])
    requires { Residuals shape residuals.now × (length coefficients.old ≡ shape.width * shape.height) }
    ensures { coefficients.new ≡ forward_block shape residuals.now }
{
    let w = shape.width as usize;
    let h = shape.height as usize;
    let mut along = [0i16; 1024];
    put_1024(shape.horizontal, true, w, &mut along);
    let mut down = [0i16; 1024];
    put_1024(shape.vertical, true, h, &mut down);
    worked(shape, residuals, &mut along, &down, coefficients);
}

pub fn stages(shape: Shape, residuals: &[i16], coefficients: &mut [i16])
    requires { Residuals shape residuals.now × (length coefficients.old ≡ shape.width * shape.height) }
    ensures { coefficients.new ≡ forward_block shape residuals.now }
{
    if is_small(shape) {
        small(shape, residuals, coefficients);
    } else {
        large(shape, residuals, coefficients);
    }
}
