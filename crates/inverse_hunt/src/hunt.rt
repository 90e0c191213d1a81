// The hunt for refusal 8: "a non-zero coefficient outside the kept part; place of the first, row by row".
ghost use Rattle.std.specs.Prelude.{◌≡◌, cond, ◌*◌, ◌≤◌, ltb, length};
ghost use Rattle.algebra.specs.First.{found};
ghost use Rattle.meaning.specs.Plan.{plan_of};
ghost use Rattle.meaning.specs.Inverse.{first_outside, outside_at};
ghost use Rattle.layout.specs.Part.{Part};

use meaning::{Shape, kept_columns, kept_rows};

fn outside(n: i16, x: usize, y: usize, columns: usize, rows: usize) -> bool
    ensures { result ≡ outside_at columns rows x y n }
{
    // By turns: with `||` the compiler makes both other tests of each number, of which most are 0.
    match n {
        0 => false,
        _ if columns <= x => true,
        _ => rows <= y,
    }
}

// The first column of row y that can be outside the kept part.
fn first_column(y: usize, columns: usize, rows: usize) -> usize
    ensures { result ≡ cond (ltb y rows) columns 0 }
{
    if y < rows { columns } else { 0 }
}

// The place of the first coefficient outside the kept part, row by row. As a part of a block's call it would take twice as long.
#[inline(never)]
fn searched(shape: Shape, c: &[i16]) -> Option<usize>
    requires { (length c.now ≡ shape.width * shape.height) × (shape.columns ≤ shape.width) }
    ensures { result ≡ found (length c.now) (first_outside (plan_of shape) c.now) }
{
    let w = shape.width as usize;
    let h = shape.height as usize;
    let columns = kept_columns(shape);
    let rows = kept_rows(shape);
    let mut place = None;
    'hunt: for y in 0..h {
        for x in first_column(y, columns, rows)..w {
            let at = x + y * w;
            if outside(c[at], x, y, columns, rows) {
                place = Some(at);
                break 'hunt;
            }
        }
    }
    place
}

// The same, where the block is known to be zero outside of some part of it: if that is kept, nothing can be found.
pub fn first_outside(shape: Shape, columns: usize, rows: usize, c: &[i16]) -> Option<usize>
    requires { ((length c.now ≡ shape.width * shape.height) × (shape.columns ≤ shape.width)) × Part shape.width shape.height columns rows c.now }
    ensures { result ≡ found (length c.now) (first_outside (plan_of shape) c.now) }
{
    let rows_kept = kept_rows(shape);
    let columns_kept = kept_columns(shape);
    if rows_kept < rows || columns_kept < columns {
        searched(shape, c)
    } else {
        None
    }
}
