// The hunts for 8 and for 27, each through the whole block, row by row.
ghost use Rattle.std.specs.Prelude.{◌≡◌, ◌*◌, ◌≤◌, length};
ghost use Rattle.algebra.specs.First.{found};
ghost use Rattle.meaning.specs.Plan.{range_of, plan_of};
ghost use Rattle.meaning.specs.Inverse.{first_outside, outside_at};
ghost use Rattle.meaning.specs.Long.{beyond, first_beyond};

use crate::rules::{high_end, low_end};
use meaning::Shape;

fn outside(n: i32, x: usize, y: usize, columns: usize, rows: usize) -> bool
    ensures { result ≡ outside_at columns rows x y n }
{
    // By turns, as in `inverse_hunt`.
    match n {
        0 => false,
        _ if columns <= x => true,
        _ => rows <= y,
    }
}

// The place of the first coefficient outside the kept part.
pub fn first_outside(shape: Shape, c: &[i32]) -> Option<usize>
    requires { length c.now ≡ shape.width * shape.height }
    ensures { result ≡ found (length c.now) (first_outside (plan_of shape) c.now) }
{
    let w = shape.width as usize;
    let h = shape.height as usize;
    let columns = shape.columns as usize;
    let rows = shape.rows as usize;
    let mut place = None;
    'hunt: for y in 0..h {
        for x in 0..w {
            let at = x + y * w;
            if outside(c[at], x, y, columns, rows) {
                place = Some(at);
                break 'hunt;
            }
        }
    }
    place
}

fn past_ends(n: i32, low: i32, high: i32) -> bool
    ensures { result ≡ beyond (record { low = low; high = high }) n }
{
    n < low || high < n
}

pub fn is_beyond(n: i32, reach: u32) -> bool
    requires { reach ≤ 20 }
    ensures { result ≡ beyond (range_of reach) n }
{
    past_ends(n, low_end(reach), high_end(reach))
}

// The place of the first coefficient outside the range.
pub fn first_beyond(reach: u32, c: &[i32]) -> Option<usize>
    requires { reach ≤ 20 }
    ensures { result ≡ found (length c.now) (first_beyond (range_of reach) c.now) }
{
    c.iter().position(|n| is_beyond(*n, reach))
}
