// Which blocks of kind 0 both ways the kernels work, and which way they take.
ghost use Rattle.std.specs.Prelude.{◌≡◌, true, ℕ, ◌≤◌, ◌<◌};
ghost use Rattle.meaning.specs.Plan.{plan_of};
ghost use Rattle.meaning.specs.Inverse.{rails, inverse_block};
ghost use Rattle.meaning.specs.Shape.{is_size};
ghost use Rattle.inverse_stage.specs.Given.{GivenStages};
ghost use Rattle.kernel_picks.specs.Picks.{is_kernel};

use crate::alone::{alone, flat};
use crate::stages::{stages, strip_of};
use inverse_stage::shift::last_shift;
use meaning::Shape;

// How many inputs the kernel of n points has, 4 columns or rows at a time; 0 where there is none.
fn live_of_4(n: usize) -> usize
    ensures { 0 < result → ((count : ℕ) → is_kernel count n result ≡ true) × (n ≤ result) }
{
    if n == 8 {
        return 8;
    }
    if n == 16 {
        return 16;
    }
    0
}

// How many inputs the kernel has that serves the first k of n points, 8 at a time.
fn live_of_8(n: usize, k: usize) -> usize
    requires { (is_size n ≡ true) × (k ≤ n) }
    ensures { (is_kernel 8 n result ≡ true) × (k ≤ result) }
{
    if 16 < n {
        if k <= 8 {
            return 8;
        }
        return 32;
    }
    if k <= 4 {
        return 4;
    }
    n
}

// The same, `count` at a time.
fn live_of(count: usize, n: usize, k: usize) -> usize
    requires { (is_size n ≡ true) × (k ≤ n) }
    ensures { 0 < result → (is_kernel count n result ≡ true) × (k ≤ result) }
{
    if count == 8 {
        return live_of_8(n, k);
    }
    live_of_4(n)
}

// Whether so little of a large block is live that the lines of the product are quicker.
fn is_corner(w: usize, elements: usize, h: usize, rows: usize, columns: usize) -> bool {
    if w < 16 {
        return false;
    }
    if elements == 128 {
        return false;
    }
    if elements == 1024 {
        if columns == 16 {
            return rows == 16;
        }
    }
    if 4 < columns {
        return false;
    }
    rows <= h / 2
}

// Whether the block is worked and no middle value counts. Where it is not, it may be that a middle value stands at an end of its range.
pub fn worked(shape: Shape, rows: usize, columns: usize, c: &[i16], r: &mut [i32]) -> bool
    requires { GivenStages shape rows columns c.now r.old × ((shape.horizontal ≡ 0) × (shape.vertical ≡ 0)) }
    ensures { result ≡ true → (rails (plan_of shape) c.now ≡ 0) × (r.new ≡ inverse_block (plan_of shape) c.now) }
{
    let w = shape.width as usize;
    let h = shape.height as usize;
    let last = last_shift(shape);
    if alone(c, w, rows) {
        flat(last, c[0] as i32, r);
        return true;
    }
    if is_corner(w, c.len(), h, rows, columns) {
        return false;
    }
    let high = live_of(strip_of(w), h, rows);
    if high == 0 {
        return false;
    }
    let wide = live_of(strip_of(h), w, columns);
    if wide == 0 {
        return false;
    }
    if 128 < (wide + 7) / 8 * h {
        return false;
    }
    if stages(w, h, last, rows, columns, high, wide, w, c, r) {
        return false;
    }
    true
}
