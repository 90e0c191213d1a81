// Both stages of 16-bit numbers that are 0 where nothing is read.
ghost use Rattle.std.specs.Prelude.{◌≡◌, true, ℕ, ◌≤◌};
ghost use Rattle.meaning.specs.Shape.{is_size};
ghost use Rattle.meaning.specs.Plan.{plan_of};
ghost use Rattle.meaning.specs.Inverse.{rails, inverse_block};
ghost use Rattle.transform_short.specs.Short.{GivenStaged};

use dct2_block::worked::worked;
use inverse_block::larger::larger;
use meaning::Shape;

// The smallest size that n numbers fit in.
fn size_for(n: usize) -> usize
    requires { n ≤ 32 }
    ensures { (is_size result ≡ true) × ((n ≤ result) × ((m : ℕ) → is_size m ≡ true → n ≤ m → result ≤ m)) }
{
    if n <= 4 {
        return 4;
    }
    if n <= 8 {
        return 8;
    }
    if n <= 16 {
        return 16;
    }
    32
}

pub fn is_dct2(shape: Shape) -> bool
    ensures { result ≡ true → (shape.horizontal ≡ 0) × (shape.vertical ≡ 0) }
{
    if shape.horizontal != 0 {
        return false;
    }
    shape.vertical == 0
}

// By the kernels where these work the block. `larger` is called from two places: called from one, the compiler would move it here, and
// this into no function below.
pub fn staged(shape: Shape, c: &[i16], r: &mut [i32]) -> u32
    requires { GivenStaged shape c.now r.old }
    ensures { (result ≡ rails (plan_of shape) c.now) × (r.new ≡ inverse_block (plan_of shape) c.now) }
{
    let rows = size_for(shape.rows as usize);
    let columns = size_for(shape.columns as usize);
    if is_dct2(shape) {
        if worked(shape, rows, columns, c, r) {
            return 0;
        }
        return larger(shape, rows, columns, c, r);
    }
    larger(shape, rows, columns, c, r)
}

// By document 01's call.
pub fn by_call(shape: Shape, c: &[i16], r: &mut [i32]) -> u32
    requires { GivenStaged shape c.now r.old }
    ensures { (result ≡ rails (plan_of shape) c.now) × (r.new ≡ inverse_block (plan_of shape) c.now) }
{
    block::inverse(shape, c, r).rails
}
