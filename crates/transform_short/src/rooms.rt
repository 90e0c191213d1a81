// What is read is narrowed once, into a room of its own; the rest of it is 0. The rooms have a function each, as clearing the largest
// takes longer than a small block.
ghost use Rattle.std.specs.Prelude.{◌≡◌, ℕ, ◌≤◌, pos, length};
ghost use Rattle.algebra.specs.Lists.{at};
ghost use Rattle.meaning.specs.Plan.{plan_of};
ghost use Rattle.meaning.specs.Inverse.{rails, inverse_block};
ghost use Rattle.narrowing.specs.Narrow.{Narrowed};
ghost use Rattle.transform_short.specs.Short.{GivenRead, Quick};

use crate::quick::quick_four;
use crate::staged::{by_call, is_dct2, staged};
use meaning::Shape;
use narrowing::narrow;

// What is read, to the same places of a room.
fn read(shape: Shape, numbers: &[i32], room: &mut [i16])
    requires { GivenRead shape numbers.now × ((length numbers.now ≤ length room.old) × ((k : ℕ) → at room.old k ≡ pos 0)) }
    ensures { Narrowed (length room.old) numbers.now shape.width shape.columns shape.rows shape.width room.new }
{
    let w = shape.width as usize;
    narrow(
        numbers,
        w,
        shape.columns as usize,
        shape.rows as usize,
        w,
        room,
    );
}

// By document 01's call, which has the pairs of 4 by 4 (docs/DECISIONS.md).
fn called(shape: Shape, numbers: &mut [i32]) -> u32
    requires { GivenRead shape numbers.old × (length numbers.old ≤ 16) }
    ensures { (result ≡ rails (plan_of shape) numbers.old) × (numbers.new ≡ inverse_block (plan_of shape) numbers.old) }
{
    let n = numbers.len();
    let mut room = [0i16; 16];
    read(shape, numbers, &mut room);
    by_call(shape, &room[..n], numbers)
}

// Whether a block of 4 by 4 took the quick way.
fn four_quick(shape: Shape, numbers: &mut [i32], rails: &mut u32) -> bool
    requires { GivenRead shape numbers.old × (length numbers.old ≤ 16) }
    ensures { Quick shape numbers.old result rails.new numbers.new }
{
    if !is_dct2(shape) {
        return false;
    }
    quick_four(
        shape.width,
        shape.height,
        shape.depth,
        shape.columns,
        shape.rows,
        numbers,
        rails,
    )
}

// 4 by 4.
fn four(shape: Shape, numbers: &mut [i32]) -> u32
    requires { GivenRead shape numbers.old × (length numbers.old ≤ 16) }
    ensures { (result ≡ rails (plan_of shape) numbers.old) × (numbers.new ≡ inverse_block (plan_of shape) numbers.old) }
{
    let mut count = 0;
    if four_quick(shape, numbers, &mut count) {
        return count;
    }
    called(shape, numbers)
}

fn tiny(shape: Shape, numbers: &mut [i32]) -> u32
    requires { GivenRead shape numbers.old × (length numbers.old ≤ 64) }
    ensures { (result ≡ rails (plan_of shape) numbers.old) × (numbers.new ≡ inverse_block (plan_of shape) numbers.old) }
{
    let n = numbers.len();
    let mut room = [0i16; 64];
    read(shape, numbers, &mut room);
    staged(shape, &room[..n], numbers)
}

fn small(shape: Shape, numbers: &mut [i32]) -> u32
    requires { GivenRead shape numbers.old × (length numbers.old ≤ 256) }
    ensures { (result ≡ rails (plan_of shape) numbers.old) × (numbers.new ≡ inverse_block (plan_of shape) numbers.old) }
{
    let n = numbers.len();
    let mut room = [0i16; 256];
    read(shape, numbers, &mut room);
    staged(shape, &room[..n], numbers)
}

fn large(shape: Shape, numbers: &mut [i32]) -> u32
    requires { GivenRead shape numbers.old }
    ensures { (result ≡ rails (plan_of shape) numbers.old) × (numbers.new ≡ inverse_block (plan_of shape) numbers.old) }
{
    let n = numbers.len();
    let mut room = [0i16; 1024];
    read(shape, numbers, &mut room);
    staged(shape, &room[..n], numbers)
}

// Hands back the rail count. `large` is called from two places: called from one, the compiler would move it here and into the call, and
// its room would stand on the stack of every other way too.
pub fn stages(shape: Shape, numbers: &mut [i32]) -> u32
    requires { GivenRead shape numbers.old }
    ensures { (result ≡ rails (plan_of shape) numbers.old) × (numbers.new ≡ inverse_block (plan_of shape) numbers.old) }
{
    if 512 < numbers.len() {
        return large(shape, numbers);
    }
    if numbers.len() <= 16 {
        return four(shape, numbers);
    }
    if numbers.len() <= 64 {
        return tiny(shape, numbers);
    }
    if numbers.len() <= 256 {
        return small(shape, numbers);
    }
    large(shape, numbers)
}
