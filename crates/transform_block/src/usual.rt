// The usual block, which takes the quick way: kind 0 both ways, sides of 4 to 32, the switch off, no LFNST. All that the refusals of the fields ask of it is in one test, as the tests in their order take longer than a small block.
ghost use Rattle.std.specs.Prelude.{◌≡◌, true, ◌≤◌, length};
ghost use Rattle.transform_block.specs.Given.{Plain, Usual, Tried};

use crate::TransformBlock;
use dct2_block::alone::flat;
use long_stages::hunt::is_beyond;
use meaning::{is_depth, is_size};
use transform_short::quick::quick;

// Whether all that is 0 in a usual block is.
fn is_plain(block: TransformBlock) -> bool
    ensures { result ≡ true → Plain block }
{
    block.extended == 0
        && block.lfnst == 0
        && block.set == 0
        && block.transposed == 0
        && block.horizontal == 0
        && block.vertical == 0
}

// Whether 1 to n of n are read.
fn is_some(n: u32, k: u32) -> bool
    ensures { result ≡ true → (1 ≤ k) × (k ≤ n) }
{
    1 <= k && k <= n
}

fn is_one(block: TransformBlock) -> bool
    ensures { result ≡ true → (block.columns ≡ 1) × (block.rows ≡ 1) }
{
    block.columns == 1 && block.rows == 1
}

fn is_usual(block: TransformBlock, numbers: usize) -> bool
    ensures { result ≡ true → Usual block numbers }
{
    is_plain(block)
        && is_size(block.width)
        && is_size(block.height)
        && is_depth(block.depth)
        && is_some(block.width, block.columns)
        && is_some(block.height, block.rows)
        && numbers == block.width as usize * block.height as usize
}

// Where one number alone is read, a fill, if the number is in the range.
fn filled(block: TransformBlock, numbers: &mut [i32], rails: &mut u32) -> bool
    requires { Usual block (length numbers.old) × ((block.columns ≡ 1) × (block.rows ≡ 1)) }
    ensures { Tried block numbers.old result rails.new numbers.new }
{
    let first = numbers[0];
    if is_beyond(first, 15) {
        return false;
    }
    flat(20 - block.depth, first, numbers);
    *rails = 0;
    true
}

// Whether the block took the quick way; its rail count goes to `rails`.
pub fn tried(block: TransformBlock, numbers: &mut [i32], rails: &mut u32) -> bool
    ensures { Tried block numbers.old result rails.new numbers.new }
{
    if !is_usual(block, numbers.len()) {
        return false;
    }
    if is_one(block) {
        return filled(block, numbers, rails);
    }
    quick(
        block.width,
        block.height,
        block.depth,
        block.columns,
        block.rows,
        numbers,
        rails,
    )
}
