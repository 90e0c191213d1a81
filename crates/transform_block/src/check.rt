// The refusals that need no look at the numbers, by the tests of `transform_fields`.
ghost use Rattle.std.specs.Prelude.{◌≡◌};
ghost use Rattle.algebra.specs.Refusals.{number_of};
ghost use Rattle.meaning.specs.Refusal.{number_in};
ghost use Rattle.transform_block.specs.TransformBlock.{is_readable, is_low, handed_tests};

use crate::TransformBlock;
use crate::rules::has_low;
use meaning::{Refusal, is_kept, is_kind};
use transform_fields::{is_corner, is_depth, is_pair, is_side, known_low, no_line, takes_low};

fn reads(block: TransformBlock) -> bool
    ensures { result ≡ is_readable block }
{
    is_kept(block.horizontal, block.width, block.columns)
        && is_kept(block.vertical, block.height, block.rows)
}

// What 31 asks for.
fn is_low(block: TransformBlock) -> bool
    ensures { result ≡ is_low block }
{
    if !known_low(block.lfnst, block.set, block.transposed) {
        return false;
    }
    if has_low(block) {
        return takes_low(block.width, block.height, block.horizontal, block.vertical);
    }
    true
}

// 1 to 4, 30, 5, 20, 31 and 6.
pub fn field_refusal(block: TransformBlock, numbers: usize) -> Result<(), Refusal>
    ensures { number_in result ≡ number_of (handed_tests block numbers) }
{
    if !is_side(block.width) {
        return Err(Refusal::Width);
    }
    if !is_pair(block.width, block.height) {
        return Err(Refusal::Height);
    }
    if !is_kind(block.horizontal) {
        return Err(Refusal::Horizontal);
    }
    if !is_kind(block.vertical) {
        return Err(Refusal::Vertical);
    }
    if no_line(block.horizontal, block.width) {
        return Err(Refusal::KindOfSide);
    }
    if no_line(block.vertical, block.height) {
        return Err(Refusal::KindOfSide);
    }
    if !is_depth(block.depth) {
        return Err(Refusal::Depth);
    }
    if !reads(block) {
        return Err(Refusal::Kept);
    }
    if !is_corner(block.lfnst, block.columns, block.rows) {
        return Err(Refusal::Kept);
    }
    if !is_low(block) {
        return Err(Refusal::LowFrequency);
    }
    let elements = block.width as usize * block.height as usize;
    if numbers != elements {
        return Err(Refusal::Input);
    }
    Ok(())
}
