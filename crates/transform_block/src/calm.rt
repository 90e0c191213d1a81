// Blocks with extended precision whose numbers are small: they are worked as blocks with the switch off. The depth that has their last
// shift then is 20 - s.
ghost use Rattle.std.specs.Prelude.{◌≡◌, true, false, ◌≤◌};
ghost use Rattle.meaning.specs.Answer.{Outcome};
ghost use Rattle.transform_block.specs.TransformBlock.{is_on, is_thin, transformed};
ghost use Rattle.transform_block.specs.Given.{GivenWork, shortened};

use crate::TransformBlock;
use crate::rules::{is_on, last, one_stage};
use transform_calm::is_calm;

// The same block with the switch off.
fn short_of(block: TransformBlock) -> TransformBlock
    requires { (is_on block ≡ true) × ((is_thin block ≡ false) × ((8 ≤ block.depth) × (block.depth ≤ 16))) }
    ensures { result ≡ shortened block }
{
    TransformBlock {
        depth: 20 - last(block),
        extended: 0,
        ..block
    }
}

// A block that gives the same: as it is, or with the switch off.
pub fn calmed(block: TransformBlock, numbers: &[i32]) -> TransformBlock
    requires { GivenWork block numbers.now }
    ensures { GivenWork result numbers.now × (◌≡◌ {A = Outcome} (transformed result numbers.now) (transformed block numbers.now)) }
{
    if !is_on(block) {
        return block;
    }
    if one_stage(block) {
        return block;
    }
    if is_calm(
        numbers,
        block.width as usize,
        block.columns as usize,
        block.rows as usize,
    ) {
        return short_of(block);
    }
    block
}
