// R, the last shift, how many stages there are, and whether LFNST is one more.
ghost use Rattle.std.specs.Prelude.{◌≡◌, ◌≤◌};
ghost use Rattle.transform_block.specs.TransformBlock.{is_on, is_thin, has_low, reach_of, last_of};

use crate::TransformBlock;
use long_stages::rules::reach_of;

pub fn is_on(block: TransformBlock) -> bool
    ensures { result ≡ is_on block }
{
    block.extended != 0
}

#[tactic(auto, unfolding(crate::specs::TransformBlock::is_thin))]
pub fn one_stage(block: TransformBlock) -> bool
    ensures { result ≡ is_thin block }
{
    block.width == 1 || block.height == 1
}

pub fn has_low(block: TransformBlock) -> bool
    ensures { result ≡ has_low block }
{
    block.lfnst != 0
}

pub fn reach(block: TransformBlock) -> u32
    ensures { result ≡ reach_of block }
{
    reach_of(is_on(block), block.depth)
}

// 5 + R - d, and one more with one stage.
pub fn last(block: TransformBlock) -> u32
    requires { block.depth ≤ 16 }
    ensures { result ≡ last_of block }
{
    let r = reach(block);
    if one_stage(block) {
        return 6 + r - block.depth;
    }
    5 + r - block.depth
}
