// Blocks of document 01: numbers of 16 bits, by `transform_short`.
ghost use Rattle.std.specs.Prelude.{◌≡◌};
ghost use Rattle.meaning.specs.Inverse.{rails, inverse_block};
ghost use Rattle.transform_block.specs.TransformBlock.{transform_plan};
ghost use Rattle.transform_block.specs.Given.{is_short, GivenShort};

use crate::TransformBlock;
use crate::rules::is_on;
use meaning::{Shape, is_depth, is_size};
use transform_short::rooms::stages;

// Whether document 01's call takes the block.
#[tactic(auto, unfolding(crate::specs::Given::is_short))]
pub fn is_short(block: TransformBlock) -> bool
    ensures { result ≡ is_short block }
{
    !is_on(block) && is_size(block.width) && is_size(block.height) && is_depth(block.depth)
}

// Hands back the rail count.
pub fn short(block: TransformBlock, numbers: &mut [i32]) -> u32
    requires { GivenShort block numbers.old }
    ensures { (result ≡ rails (transform_plan block) numbers.old) × (numbers.new ≡ inverse_block (transform_plan block) numbers.old) }
{
    let shape = Shape {
        width: block.width,
        height: block.height,
        horizontal: block.horizontal,
        vertical: block.vertical,
        depth: block.depth,
        columns: block.columns,
        rows: block.rows,
    };
    stages(shape, numbers)
}
