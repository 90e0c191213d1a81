// LFNST before columns and rows, in place.
ghost use Rattle.std.specs.Prelude.{◌≡◌};
ghost use Rattle.transform_block.specs.TransformBlock.{low_side, behind_low};
ghost use Rattle.transform_block.specs.Given.{GivenWork, GivenLow, LowDone, AfterLow};

use crate::TransformBlock;
use crate::rules::{has_low, reach};
use lfnst::rules::is_wide;
use lfnst::stage;

// The block behind the stage, of which `side` columns and rows are read: its numbers are what columns and rows run on, as far as that.
fn low(block: TransformBlock, side: u32, numbers: &mut [i32]) -> TransformBlock
    requires { GivenLow block numbers.old × (side ≡ low_side block) }
    ensures { (result ≡ behind_low block) × LowDone block numbers.old numbers.new }
{
    stage(
        block.width,
        block.height,
        block.lfnst,
        block.set,
        block.transposed == 1,
        reach(block),
        block.columns,
        block.rows,
        numbers,
    );
    TransformBlock {
        columns: side,
        rows: side,
        lfnst: 0,
        ..block
    }
}

// The block that columns and rows take: as it is, or behind LFNST. Two calls of `low`, or the compiler moves its rooms to the stack of
// its caller, where they add up with those of the stages.
pub fn after_low(block: TransformBlock, numbers: &mut [i32]) -> TransformBlock
    requires { GivenWork block numbers.old }
    ensures { AfterLow block numbers.old result numbers.new }
{
    if !has_low(block) {
        return block;
    }
    if is_wide(block.width, block.height) {
        return low(block, 8, numbers);
    }
    low(block, 4, numbers)
}
