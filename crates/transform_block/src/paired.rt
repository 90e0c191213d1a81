// Blocks of two stages with the switch off: by pairs of 16-bit numbers, a side of 2 by sums and differences.
ghost use Rattle.std.specs.Prelude.{◌≡◌, true, ◌⊎◌};
ghost use Rattle.meaning.specs.Inverse.{rails, inverse_block};
ghost use Rattle.transform_block.specs.TransformBlock.{transform_plan};
ghost use Rattle.transform_block.specs.Given.{is_paired, GivenPaired};

use crate::TransformBlock;
use crate::rules::{is_on, last, one_stage};
use transform_pairs::stages::stages;

#[tactic(auto, unfolding(crate::specs::Given::is_paired))]
pub fn is_paired(block: TransformBlock) -> bool
    ensures { result ≡ is_paired block }
{
    !is_on(block) && !one_stage(block)
}

// Whether a side is 2.
fn has_two(block: TransformBlock) -> bool
    ensures { result ≡ true → (block.width ≡ 2) ⊎ (block.height ≡ 2) }
{
    block.width == 2 || block.height == 2
}

// Hands back the rail count. A side of 2 has code of its own.
pub fn paired(block: TransformBlock, numbers: &mut [i32]) -> u32
    requires { GivenPaired block numbers.old }
    ensures { (result ≡ rails (transform_plan block) numbers.old) × (numbers.new ≡ inverse_block (transform_plan block) numbers.old) }
{
    let w = block.width as usize;
    let h = block.height as usize;
    let columns = block.columns as usize;
    let rows = block.rows as usize;
    let last = last(block);
    if has_two(block) {
        return transform_two::stages::stages(
            w,
            h,
            block.horizontal,
            block.vertical,
            columns,
            rows,
            last,
            numbers,
        );
    }
    stages(
        w,
        h,
        block.horizontal,
        block.vertical,
        columns,
        rows,
        last,
        numbers,
    )
}
