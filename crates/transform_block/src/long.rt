// Every other block: sums of 64 bits.
ghost use Rattle.std.specs.Prelude.{◌≡◌};
ghost use Rattle.meaning.specs.Answer.{Outcome, accepted};
ghost use Rattle.transform_block.specs.TransformBlock.{transformed};
ghost use Rattle.transform_block.specs.Given.{GivenWork};

use crate::TransformBlock;
use crate::rules::{last, reach};
use transform_stages::stages::stages;

// Hands back the rail count. It is called from two places: called from one, the compiler would move it into the call, and its rooms
// would stand on the stack of every other way too.
pub fn long(block: TransformBlock, numbers: &mut [i32]) -> u32
    requires { GivenWork block numbers.old }
    ensures { ◌≡◌ {A = Outcome} (accepted result, numbers.new) (transformed block numbers.old) }
{
    stages(
        block.width,
        block.height,
        block.horizontal,
        block.vertical,
        block.columns,
        block.rows,
        reach(block),
        last(block),
        numbers,
    )
}
