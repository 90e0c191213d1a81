// Blocks with a side of 1: the line of their other side, of 16-bit numbers where the switch is off.
ghost use Rattle.std.specs.Prelude.{◌≡◌};
ghost use Rattle.meaning.specs.Answer.{Outcome, accepted};
ghost use Rattle.transform_block.specs.TransformBlock.{transformed};
ghost use Rattle.transform_block.specs.Given.{GivenThin};

use crate::TransformBlock;
use crate::long::long;
use crate::rules::{is_on, last};
use transform_line::stage::stage;

// Hands back the rail count, which is 0.
pub fn side(block: TransformBlock, numbers: &mut [i32]) -> u32
    requires { GivenThin block numbers.old }
    ensures { ◌≡◌ {A = Outcome} (accepted result, numbers.new) (transformed block numbers.old) }
{
    if is_on(block) {
        return long(block, numbers);
    }
    let last = last(block);
    if block.width == 1 {
        stage(
            block.vertical,
            block.height as usize,
            block.rows as usize,
            last,
            numbers,
        );
        return 0;
    }
    stage(
        block.horizontal,
        block.width as usize,
        block.columns as usize,
        last,
        numbers,
    );
    0
}
