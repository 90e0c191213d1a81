// Which way a block takes: the line of a side of 1, a fill, 16-bit numbers in a room of its size, the stages by pairs, or in long numbers.
ghost use Rattle.std.specs.Prelude.{◌≡◌, true};
ghost use Rattle.meaning.specs.Answer.{Outcome, accepted};
ghost use Rattle.transform_block.specs.TransformBlock.{transformed};
ghost use Rattle.transform_block.specs.Given.{GivenWork, Flat};

use crate::TransformBlock;
use crate::long::long;
use crate::paired::{is_paired, paired};
use crate::rules::{is_on, last, one_stage};
use crate::short::{is_short, short};
use crate::side::side;
use dct2_block::alone::flat;

// Whether one coefficient of kind 0 is read, with two stages and the switch off: all residuals are one number then.
fn is_flat(block: TransformBlock) -> bool
    ensures { result ≡ true → Flat block }
{
    block.columns == 1
        && block.rows == 1
        && block.horizontal == 0
        && block.vertical == 0
        && !is_on(block)
        && !one_stage(block)
}

// Hands back the rail count.
pub fn work(block: TransformBlock, numbers: &mut [i32]) -> u32
    requires { GivenWork block numbers.old }
    ensures { ◌≡◌ {A = Outcome} (accepted result, numbers.new) (transformed block numbers.old) }
{
    if one_stage(block) {
        return side(block, numbers);
    }
    if is_flat(block) {
        let first = numbers[0];
        flat(last(block), first, numbers);
        return 0;
    }
    if is_short(block) {
        return short(block, numbers);
    }
    if is_paired(block) {
        return paired(block, numbers);
    }
    long(block, numbers)
}
