// The hunt for 27, by `transform_hunt`.
ghost use Rattle.std.specs.Prelude.{◌≡◌, length};
ghost use Rattle.algebra.specs.First.{found};
ghost use Rattle.transform_block.specs.TransformBlock.{transform_plan, first_read_beyond};
ghost use Rattle.transform_block.specs.Given.{TakenFields};

use crate::TransformBlock;
use crate::rules::reach;
use transform_hunt::first_read;

// The place of the first number that is read and outside the range.
pub fn first_beyond(block: TransformBlock, c: &[i32]) -> Option<usize>
    requires { TakenFields block c.now }
    ensures { result ≡ found (length c.now) (first_read_beyond (transform_plan block) c.now) }
{
    first_read(
        c,
        block.width as usize,
        block.columns as usize,
        block.rows as usize,
        reach(block),
    )
}
