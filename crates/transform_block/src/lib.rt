// Every transform block of a stream whose transform is not skipped, in one call, in place: sides of 1 to 64, with LFNST or without, told
// how many columns and rows to read. The contract of `inverse` is `transform_outcome` of specs/TransformBlock; read that first. Then
// usual (blocks that take a quick way), check (the refusals of the fields), hunt (27), low (LFNST, by `lfnst`), calm (blocks with the
// switch on that need only 16 bits, by `transform_calm`), work (which way a block takes, and the fill), side (a side of 1, by
// `transform_line`), short (blocks of document 01, by `transform_short`), paired (other blocks of two stages with the switch off, by
// `transform_pairs`, and by `transform_two` where a side is 2), long (the rest, by `transform_stages`).
#![tactic(auto)]

mod calm;
mod check;
mod hunt;
mod long;
mod low;
mod paired;
mod rules;
mod short;
mod side;
mod usual;
mod work;

ghost use Rattle.std.specs.Prelude.{◌≡◌};
ghost use Rattle.meaning.specs.Answer.{Outcome};
ghost use Rattle.transform_block.specs.TransformBlock.{block_of, transform_outcome};

use crate::calm::calmed;
use crate::check::field_refusal;
use crate::hunt::first_beyond;
use crate::low::after_low;
use crate::usual::tried;
use crate::work::work;
use meaning::{Answer, Refusal, accepted, most_kept};

/// What a transform block is: its sides, a kind for each direction, its bit depth, the extended-precision switch (0 off, any other
/// number on), how many columns and rows are read, and LFNST: its index (0 none), the set of its matrices, and whether its values go
/// column by column (1). Any numbers.
#[repr(C)]
#[derive(Clone, Copy)]
pub struct TransformBlock {
    pub width: u32,
    pub height: u32,
    pub horizontal: u32,
    pub vertical: u32,
    pub depth: u32,
    pub extended: u32,
    pub columns: u32,
    pub rows: u32,
    pub lfnst: u32,
    pub set: u32,
    pub transposed: u32,
}

impl TransformBlock {
    /// The most columns and rows, the switch off, and no LFNST.
    pub fn new(
        width: u32,
        height: u32,
        horizontal: u32,
        vertical: u32,
        depth: u32,
    ) -> TransformBlock
        ensures { result ≡ block_of width height horizontal vertical depth }
    {
        TransformBlock {
            width,
            height,
            horizontal,
            vertical,
            depth,
            extended: 0,
            columns: most_kept(horizontal, width),
            rows: most_kept(vertical, height),
            lfnst: 0,
            set: 0,
            transposed: 0,
        }
    }
}

// Every block: the refusals in their order, LFNST, and the work.
fn ordinary(block: TransformBlock, numbers: &mut [i32]) -> Answer
    ensures { ◌≡◌ {A = Outcome} (result, numbers.new) (transform_outcome block numbers.old) }
{
    if let Err(refusal) = field_refusal(block, numbers.len()) {
        return refusal.at(0);
    }
    if let Some(place) = first_beyond(block, numbers) {
        return Refusal::OutOfRange.at(place as u32);
    }
    let behind = after_low(block, numbers);
    let calm = calmed(behind, numbers);
    accepted(work(calm, numbers))
}

/// The inverse of a transform block in place: residuals from coefficients, with the rail count. Any numbers, any buffer.
pub fn inverse(block: TransformBlock, numbers: &mut [i32]) -> Answer
    ensures { ◌≡◌ {A = Outcome} (result, numbers.new) (transform_outcome block numbers.old) }
{
    let mut rails = 0;
    if tried(block, numbers, &mut rails) {
        return accepted(rails);
    }
    ordinary(block, numbers)
}
