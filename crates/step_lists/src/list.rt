// A list as numbers, into buffers that the caller lends.
ghost use Rattle.std.specs.Prelude.{◌≡◌, ◌≤◌, length};
ghost use Rattle.step_lists.specs.Listed.{HandedList, is_listed, listed, handed_list, list_outcome};

use crate::Listed;
use crate::stored::{outs_4, outs_16, outs_32, steps_4, steps_16, steps_32};
use meaning::Refusal;

/// Whether there is a list of n points.
pub fn is_listed(n: u32) -> bool
    ensures { result ≡ is_listed n }
{
    matches!(n, 4 | 16 | 32)
}

fn told(number: u32, inputs: u32, cells: u32, s: &[i32], o: &[i32]) -> Listed
    requires { (length s.now ≤ 8192) × (length o.now ≤ 2048) }
    ensures { result ≡ listed number inputs cells s.now o.now }
{
    Listed {
        number,
        inputs,
        cells,
        steps: (s.len() / 4) as u32,
        outs: o.len() as u32,
    }
}

// One list, where both buffers have its lengths.
fn hand(
    inputs: u32,
    cells: u32,
    s: &[i32],
    o: &[i32],
    steps: &mut [i32],
    outs: &mut [i32],
) -> Listed
    requires { (length s.now ≤ 8192) × (length o.now ≤ 2048) }
    ensures { ◌≡◌ {A = HandedList} (result, (steps.new, outs.new)) (handed_list inputs cells s.now o.now steps.old outs.old) }
{
    if steps.len() != s.len() || outs.len() != o.len() {
        return told(Refusal::Output.number(), inputs, cells, s, o);
    }
    steps.copy_from_slice(s);
    outs.copy_from_slice(o);
    told(0, inputs, cells, s, o)
}

/// The list of n points: its numbers into `steps`, four to a step, and its output cells into `outs`. 1 where n has no list, 7
/// where a buffer has another length than the list's; its sizes are told for 7 too.
pub fn list(n: u32, steps: &mut [i32], outs: &mut [i32]) -> Listed
    ensures { ◌≡◌ {A = HandedList} (result, (steps.new, outs.new)) (list_outcome n steps.old outs.old) }
{
    match n {
        4 => hand(4, 11, &steps_4(), &outs_4(), steps, outs),
        16 => hand(16, 40, &steps_16(), &outs_16(), steps, outs),
        32 => hand(32, 79, &steps_32(), &outs_32(), steps, outs),
        _ => told(Refusal::Width.number(), 0, 0, &[], &[]),
    }
}
