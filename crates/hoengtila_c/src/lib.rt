// The library's exports for C, which make the archive: each calls the function of `hoengtila` of the same name, and has its contract.
// include/hoengtila.h declares them.
#![tactic(auto)]

ghost use Rattle.std.specs.Prelude.{◌≡◌, not, List, ℕ, eqb, ℤ};
ghost use Rattle.meaning.specs.Shape.{shape_of};
ghost use Rattle.meaning.specs.Answer.{Outcome, forward_line_outcome, inverse_line_outcome};
ghost use Rattle.meaning.specs.Inverse.{inverse_outcome};
ghost use Rattle.meaning.specs.Long.{long_outcome};
ghost use Rattle.meaning.specs.Forward.{forward_outcome};
ghost use Rattle.line.specs.Line.{weight_or_zero};
ghost use Rattle.round_trip.specs.RoundTrip.{stray_or_zero};
ghost use Rattle.block_row.specs.Numbers.{shapes_of};
ghost use Rattle.block_row.specs.Row.{RowOutcome, row_outcome};
ghost use Rattle.steps.specs.Numbers.{list_of};
ghost use Rattle.thin_block.specs.Thin.{Areas, thin_outcome};
ghost use Rattle.transform_block.specs.TransformBlock.{block_of, transform_outcome};
ghost use Rattle.steps.specs.Outcome.{Result, steps_outcome};
ghost use Rattle.wrapping.specs.Outcome.{forward_wrapped, inverse_wrapped};
ghost use Rattle.picture.specs.Outcomes.{write_outcome, read_outcome};
ghost use Rattle.salvage.specs.Outcomes.{salvage_outcome};
ghost use Rattle.report.specs.Totals.{empty, add_outcome};
ghost use Rattle.step_lists.specs.Listed.{HandedList, list_outcome, step_line_outcome};
ghost use Rattle.why.specs.Why.{why_outcome, long_why_outcome};
ghost use Rattle.hoengtila.specs.Version.{version};

use meaning::{Answer, Shape};
use picture::read::Picture;
use picture::write::Written;
use salvage::saving::Saved;
use step_lists::Listed;
use steps::StepCount;
use thin_block::Thin;
use transform_block::TransformBlock;
use why::Parts;

#[unsafe(no_mangle)]
pub extern "C" fn hoengtila_version() -> u32
    ensures { result ≡ version }
{
    hoengtila::hoengtila_version()
}

#[unsafe(no_mangle)]
pub extern "C" fn hoengtila_shape_of(
    width: u32,
    height: u32,
    horizontal: u32,
    vertical: u32,
    depth: u32,
) -> Shape
    ensures { result ≡ shape_of width height horizontal vertical depth }
{
    hoengtila::hoengtila_shape_of(width, height, horizontal, vertical, depth)
}

#[unsafe(no_mangle)]
pub extern "C" fn hoengtila_weight(kind: u32, n: u32, i: u32, j: u32) -> i32
    ensures { result ≡ weight_or_zero kind n i j }
{
    hoengtila::hoengtila_weight(kind, n, i, j)
}

#[unsafe(no_mangle)]
pub extern "C" fn hoengtila_stray(kind: u32, n: u32, j: u32) -> u32
    ensures { result ≡ stray_or_zero kind n j }
{
    hoengtila::hoengtila_stray(kind, n, j)
}

#[unsafe(no_mangle)]
pub extern "C" fn hoengtila_line_forward(n: u32, kind: u32, x: &[i16], y: &mut [i32]) -> Answer
    ensures { ◌≡◌ {A = Outcome} (result, y.new) (forward_line_outcome n kind x.now y.old) }
{
    hoengtila::hoengtila_line_forward(n, kind, x, y)
}

#[unsafe(no_mangle)]
pub extern "C" fn hoengtila_line_inverse(n: u32, kind: u32, x: &[i16], y: &mut [i32]) -> Answer
    ensures { ◌≡◌ {A = Outcome} (result, y.new) (inverse_line_outcome n kind x.now y.old) }
{
    hoengtila::hoengtila_line_inverse(n, kind, x, y)
}

#[unsafe(no_mangle)]
pub extern "C" fn hoengtila_line_forward_product(
    n: u32,
    kind: u32,
    x: &[i16],
    y: &mut [i32],
) -> Answer
    ensures { ◌≡◌ {A = Outcome} (result, y.new) (forward_line_outcome n kind x.now y.old) }
{
    hoengtila::hoengtila_line_forward_product(n, kind, x, y)
}

#[unsafe(no_mangle)]
pub extern "C" fn hoengtila_line_inverse_product(
    n: u32,
    kind: u32,
    x: &[i16],
    y: &mut [i32],
) -> Answer
    ensures { ◌≡◌ {A = Outcome} (result, y.new) (inverse_line_outcome n kind x.now y.old) }
{
    hoengtila::hoengtila_line_inverse_product(n, kind, x, y)
}

#[unsafe(no_mangle)]
pub extern "C" fn hoengtila_line_forward_wrapped(
    n: u32,
    kind: u32,
    start: u32,
    order: &[u32],
    x: &[i16],
    y: &mut [i32],
) -> Answer
    ensures { ◌≡◌ {A = Outcome} (result, y.new) (forward_wrapped n kind order.now x.now y.old) }
{
    hoengtila::hoengtila_line_forward_wrapped(n, kind, start, order, x, y)
}

#[unsafe(no_mangle)]
pub extern "C" fn hoengtila_line_inverse_wrapped(
    n: u32,
    kind: u32,
    start: u32,
    order: &[u32],
    x: &[i16],
    y: &mut [i32],
) -> Answer
    ensures { ◌≡◌ {A = Outcome} (result, y.new) (inverse_wrapped n kind order.now x.now y.old) }
{
    hoengtila::hoengtila_line_inverse_wrapped(n, kind, start, order, x, y)
}

#[unsafe(no_mangle)]
pub extern "C" fn hoengtila_block_inverse(
    shape: Shape,
    coefficients: &[i16],
    residuals: &mut [i32],
) -> Answer
    ensures { ◌≡◌ {A = Outcome} (result, residuals.new) (inverse_outcome shape coefficients.now residuals.old) }
{
    hoengtila::hoengtila_block_inverse(shape, coefficients, residuals)
}

#[unsafe(no_mangle)]
pub extern "C" fn hoengtila_block_inverse_long(
    shape: Shape,
    extended: u32,
    coefficients: &[i32],
    residuals: &mut [i32],
) -> Answer
    ensures { ◌≡◌ {A = Outcome} (result, residuals.new) (long_outcome (not (eqb extended 0)) shape coefficients.now residuals.old) }
{
    hoengtila::hoengtila_block_inverse_long(shape, extended, coefficients, residuals)
}

#[unsafe(no_mangle)]
pub extern "C" fn hoengtila_block_inverse_thin(
    shape: Shape,
    coefficients: &[i16],
    first: &mut [i32],
    second: &mut [i32],
) -> Thin
    ensures { ◌≡◌ {A = Areas} (record { answer = result; first = first.new; second = second.new }) (thin_outcome shape coefficients.now first.old second.old) }
{
    hoengtila::hoengtila_block_inverse_thin(shape, coefficients, first, second)
}

#[unsafe(no_mangle)]
pub extern "C" fn hoengtila_transform_block_of(
    width: u32,
    height: u32,
    horizontal: u32,
    vertical: u32,
    depth: u32,
) -> TransformBlock
    ensures { result ≡ block_of width height horizontal vertical depth }
{
    hoengtila::hoengtila_transform_block_of(width, height, horizontal, vertical, depth)
}

#[unsafe(no_mangle)]
pub extern "C" fn hoengtila_transform_block_inverse(
    block: TransformBlock,
    numbers: &mut [i32],
) -> Answer
    ensures { ◌≡◌ {A = Outcome} (result, numbers.new) (transform_outcome block numbers.old) }
{
    hoengtila::hoengtila_transform_block_inverse(block, numbers)
}

#[unsafe(no_mangle)]
pub extern "C" fn hoengtila_block_forward(
    shape: Shape,
    residuals: &[i16],
    coefficients: &mut [i16],
) -> Answer
    ensures { ◌≡◌ {A = Outcome} (result, coefficients.new) (forward_outcome shape residuals.now coefficients.old) }
{
    hoengtila::hoengtila_block_forward(shape, residuals, coefficients)
}

#[unsafe(no_mangle)]
pub extern "C" fn hoengtila_block_row(
    shapes: &[u32; 448],
    count: usize,
    answers: &mut [u32; 192],
    coefficients: &[i16],
    residuals: &mut [i32],
) -> u32
    ensures { ◌≡◌ {A = RowOutcome} (result, (answers.new, residuals.new)) (row_outcome (shapes_of count shapes.now) answers.old coefficients.now residuals.old) }
{
    hoengtila::hoengtila_block_row(shapes, count, answers, coefficients, residuals)
}

#[unsafe(no_mangle)]
pub extern "C" fn hoengtila_block_why(shape: Shape, coefficients: &[i16], place: u32) -> Parts
    ensures { result ≡ why_outcome shape coefficients.now place }
{
    hoengtila::hoengtila_block_why(shape, coefficients, place)
}

#[unsafe(no_mangle)]
pub extern "C" fn hoengtila_block_why_long(
    shape: Shape,
    extended: u32,
    coefficients: &[i32],
    place: u32,
) -> Parts
    ensures { result ≡ long_why_outcome (not (eqb extended 0)) shape coefficients.now place }
{
    hoengtila::hoengtila_block_why_long(shape, extended, coefficients, place)
}

#[unsafe(no_mangle)]
pub extern "C" fn hoengtila_steps_run(
    inputs: u32,
    cells: u32,
    steps: &[i32],
    outs: &[i32],
    x: &[i16],
    y: &mut [i32],
) -> StepCount
    ensures { ◌≡◌ {A = Result} (result, y.new) (steps_outcome (list_of inputs cells steps.now outs.now) x.now y.old) }
{
    hoengtila::hoengtila_steps_run(inputs, cells, steps, outs, x, y)
}

#[unsafe(no_mangle)]
pub extern "C" fn hoengtila_steps_list(n: u32, steps: &mut [i32], outs: &mut [i32]) -> Listed
    ensures { ◌≡◌ {A = HandedList} (result, (steps.new, outs.new)) (list_outcome n steps.old outs.old) }
{
    hoengtila::hoengtila_steps_list(n, steps, outs)
}

#[unsafe(no_mangle)]
pub extern "C" fn hoengtila_steps_forward(n: u32, x: &[i16], y: &mut [i32]) -> StepCount
    ensures { ◌≡◌ {A = Result} (result, y.new) (step_line_outcome n x.now y.old) }
{
    hoengtila::hoengtila_steps_forward(n, x, y)
}

#[unsafe(no_mangle)]
pub extern "C" fn hoengtila_picture_write(
    width: u32,
    height: u32,
    residuals: &[i32],
    file: &mut [u8],
) -> Written
    ensures { ◌≡◌ {A = Written × List ℕ} (result, file.new) (write_outcome width height residuals.now file.old) }
{
    hoengtila::hoengtila_picture_write(width, height, residuals, file)
}

#[unsafe(no_mangle)]
pub extern "C" fn hoengtila_picture_read(file: &[u8], residuals: &mut [i32]) -> Picture
    ensures { ◌≡◌ {A = Picture × List ℤ} (result, residuals.new) (read_outcome file.now residuals.old) }
{
    hoengtila::hoengtila_picture_read(file, residuals)
}

#[unsafe(no_mangle)]
pub extern "C" fn hoengtila_salvage(file: &[u8], out: &mut [u8], list: &mut [u32]) -> Saved
    ensures { ◌≡◌ {A = Saved × List ℕ × List ℕ} (result, out.new, list.new) (salvage_outcome file.now out.old list.old) }
{
    hoengtila::hoengtila_salvage(file, out, list)
}

#[unsafe(no_mangle)]
pub extern "C" fn hoengtila_report_clear(totals: &mut [u64; 578])
    ensures { totals.new ≡ empty }
{
    hoengtila::hoengtila_report_clear(totals);
}

#[unsafe(no_mangle)]
pub extern "C" fn hoengtila_report_add(
    totals: &mut [u64; 578],
    shape: Shape,
    residuals: &[i16],
) -> Answer
    ensures { ◌≡◌ {A = Answer × List ℕ} (result, totals.new) (add_outcome totals.old shape residuals.now) }
{
    hoengtila::hoengtila_report_add(totals, shape, residuals)
}
