// The library for C and Rust: the calls of `line`, `block`, `long_block`, `thin_block`, `transform_block`, `why`, `wrapping`, `block_row`,
// `round_trip`, `report`, `step_run`, `step_lists`, `picture` and `salvage` under the names and with the arguments that include/hoengtila.h
// declares, the two that make a shape and a transform block, and the version. A wrapper is one call and has the contract of what it calls; none has a
// `requires`, so whatever numbers and lengths a caller hands over, the contract says what comes back. `hoengtila_c` exports each of them for C.
// For Rattle callers alone are the 4 by 4 block by value (`small_block`), the calls that run two ways side by side (`forward_both`,
// `inverse_both`), the thin block that hands a stretch of an area back (`inverse` of `thin_block`; `work` is here), `empty` of `report` and
// `is_listed` of `step_lists`. Read it beside the header.
#![tactic(auto)]

ghost use Rattle.std.specs.Prelude.{◌≡◌, not, List, ℕ, eqb, ℤ};
ghost use Rattle.meaning.specs.Shape.{shape_of};
ghost use Rattle.meaning.specs.Answer.{Outcome, forward_line_outcome, inverse_line_outcome};
ghost use Rattle.meaning.specs.Inverse.{inverse_outcome};
ghost use Rattle.meaning.specs.Long.{long_outcome};
ghost use Rattle.meaning.specs.Forward.{forward_outcome};
ghost use Rattle.line.specs.Line.{weight_or_zero};
ghost use Rattle.round_trip.specs.RoundTrip.{stray_or_zero};
ghost use Rattle.block_row.specs.Numbers.{shapes_of};
ghost use Rattle.block_row.specs.Row.{RowOutcome, row_outcome};
ghost use Rattle.steps.specs.Numbers.{list_of};
ghost use Rattle.thin_block.specs.Thin.{Areas, thin_outcome};
ghost use Rattle.transform_block.specs.TransformBlock.{block_of, transform_outcome};
ghost use Rattle.steps.specs.Outcome.{Result, steps_outcome};
ghost use Rattle.wrapping.specs.Outcome.{forward_wrapped, inverse_wrapped};
ghost use Rattle.picture.specs.Outcomes.{write_outcome, read_outcome};
ghost use Rattle.salvage.specs.Outcomes.{salvage_outcome};
ghost use Rattle.report.specs.Totals.{empty, add_outcome};
ghost use Rattle.step_lists.specs.Listed.{HandedList, list_outcome, step_line_outcome};
ghost use Rattle.why.specs.Why.{why_outcome, long_why_outcome};
ghost use Rattle.hoengtila.specs.Version.{version};

use meaning::{Answer, Shape};
use picture::read::Picture;
use picture::write::Written;
use salvage::saving::Saved;
use step_lists::Listed;
use steps::StepCount;
use thin_block::Thin;
use transform_block::TransformBlock;
use why::Parts;

pub fn hoengtila_version() -> u32
    ensures { result ≡ version }
{
    301
}

pub fn hoengtila_shape_of(
    width: u32,
    height: u32,
    horizontal: u32,
    vertical: u32,
    depth: u32,
) -> Shape
    ensures { result ≡ shape_of width height horizontal vertical depth }
{
    Shape::new(width, height, horizontal, vertical, depth)
}

pub fn hoengtila_weight(kind: u32, n: u32, i: u32, j: u32) -> i32
    ensures { result ≡ weight_or_zero kind n i j }
{
    line::weight(kind, n, i, j)
}

pub fn hoengtila_stray(kind: u32, n: u32, j: u32) -> u32
    ensures { result ≡ stray_or_zero kind n j }
{
    round_trip::stray(kind, n, j)
}

pub fn hoengtila_line_forward(n: u32, kind: u32, x: &[i16], y: &mut [i32]) -> Answer
    ensures { ◌≡◌ {A = Outcome} (result, y.new) (forward_line_outcome n kind x.now y.old) }
{
    line::forward(n, kind, x, y)
}

pub fn hoengtila_line_inverse(n: u32, kind: u32, x: &[i16], y: &mut [i32]) -> Answer
    ensures { ◌≡◌ {A = Outcome} (result, y.new) (inverse_line_outcome n kind x.now y.old) }
{
    line::inverse(n, kind, x, y)
}

pub fn hoengtila_line_forward_product(n: u32, kind: u32, x: &[i16], y: &mut [i32]) -> Answer
    ensures { ◌≡◌ {A = Outcome} (result, y.new) (forward_line_outcome n kind x.now y.old) }
{
    line::forward_product(n, kind, x, y)
}

pub fn hoengtila_line_inverse_product(n: u32, kind: u32, x: &[i16], y: &mut [i32]) -> Answer
    ensures { ◌≡◌ {A = Outcome} (result, y.new) (inverse_line_outcome n kind x.now y.old) }
{
    line::inverse_product(n, kind, x, y)
}

pub fn hoengtila_line_forward_wrapped(
    n: u32,
    kind: u32,
    start: u32,
    order: &[u32],
    x: &[i16],
    y: &mut [i32],
) -> Answer
    ensures { ◌≡◌ {A = Outcome} (result, y.new) (forward_wrapped n kind order.now x.now y.old) }
{
    wrapping::forward(n, kind, start, order, x, y)
}

pub fn hoengtila_line_inverse_wrapped(
    n: u32,
    kind: u32,
    start: u32,
    order: &[u32],
    x: &[i16],
    y: &mut [i32],
) -> Answer
    ensures { ◌≡◌ {A = Outcome} (result, y.new) (inverse_wrapped n kind order.now x.now y.old) }
{
    wrapping::inverse(n, kind, start, order, x, y)
}

pub fn hoengtila_block_inverse(shape: Shape, coefficients: &[i16], residuals: &mut [i32]) -> Answer
    ensures { ◌≡◌ {A = Outcome} (result, residuals.new) (inverse_outcome shape coefficients.now residuals.old) }
{
    block::inverse(shape, coefficients, residuals)
}

pub fn hoengtila_block_inverse_long(
    shape: Shape,
    extended: u32,
    coefficients: &[i32],
    residuals: &mut [i32],
) -> Answer
    ensures { ◌≡◌ {A = Outcome} (result, residuals.new) (long_outcome (not (eqb extended 0)) shape coefficients.now residuals.old) }
{
    long_block::inverse(shape, extended != 0, coefficients, residuals)
}

pub fn hoengtila_block_inverse_thin(
    shape: Shape,
    coefficients: &[i16],
    first: &mut [i32],
    second: &mut [i32],
) -> Thin
    ensures { ◌≡◌ {A = Areas} (record { answer = result; first = first.new; second = second.new }) (thin_outcome shape coefficients.now first.old second.old) }
{
    thin_block::work(shape, coefficients, first, second)
}

pub fn hoengtila_transform_block_of(
    width: u32,
    height: u32,
    horizontal: u32,
    vertical: u32,
    depth: u32,
) -> TransformBlock
    ensures { result ≡ block_of width height horizontal vertical depth }
{
    TransformBlock::new(width, height, horizontal, vertical, depth)
}

pub fn hoengtila_transform_block_inverse(block: TransformBlock, numbers: &mut [i32]) -> Answer
    ensures { ◌≡◌ {A = Outcome} (result, numbers.new) (transform_outcome block numbers.old) }
{
    transform_block::inverse(block, numbers)
}

pub fn hoengtila_block_forward(shape: Shape, residuals: &[i16], coefficients: &mut [i16]) -> Answer
    ensures { ◌≡◌ {A = Outcome} (result, coefficients.new) (forward_outcome shape residuals.now coefficients.old) }
{
    block::forward(shape, residuals, coefficients)
}

pub fn hoengtila_block_row(
    shapes: &[u32; 448],
    count: usize,
    answers: &mut [u32; 192],
    coefficients: &[i16],
    residuals: &mut [i32],
) -> u32
    ensures { ◌≡◌ {A = RowOutcome} (result, (answers.new, residuals.new)) (row_outcome (shapes_of count shapes.now) answers.old coefficients.now residuals.old) }
{
    block_row::row::row(shapes, count, answers, coefficients, residuals)
}

pub fn hoengtila_block_why(shape: Shape, coefficients: &[i16], place: u32) -> Parts
    ensures { result ≡ why_outcome shape coefficients.now place }
{
    why::parts(shape, coefficients, place)
}

pub fn hoengtila_block_why_long(
    shape: Shape,
    extended: u32,
    coefficients: &[i32],
    place: u32,
) -> Parts
    ensures { result ≡ long_why_outcome (not (eqb extended 0)) shape coefficients.now place }
{
    why::long_parts(shape, extended != 0, coefficients, place)
}

pub fn hoengtila_steps_run(
    inputs: u32,
    cells: u32,
    steps: &[i32],
    outs: &[i32],
    x: &[i16],
    y: &mut [i32],
) -> StepCount
    ensures { ◌≡◌ {A = Result} (result, y.new) (steps_outcome (list_of inputs cells steps.now outs.now) x.now y.old) }
{
    step_run::run::run(inputs, cells, steps, outs, x, y)
}

pub fn hoengtila_steps_list(n: u32, steps: &mut [i32], outs: &mut [i32]) -> Listed
    ensures { ◌≡◌ {A = HandedList} (result, (steps.new, outs.new)) (list_outcome n steps.old outs.old) }
{
    step_lists::list::list(n, steps, outs)
}

pub fn hoengtila_steps_forward(n: u32, x: &[i16], y: &mut [i32]) -> StepCount
    ensures { ◌≡◌ {A = Result} (result, y.new) (step_line_outcome n x.now y.old) }
{
    step_lists::forward::forward(n, x, y)
}

pub fn hoengtila_picture_write(
    width: u32,
    height: u32,
    residuals: &[i32],
    file: &mut [u8],
) -> Written
    ensures { ◌≡◌ {A = Written × List ℕ} (result, file.new) (write_outcome width height residuals.now file.old) }
{
    picture::write::write(width, height, residuals, file)
}

pub fn hoengtila_picture_read(file: &[u8], residuals: &mut [i32]) -> Picture
    ensures { ◌≡◌ {A = Picture × List ℤ} (result, residuals.new) (read_outcome file.now residuals.old) }
{
    picture::read::read(file, residuals)
}

pub fn hoengtila_salvage(file: &[u8], out: &mut [u8], list: &mut [u32]) -> Saved
    ensures { ◌≡◌ {A = Saved × List ℕ × List ℕ} (result, out.new, list.new) (salvage_outcome file.now out.old list.old) }
{
    salvage::saving::salvage(file, out, list)
}

pub fn hoengtila_report_clear(totals: &mut [u64; 578])
    ensures { totals.new ≡ empty }
{
    report::totals::clear(totals);
}

pub fn hoengtila_report_add(totals: &mut [u64; 578], shape: Shape, residuals: &[i16]) -> Answer
    ensures { ◌≡◌ {A = Answer × List ℕ} (result, totals.new) (add_outcome totals.old shape residuals.now) }
{
    report::totals::add(totals, shape, residuals)
}
