// A row of inverse blocks: a count with 64 shapes, one buffer of all inputs, one of all outputs, and room for 64 answers.
ghost use Rattle.std.specs.Prelude.{◌≡◌, ◌≤◌, length};
ghost use Rattle.algebra.specs.Refusals.{number_of};
ghost use Rattle.meaning.specs.Refusal.{number_in};
ghost use Rattle.block_row.specs.Numbers.{shapes_of};
ghost use Rattle.block_row.specs.Row.{span, spans, Answered, row_answers, row_tests, RowOutcome, row_outcome};

use crate::numbers::{put, row_shape};
use meaning::{Refusal, Shape, is_size, length_refusal};

// How long a block's stretch of both buffers is.
fn span_of(shape: Shape) -> usize
    ensures { result ≡ span shape }
{
    if is_size(shape.width) && is_size(shape.height) {
        shape.width as usize * shape.height as usize
    } else {
        0
    }
}

// How long both buffers are.
fn total(shapes: &[u32; 448], count: usize) -> usize
    requires { count ≤ 64 }
    ensures { result ≡ spans (shapes_of count shapes.now) }
{
    let mut sum = 0;
    for i in 0..count {
        sum += span_of(row_shape(shapes, i));
    }
    sum
}

// 16, 6 and 7 of the whole call.
fn row_refusal(
    shapes: &[u32; 448],
    count: usize,
    input: usize,
    output: usize,
) -> Result<(), Refusal>
    ensures { number_in result ≡ number_of (row_tests (shapes_of count shapes.now) input output) }
{
    if count > 64 {
        return Err(Refusal::TooManyBlocks);
    }
    let sum = total(shapes, count);
    length_refusal(sum, input, output)
}

// The blocks of a row that was taken, one after the other.
fn each(
    shapes: &[u32; 448],
    count: usize,
    answers: &mut [u32; 192],
    coefficients: &[i16],
    residuals: &mut [i32],
)
    requires { number_of (row_tests (shapes_of count shapes.now) (length coefficients.now) (length residuals.old)) ≡ 0 }
    ensures { ◌≡◌ {A = Answered} (answers.new, residuals.new) (row_answers (shapes_of count shapes.now) answers.old coefficients.now residuals.old) }
{
    let mut start = 0;
    for k in 0..count {
        let shape = row_shape(shapes, k);
        let end = start + span_of(shape);
        let answer = block::inverse(shape, &coefficients[start..end], &mut residuals[start..end]);
        put(answers, k, answer);
        start = end;
    }
}

/// The inverses of up to 64 blocks: an answer for each of the first `count` shapes. Any numbers, any buffers.
pub fn row(
    shapes: &[u32; 448],
    count: usize,
    answers: &mut [u32; 192],
    coefficients: &[i16],
    residuals: &mut [i32],
) -> u32
    ensures { ◌≡◌ {A = RowOutcome} (result, (answers.new, residuals.new)) (row_outcome (shapes_of count shapes.now) answers.old coefficients.now residuals.old) }
{
    if let Err(refusal) = row_refusal(shapes, count, coefficients.len(), residuals.len()) {
        return refusal.number();
    }
    each(shapes, count, answers, coefficients, residuals);
    0
}
