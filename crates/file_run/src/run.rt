// "A program that reads a file of blocks and prints answers": the whole run, into a buffer.
ghost use Rattle.std.specs.Prelude.{◌≡◌, List, ℕ, ◌+◌, ◌*◌, ◌≤◌, pos, length};
ghost use Rattle.algebra.specs.Lists.{at};
ghost use Rattle.file_numbers.specs.Numbers.{numbers};
ghost use Rattle.file_run.specs.Run.{blank, refused_turn, inverse_turn, forward_turn, turn_at, run_outcome};
ghost use Rattle.file_fields.specs.Body.{Fits};
ghost use Rattle.file_run.specs.Does.{Does, Follows};

use file_fields::cursor::Cursor;
use file_numbers::bytes::read_numbers;
use file_text::text::{put_forward, put_inverse, put_refusal};
use meaning::Shape;

// What a turn hands back: the place behind its text, what the run hands back if it ends with it, and the next cursor.
#[derive(Clone, Copy)]
struct TurnDone {
    at: usize,
    ending: Option<u32>,
    next: Cursor,
}

/// What a run hands back: the length of its text, and the number of the refusal that ended it or 0.
#[derive(Clone, Copy)]
pub struct RunDone {
    pub length: usize,
    pub number: u32,
}

// "The first refusal ends the run".
fn refused(number: u32, offset: usize, next: Cursor, text: &mut [u8], at: usize) -> TurnDone
    requires { (offset ≤ 65536) × (at + 24 ≤ length text.old) }
    ensures { Does (refused_turn number offset next) 24 at text.old text.new result }
{
    let end = put_refusal(number, offset as u32, text, at);
    TurnDone {
        at: end,
        ending: Some(number),
        next,
    }
}

// Runs the inverse, and puts its line.
fn inverse_line(
    shape: Shape,
    coefficients: &[i16],
    residuals: &mut [i32],
    offset: usize,
    next: Cursor,
    text: &mut [u8],
    at: usize,
) -> TurnDone
    requires { (residuals.old ≡ blank shape) × (offset ≤ 65536) × (at + (35 + 12 * length residuals.old) ≤ length text.old) }
    ensures { Does (inverse_turn shape coefficients.now offset next) (35 + 12 * length residuals.old) at text.old text.new result }
{
    let answer = block::inverse(shape, coefficients, residuals);
    if answer.number != 0 {
        return refused(answer.number, offset, next, text, at);
    }
    let end = put_inverse(shape.width, shape.height, answer.rails, residuals, text, at);
    TurnDone {
        at: end,
        ending: None,
        next,
    }
}

// Runs the forward, and puts its line.
fn forward_line(
    shape: Shape,
    residuals: &[i16],
    coefficients: &mut [i16],
    offset: usize,
    next: Cursor,
    text: &mut [u8],
    at: usize,
) -> TurnDone
    requires { (coefficients.old ≡ blank shape) × (offset ≤ 65536) × (at + (24 + 12 * length coefficients.old) ≤ length text.old) }
    ensures { Does (forward_turn shape residuals.now offset next) (24 + 12 * length coefficients.old) at text.old text.new result }
{
    let answer = block::forward(shape, residuals, coefficients);
    if answer.number != 0 {
        return refused(answer.number, offset, next, text, at);
    }
    let end = put_forward(shape.width, shape.height, coefficients, text, at);
    TurnDone {
        at: end,
        ending: None,
        next,
    }
}

// A buffer for the numbers of a block.
fn narrow_zeros() -> [i16; 1024]
    ensures { (length result ≡ 1024) × ((k : ℕ) → at result k ≡ pos 0) }
{
    [0; 1024]
}

// A buffer for residuals.
fn wide_zeros() -> [i32; 1024]
    ensures { (length result ≡ 1024) × ((k : ℕ) → at result k ≡ pos 0) }
{
    [0; 1024]
}

// "Tag 02: coefficients, 2 bytes each: run the inverse".
fn inverse_turn(
    shape: Shape,
    body: &[u8],
    offset: usize,
    next: Cursor,
    text: &mut [u8],
    at: usize,
) -> TurnDone
    requires { Fits shape body.now × (offset ≤ 65536) × (at + 12323 ≤ length text.old) }
    ensures { Does (inverse_turn shape (numbers body.now) offset next) (35 + 6 * length body.now) at text.old text.new result }
{
    let n = body.len() / 2;
    let mut coefficients = narrow_zeros();
    read_numbers(body, &mut coefficients[..n]);
    let mut residuals = wide_zeros();
    inverse_line(
        shape,
        &coefficients[..n],
        &mut residuals[..n],
        offset,
        next,
        text,
        at,
    )
}

// "Tag 03: residuals, 2 bytes each: run the forward".
fn forward_turn(
    shape: Shape,
    body: &[u8],
    offset: usize,
    next: Cursor,
    text: &mut [u8],
    at: usize,
) -> TurnDone
    requires { Fits shape body.now × (offset ≤ 65536) × (at + 12323 ≤ length text.old) }
    ensures { Does (forward_turn shape (numbers body.now) offset next) (35 + 6 * length body.now) at text.old text.new result }
{
    let n = body.len() / 2;
    let mut residuals = narrow_zeros();
    read_numbers(body, &mut residuals[..n]);
    let mut coefficients = narrow_zeros();
    forward_line(
        shape,
        &residuals[..n],
        &mut coefficients[..n],
        offset,
        next,
        text,
        at,
    )
}

// The field at the cursor's place: a refusal, a block, a shape or its kept part, or the end.
fn turn(file: &[u8], cursor: Cursor, text: &mut [u8], at: usize) -> TurnDone
    requires { (cursor.at ≤ 65536) × (at + 12323 ≤ length text.old) }
    ensures { Does (turn_at file.now cursor) 12323 at text.old text.new result × Follows cursor.at at result }
{
    let advance = cursor.advance(file);
    let next = advance.next;
    let offset = cursor.at;
    let shape = cursor.shape;
    if advance.number != 0 {
        return refused(advance.number, offset, next, text, at);
    }
    match advance.tag {
        0 => TurnDone {
            at,
            ending: Some(0),
            next,
        },
        2 => inverse_turn(shape, cursor.body(file), offset, next, text, at),
        3 => forward_turn(shape, cursor.body(file), offset, next, text, at),
        _ => TurnDone {
            at,
            ending: None,
            next,
        },
    }
}

/// Puts what the file prints at the start of `text`. Any bytes.
pub fn run(file: &[u8], text: &mut [u8; 524288]) -> RunDone
    ensures { ◌≡◌ {A = RunDone × List ℕ} (result, text.new) (run_outcome file.now text.old) }
{
    let mut cursor = Cursor::new();
    let mut at = 0;
    // no `for`: each field says where the next one starts
    'turns: loop {
        let done = turn(file, cursor, text, at);
        at = done.at;
        if let Some(number) = done.ending {
            return RunDone { length: at, number };
        }
        cursor = done.next;
    }
}
