// A line of the table: a call on the first `input` numbers of a block, with an output of `output` numbers.
ghost use Rattle.std.specs.Prelude.{◌≤◌};

use crate::numbers::{marks, widened};
use crate::print::Output;
use meaning::{Answer, Shape};
use std::fmt::Display;
use std::io;

#[derive(Clone, Copy)]
pub enum Direction {
    Inverse,
    Forward,
}

// The rest of a line: `output` is what a call left.
fn end(
    to: &impl Print,
    shape: Shape,
    input: usize,
    answer: Answer,
    output: &[i32],
) -> io::Result<()> {
    let Shape {
        width,
        height,
        horizontal,
        vertical,
        depth,
        columns,
        rows,
    } = shape;
    let Answer {
        number,
        place,
        rails,
    } = answer;
    print!(to; " {width} {height} {horizontal} {vertical} {depth} {columns} {rows}")?;
    print!(to; " {input} {} {number} {place} {rails}", output.len())?;
    println!(to; " changes {}", Output(output))
}

fn inverse(
    to: &impl Print,
    shape: Shape,
    numbers: &[i16; 1024],
    input: usize,
    output: usize,
) -> io::Result<()>
    requires { (input ≤ 1024) × (output ≤ 1024) }
{
    let mut out = widened(marks());
    let out = &mut out[..output];
    let answer = block::inverse(shape, &numbers[..input], out);
    to.print(": inverse")?;
    end(to, shape, input, answer, out)
}

fn forward(
    to: &impl Print,
    shape: Shape,
    numbers: &[i16; 1024],
    input: usize,
    output: usize,
) -> io::Result<()>
    requires { (input ≤ 1024) × (output ≤ 1024) }
{
    let mut out = marks();
    let answer = block::forward(shape, &numbers[..input], &mut out[..output]);
    to.print(": forward")?;
    end(to, shape, input, answer, &widened(out)[..output])
}

// `lead` says what stands in the block.
pub fn line(
    to: &impl Print,
    lead: impl Display + Drop,
    direction: Direction,
    shape: Shape,
    numbers: &[i16; 1024],
    input: usize,
    output: usize,
) -> io::Result<()> {
    to.print(lead)?;
    if 1024 < input || 1024 < output {
        return Ok(());
    }
    match direction {
        Direction::Inverse => inverse(to, shape, numbers, input, output),
        Direction::Forward => forward(to, shape, numbers, input, output),
    }
}
