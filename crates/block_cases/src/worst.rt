// Blocks of the largest numbers that a call takes, at every width, height and pair of kinds, keeping the most and less.
use crate::call::{Direction, line};
use crate::numbers::filled;
use meaning::Shape;
use std::io;

// In every place that counts: those that are kept, or all of a forward block.
fn blocks(
    out: &impl Print,
    direction: Direction,
    shape: Shape,
    elements: usize,
    high: i16,
    low: i16,
) -> io::Result<()> {
    let (columns, rows) = match direction {
        Direction::Inverse => (shape.columns as usize, shape.rows as usize),
        Direction::Forward => (32, 32),
    };
    for (lead, even, odd) in [
        ("high", high, high),
        ("low", low, low),
        ("by turns", high, low),
    ] {
        let numbers = filled(shape.width, columns, rows, even, odd);
        line(out, lead, direction, shape, &numbers, elements, elements)?;
    }
    Ok(())
}

// Never none.
fn fewer(n: u32, by: u32) -> u32 {
    n.saturating_sub(by).max(1)
}

// Every width, height and pair of kinds, with so many columns and rows less than the most.
fn shapes(
    out: &impl Print,
    direction: Direction,
    depth: u32,
    high: i16,
    low: i16,
    columns: u32,
    rows: u32,
) -> io::Result<()> {
    for k in 0..144 {
        let x = k / 36;
        let y = k / 9 % 4;
        let most = Shape::new(4 << x, 4 << y, k / 3 % 3, k % 3, depth);
        let shape = most.keeping(fewer(most.columns, columns), fewer(most.rows, rows));
        blocks(out, direction, shape, 16 << (x + y), high, low)?;
    }
    Ok(())
}

// Every kept coefficient; the second half of item 8 before.
pub fn inverse(out: &impl Print) -> io::Result<()> {
    blocks(
        out,
        Direction::Inverse,
        Shape::new(4, 4, 1, 1, 10),
        16,
        32767,
        -32768,
    )?;
    shapes(out, Direction::Inverse, 8, 32767, -32768, 0, 0)?;
    shapes(out, Direction::Inverse, 12, 32767, -32768, 0, 0)?;
    shapes(out, Direction::Inverse, 10, 32767, -32768, 1, 3)?;
    shapes(out, Direction::Inverse, 9, 32767, -32768, 12, 0)
}

// Every residual; item 5 before, and item 4 is the first of the others.
pub fn forward(out: &impl Print) -> io::Result<()> {
    blocks(
        out,
        Direction::Forward,
        Shape::new(4, 4, 1, 1, 8),
        16,
        256,
        -256,
    )?;
    shapes(out, Direction::Forward, 8, 255, -255, 0, 0)?;
    shapes(out, Direction::Forward, 9, 511, -511, 0, 0)?;
    shapes(out, Direction::Forward, 10, 1023, -1023, 0, 0)?;
    shapes(out, Direction::Forward, 11, 2047, -2047, 0, 0)?;
    shapes(out, Direction::Forward, 12, 4095, -4095, 0, 0)?;
    shapes(out, Direction::Forward, 10, 1023, -1023, 3, 1)?;
    shapes(out, Direction::Forward, 12, 4095, -4095, 0, 12)
}
