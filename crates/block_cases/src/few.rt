// Blocks in which one or two numbers are not 0.
use crate::call::{Direction, line};
use crate::cases;
use crate::numbers::only;
use meaning::Shape;
use std::io;

fn row(
    out: &impl Print,
    direction: Direction,
    number: i16,
    other: i16,
    row: [u32; 11],
) -> io::Result<()> {
    let [
        width,
        height,
        horizontal,
        vertical,
        depth,
        columns,
        rows,
        input,
        output,
        place,
        next,
    ] = row;
    let most = Shape::new(width, height, horizontal, vertical, depth);
    let numbers = only(place as usize, number, next as usize, other);
    line(
        out,
        format_args!("at {place} {number} {next} {other}"),
        direction,
        most.keeping(columns, rows),
        &numbers,
        input as usize,
        output as usize,
    )
}

fn rows(
    out: &impl Print,
    direction: Direction,
    number: i16,
    other: i16,
    table: &[[u32; 11]],
) -> io::Result<()> {
    for each in table {
        row(out, direction, number, other, *each)?;
    }
    Ok(())
}

// Items 7 to 10, and kind 0 beside 8; 4, 5 and the second half of 8 are among the worst cases.
pub fn items(out: &impl Print) -> io::Result<()> {
    row(out, Direction::Inverse, 32767, 21063, cases::ITEM_7)?;
    row(out, Direction::Inverse, 32767, 21064, cases::ITEM_7)?;
    row(out, Direction::Inverse, 32767, 21066, cases::ITEM_7)?;
    row(out, Direction::Inverse, 64, 0, cases::ITEM_8)?;
    row(out, Direction::Inverse, 64, 0, cases::FLAT)?;
    row(out, Direction::Inverse, 1000, 0, cases::ITEM_9)?;
    row(out, Direction::Inverse, 0, 1000, cases::ITEM_9)?;
    row(out, Direction::Inverse, 0, 0, cases::ITEM_10)?;
    row(out, Direction::Forward, 0, 0, cases::ITEM_10)
}

// 1 to 7 and 20 alone, and the order of all: 4096 at place 16 is 8's for the inverse and 9's for the forward.
pub fn refusals(out: &impl Print, direction: Direction) -> io::Result<()> {
    rows(out, direction, 0, 0, &cases::ALONE)?;
    rows(out, direction, 4096, 4096, &cases::ORDER)
}

pub fn outside(out: &impl Print) -> io::Result<()> {
    rows(out, Direction::Inverse, 1, -1, &cases::OUTSIDE)?;
    rows(out, Direction::Inverse, -32768, 32767, &cases::OUTSIDE)
}

pub fn too_large(out: &impl Print) -> io::Result<()> {
    row(out, Direction::Forward, -256, 256, cases::SMALL)?;
    row(out, Direction::Forward, 256, -255, cases::SMALL)?;
    row(out, Direction::Forward, -255, -32768, cases::SMALL)?;
    row(out, Direction::Forward, 255, -255, cases::SMALL)?;
    row(out, Direction::Forward, 4096, -4096, cases::LARGE)?;
    row(out, Direction::Forward, -4096, 4095, cases::LARGE)?;
    row(out, Direction::Forward, -4095, 4095, cases::LARGE)
}
