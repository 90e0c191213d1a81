// Drives the reader from any cursor: standard input holds a cursor, its place in eight bytes and its shape in seven times four,
// and then a file. Prints a new cursor, the advance's number and tag and its next cursor, and the body. `tests/cursor` holds it to
// the independent model.
#![tactic(auto)]

ghost use Rattle.std.specs.Prelude.{◌≡◌, length};

use file_fields::cursor::Cursor;
use file_input::left_out::LeftOut;
use file_input::read_input;
use meaning::Shape;
use std::io;

// A cursor and somewhat more than a file may have.
fn input_buffer() -> [u8; 65600]
    ensures { 65600 ≡ length result }
{
    [0; 65600]
}

// A cursor from its bytes, high byte first, and the file behind them; none where there are too few.
fn split(bytes: &[u8]) -> Option<(Cursor, &[u8])> {
    let (place, rest) = bytes.split_first_chunk::<8>()?;
    let (shape, file) = rest.split_first_chunk::<28>()?;
    let (words, _) = shape.as_chunks::<4>();
    let shape = Shape {
        width: u32::from_be_bytes(words[0]),
        height: u32::from_be_bytes(words[1]),
        horizontal: u32::from_be_bytes(words[2]),
        vertical: u32::from_be_bytes(words[3]),
        depth: u32::from_be_bytes(words[4]),
        columns: u32::from_be_bytes(words[5]),
        rows: u32::from_be_bytes(words[6]),
    };
    let at = usize::from_be_bytes(*place);
    Some((Cursor { at, shape }, file))
}

fn print_cursor(out: &impl Print, cursor: Cursor) -> io::Result<()> {
    let Cursor { at, shape } = cursor;
    let Shape {
        width,
        height,
        horizontal,
        vertical,
        depth,
        columns,
        rows,
    } = shape;
    println!(out; "{at} {width} {height} {horizontal} {vertical} {depth} {columns} {rows} ")
}

fn print_advance(out: &impl Print, cursor: Cursor, file: &[u8]) -> io::Result<()> {
    print_cursor(out, Cursor::new())?;
    let advance = cursor.advance(file);
    print!(out; "{} {} ", advance.number, advance.tag)?;
    print_cursor(out, advance.next)?;
    out.write_all(cursor.body(file))
}

// What cannot be written is left out, and what comes behind it is tried.
fn main(rt: HostRuntime) {
    let mut input = input_buffer();
    let count = read_input(&mut rt.stdin(), &mut input).count;
    if let Some((cursor, file)) = split(&input[..count]) {
        let _ = print_advance(&LeftOut(&rt), cursor, file);
    }
}
