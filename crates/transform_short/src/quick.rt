// The quick way of a small block of kind 0 both ways: what is read is clipped into a room in one pass, which says too that nothing is
// outside the range. Where it cannot say so, the block stands as it was, and takes the ordinary way.
ghost use Rattle.transform_short.specs.Short.{dct2_shape, GivenQuick, Quick};

use crate::staged::{by_call, staged};
use clipping::clip_read;
use dct2_four::both;
use meaning::Shape;

// 4 by 4. The fields come as numbers: as a struct they would be copied right after they were stored (docs/DECISIONS.md).
pub fn quick_four(
    width: u32,
    height: u32,
    depth: u32,
    columns: u32,
    rows: u32,
    numbers: &mut [i32],
    rails: &mut u32,
) -> bool
    requires { GivenQuick (dct2_shape width height depth columns rows) 16 numbers.old }
    ensures { Quick (dct2_shape width height depth columns rows) numbers.old result rails.new numbers.new }
{
    let n = numbers.len();
    let w = width as usize;
    let mut room = [0i16; 16];
    if !clip_read(numbers, w, columns as usize, rows as usize, &mut room) {
        return false;
    }
    if both(&room[..n], w, 20 - depth, numbers) {
        let shape = Shape {
            width,
            height,
            horizontal: 0,
            vertical: 0,
            depth,
            columns,
            rows,
        };
        *rails = by_call(shape, &room[..n], numbers);
        return true;
    }
    *rails = 0;
    true
}

fn quick_tiny(
    width: u32,
    height: u32,
    depth: u32,
    columns: u32,
    rows: u32,
    numbers: &mut [i32],
    rails: &mut u32,
) -> bool
    requires { GivenQuick (dct2_shape width height depth columns rows) 64 numbers.old }
    ensures { Quick (dct2_shape width height depth columns rows) numbers.old result rails.new numbers.new }
{
    let n = numbers.len();
    let mut room = [0i16; 64];
    if !clip_read(
        numbers,
        width as usize,
        columns as usize,
        rows as usize,
        &mut room,
    ) {
        return false;
    }
    let shape = Shape {
        width,
        height,
        horizontal: 0,
        vertical: 0,
        depth,
        columns,
        rows,
    };
    *rails = staged(shape, &room[..n], numbers);
    true
}

// Whether the block was worked; its rail count goes to `rails`.
pub fn quick(
    width: u32,
    height: u32,
    depth: u32,
    columns: u32,
    rows: u32,
    numbers: &mut [i32],
    rails: &mut u32,
) -> bool
    requires { GivenQuick (dct2_shape width height depth columns rows) 1024 numbers.old }
    ensures { Quick (dct2_shape width height depth columns rows) numbers.old result rails.new numbers.new }
{
    if numbers.len() <= 16 {
        return quick_four(width, height, depth, columns, rows, numbers, rails);
    }
    if numbers.len() <= 64 {
        return quick_tiny(width, height, depth, columns, rows, numbers, rails);
    }
    false
}
