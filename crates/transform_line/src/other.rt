// The lines of kinds 1 and 2, of which at most 16 inputs are read.
ghost use Rattle.std.specs.Prelude.{◌≡◌};
ghost use Rattle.transform_line.specs.Lines.{lines_of, GivenLines};

use product::lines;
use stage_weights::front;
use tables::zipped::{put_32, zipped_4, zipped_8, zipped_16};

pub fn four(
    kind: u32,
    n: usize,
    count: usize,
    step: usize,
    m: &[i16; 64],
    half: i32,
    shift: u32,
    out: &mut [i32],
)
    requires { GivenLines 4 n count step half shift m.now out.old }
    ensures { out.new ≡ lines_of kind 4 4 count step half shift m.now }
{
    let a = *m;
    let t = zipped_4(kind, false);
    lines(2, 8, &a, step, 2, &t, n, count, half, shift, out);
}

pub fn eight(
    kind: u32,
    n: usize,
    count: usize,
    step: usize,
    m: &[i16; 64],
    half: i32,
    shift: u32,
    out: &mut [i32],
)
    requires { GivenLines 8 n count step half shift m.now out.old }
    ensures { out.new ≡ lines_of kind 8 8 count step half shift m.now }
{
    let a = *m;
    let t = zipped_8(kind, false);
    lines(4, 16, &a, step, 2, &t, n, count, half, shift, out);
}

pub fn sixteen(
    kind: u32,
    n: usize,
    count: usize,
    step: usize,
    m: &[i16; 64],
    half: i32,
    shift: u32,
    out: &mut [i32],
)
    requires { GivenLines 16 n count step half shift m.now out.old }
    ensures { out.new ≡ lines_of kind 16 16 count step half shift m.now }
{
    let a = *m;
    let t = zipped_16(kind, false);
    lines(8, 32, &a, step, 2, &t, n, count, half, shift, out);
}

pub fn thirty_two(
    kind: u32,
    n: usize,
    count: usize,
    step: usize,
    m: &[i16; 64],
    half: i32,
    shift: u32,
    out: &mut [i32],
)
    requires { GivenLines 32 n count step half shift m.now out.old }
    ensures { out.new ≡ lines_of kind 32 16 count step half shift m.now }
{
    let a = *m;
    let mut s = [0i16; 1024];
    put_32(kind, false, &mut s);
    let mut t = [0i16; 512];
    front(&s, 512, &mut t);
    lines(8, 64, &a, step, 2, &t, n, count, half, shift, out);
}
