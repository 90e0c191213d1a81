// The lines of kind 0, with the weights of 4, 8, 16 or 32 inputs, as many as are read (docs/DECISIONS.md, "Sides of 1 and 2"). What
// lines read stands in arrays of the function that names the number of pairs; outputs are counted to n, which the compiler does not
// know to be the size; and functions of more than 8 points are called from two places, or the compiler would move them into their
// caller: else it makes no vectors, or fewer.
ghost use Rattle.std.specs.Prelude.{◌≡◌};
ghost use Rattle.transform_line.specs.Lines.{lines_of, GivenLines, GivenRun};

use product::lines;
use stage_weights::front;
use tables::zipped::{put_32, zipped_4, zipped_8, zipped_16};
use transform_stages::table::put_64;

pub fn four(
    n: usize,
    count: usize,
    step: usize,
    m: &[i16; 64],
    half: i32,
    shift: u32,
    out: &mut [i32],
)
    requires { GivenLines 4 n count step half shift m.now out.old }
    ensures { out.new ≡ lines_of 0 4 4 count step half shift m.now }
{
    let a = *m;
    let t = zipped_4(0, false);
    lines(2, 8, &a, step, 2, &t, n, count, half, shift, out);
}

pub fn eight(
    n: usize,
    count: usize,
    step: usize,
    m: &[i16; 64],
    half: i32,
    shift: u32,
    out: &mut [i32],
)
    requires { GivenLines 8 n count step half shift m.now out.old }
    ensures { out.new ≡ lines_of 0 8 8 count step half shift m.now }
{
    let a = *m;
    let t = zipped_8(0, false);
    lines(4, 16, &a, step, 2, &t, n, count, half, shift, out);
}

pub fn sixteen(
    live: usize,
    n: usize,
    count: usize,
    step: usize,
    m: &[i16; 64],
    half: i32,
    shift: u32,
    out: &mut [i32],
)
    requires { GivenRun 0 16 n live count step half shift m.now out.old }
    ensures { out.new ≡ lines_of 0 16 live count step half shift m.now }
{
    let a = *m;
    if live <= 4 {
        let mut t = [0i16; 64];
        front(&zipped_16(0, false), 64, &mut t);
        lines(2, 32, &a, step, 2, &t, n, count, half, shift, out);
    } else if live <= 8 {
        let mut t = [0i16; 128];
        front(&zipped_16(0, false), 128, &mut t);
        lines(4, 32, &a, step, 2, &t, n, count, half, shift, out);
    } else {
        let t = zipped_16(0, false);
        lines(8, 32, &a, step, 2, &t, n, count, half, shift, out);
    }
}

pub fn thirty_two(
    live: usize,
    n: usize,
    count: usize,
    step: usize,
    m: &[i16; 64],
    half: i32,
    shift: u32,
    out: &mut [i32],
)
    requires { GivenRun 0 32 n live count step half shift m.now out.old }
    ensures { out.new ≡ lines_of 0 32 live count step half shift m.now }
{
    let a = *m;
    if live <= 4 {
        let mut s = [0i16; 1024];
        put_32(0, false, &mut s);
        let mut t = [0i16; 128];
        front(&s, 128, &mut t);
        lines(2, 64, &a, step, 2, &t, n, count, half, shift, out);
    } else if live <= 8 {
        let mut s = [0i16; 1024];
        put_32(0, false, &mut s);
        let mut t = [0i16; 256];
        front(&s, 256, &mut t);
        lines(4, 64, &a, step, 2, &t, n, count, half, shift, out);
    } else if live <= 16 {
        let mut s = [0i16; 1024];
        put_32(0, false, &mut s);
        let mut t = [0i16; 512];
        front(&s, 512, &mut t);
        lines(8, 64, &a, step, 2, &t, n, count, half, shift, out);
    } else {
        let mut t = [0i16; 1024];
        put_32(0, false, &mut t);
        lines(16, 64, &a, step, 2, &t, n, count, half, shift, out);
    }
}

pub fn sixty_four(
    live: usize,
    n: usize,
    count: usize,
    step: usize,
    m: &[i16; 64],
    half: i32,
    shift: u32,
    out: &mut [i32],
)
    requires { GivenRun 0 64 n live count step half shift m.now out.old }
    ensures { out.new ≡ lines_of 0 64 live count step half shift m.now }
{
    let a = *m;
    if live <= 4 {
        let mut s = [0i16; 2048];
        put_64(&mut s);
        let mut t = [0i16; 256];
        front(&s, 256, &mut t);
        lines(2, 128, &a, step, 2, &t, n, count, half, shift, out);
    } else if live <= 8 {
        let mut s = [0i16; 2048];
        put_64(&mut s);
        let mut t = [0i16; 512];
        front(&s, 512, &mut t);
        lines(4, 128, &a, step, 2, &t, n, count, half, shift, out);
    } else if live <= 16 {
        let mut s = [0i16; 2048];
        put_64(&mut s);
        let mut t = [0i16; 1024];
        front(&s, 1024, &mut t);
        lines(8, 128, &a, step, 2, &t, n, count, half, shift, out);
    } else {
        let mut t = [0i16; 2048];
        put_64(&mut t);
        lines(16, 128, &a, step, 2, &t, n, count, half, shift, out);
    }
}
