// Lines of 4 to 64 points, one or two, by the function of their kind and size.
ghost use Rattle.std.specs.Prelude.{◌≡◌, min};
ghost use Rattle.transform_line.specs.Lines.{lines_of, GivenRun};

use crate::{other, zero};

// Kind 0. One line and two are different calls: see zero.
fn zeros(
    size: usize,
    live: usize,
    n: usize,
    count: usize,
    step: usize,
    m: &[i16; 64],
    half: i32,
    shift: u32,
    out: &mut [i32],
)
    requires { GivenRun 0 size n live count step half shift m.now out.old }
    ensures { out.new ≡ lines_of 0 size live count step half shift m.now }
{
    if size == 4 {
        zero::four(n, count, step, m, half, shift, out);
    } else if size == 8 {
        zero::eight(n, count, step, m, half, shift, out);
    } else if size == 16 {
        if count == 1 {
            zero::sixteen(live, n, 1, step, m, half, shift, out);
        } else {
            zero::sixteen(live, n, count, step, m, half, shift, out);
        }
    } else if size == 32 {
        if count == 1 {
            zero::thirty_two(live, n, 1, step, m, half, shift, out);
        } else {
            zero::thirty_two(live, n, count, step, m, half, shift, out);
        }
    } else if count == 1 {
        zero::sixty_four(live, n, 1, step, m, half, shift, out);
    } else {
        zero::sixty_four(live, n, count, step, m, half, shift, out);
    }
}

// Kinds 1 and 2.
fn others(
    kind: u32,
    size: usize,
    live: usize,
    n: usize,
    count: usize,
    step: usize,
    m: &[i16; 64],
    half: i32,
    shift: u32,
    out: &mut [i32],
)
    requires { GivenRun kind size n live count step half shift m.now out.old × (kind ≡ 0 → ⊥) }
    ensures { out.new ≡ lines_of kind size live count step half shift m.now }
{
    if size == 4 {
        other::four(kind, n, count, step, m, half, shift, out);
    } else if size == 8 {
        other::eight(kind, n, count, step, m, half, shift, out);
    } else if size == 16 {
        other::sixteen(kind, n, count, step, m, half, shift, out);
    } else {
        other::thirty_two(kind, n, count, step, m, half, shift, out);
    }
}

pub fn lines_of(
    kind: u32,
    size: usize,
    live: usize,
    n: usize,
    count: usize,
    step: usize,
    m: &[i16; 64],
    half: i32,
    shift: u32,
    out: &mut [i32],
)
    requires { GivenRun kind size n live count step half shift m.now out.old }
    ensures { out.new ≡ lines_of kind size live count step half shift m.now }
{
    if kind == 0 {
        zeros(size, live, n, count, step, m, half, shift, out);
    } else {
        others(kind, size, live, n, count, step, m, half, shift, out);
    }
}

// How far two lines of n points stand apart: as far as they are read at most.
pub fn step_of(n: usize) -> usize
    ensures { result ≡ min n 32 }
{
    n.min(32)
}
