// The forward line of kind 0: the line of half the points over x[j] + x[n-1-j] gives the even outputs, the odd rows over
// x[j] - x[n-1-j] the odd ones, down to 4 points. Exact, in 32 bits: n times the largest number is at most 32 * 32768 at each step.
ghost use Rattle.std.specs.Prelude.{◌≡◌, ◌+◌, ◌*◌, ◌<◌, ◌*ℤ◌, length};
ghost use Rattle.algebra.specs.Sum.{sum};
ghost use Rattle.algebra.specs.Lists.{at, tabulate};
ghost use Rattle.meaning.specs.Line.{forward_sum, forward_line};
ghost use Rattle.meaning.specs.Taken.{TakenLine, NoneAbove};
ghost use Rattle.halves.specs.Halves.{Halves, odd, end_sums, end_differences};
ghost use Rattle.dct2_line.specs.Lines.{Half, Row, SmallLine};

use crate::arith::{both, minus, times};
use crate::table::{odd_8, odd_16, odd_32};
use product::plus;

// The inputs in 32 bits; each was one of 16.
fn widen(x: &[i16], a: &mut [i32])
    requires { length x.now ≡ length a.old }
    ensures { (a.new ≡ tabulate (length a.old) (at x.now)) × NoneAbove 32768 x.now }
{
    for i in 0..a.len() {
        a[i] = i32::from(x[i]);
    }
}

// The row of h weights from o on, over v.
fn row(t: &[i16], o: usize, h: usize, v: &[i32]) -> i32
    requires { Row h o t.now × SmallLine h v.now }
    ensures { result ≡ sum h (λ j. at t.now (2 * j + o) *ℤ at v.now j) }
{
    let mut total = 0;
    for j in 0..h {
        total = times(total, t[2 * j + o], v[j]);
    }
    total
}

// x[j] + x[n-1-j] and x[j] - x[n-1-j]
fn fold(x: &[i32], h: usize, s: &mut [i32], d: &mut [i32])
    requires { SmallLine (h + h) x.now × ((length s.old ≡ h) × (length d.old ≡ h)) }
    ensures { (s.new ≡ tabulate h (end_sums (h + h) (at x.now))) × (d.new ≡ tabulate h (end_differences (h + h) (at x.now))) }
{
    for j in 0..h {
        s[j] = plus(x[j], x[h + h - 1 - j]);
        d[j] = minus(x[j], x[h + h - 1 - j]);
    }
}

// The even outputs from the line of h points, the odd ones from the differences.
fn weave(t: &[i16], h: usize, x: &[i32], e: &[i32], d: &[i32], out: &mut [i32])
    requires { (Half (odd (h + h)) h t.now × Halves (h + h) h) × (SmallLine h d.now × ((e.now ≡ tabulate h (forward_sum 0 h (end_sums (h + h) (at x.now)))) × ((d.now ≡ tabulate h (end_differences (h + h) (at x.now))) × (length out.old ≡ h + h)))) }
    ensures { out.new ≡ tabulate (h + h) (forward_sum 0 (h + h) (at x.now)) }
{
    for i in 0..h {
        out[2 * i] = e[i];
        out[2 * i + 1] = row(t, i / 2 * (2 * h) + i % 2, h, d);
    }
}

// 4 points: two sums by 64 and 64, two differences by 83 and 36.
fn forward_4(x: &[i32], out: &mut [i32])
    requires { SmallLine 4 x.now × (length out.old ≡ 4) }
    ensures { out.new ≡ tabulate 4 (forward_sum 0 4 (at x.now)) }
{
    let s = plus(x[0], x[3]);
    let t = plus(x[1], x[2]);
    let c = minus(x[0], x[3]);
    let d = minus(x[1], x[2]);
    out[0] = both(64, s, 64, t);
    out[1] = both(83, c, 36, d);
    out[2] = both(64, s, -64, t);
    out[3] = both(36, c, -83, d);
}

fn forward_8(x: &[i32], out: &mut [i32])
    requires { SmallLine 8 x.now × (length out.old ≡ 8) }
    ensures { out.new ≡ tabulate 8 (forward_sum 0 8 (at x.now)) }
{
    let mut s = [0i32; 4];
    let mut d = [0i32; 4];
    fold(x, 4, &mut s, &mut d);
    let mut e = [0i32; 4];
    forward_4(&s, &mut e);
    let t = odd_8();
    weave(&t, 4, x, &e, &d, out);
}

fn forward_16(x: &[i32], out: &mut [i32])
    requires { SmallLine 16 x.now × (length out.old ≡ 16) }
    ensures { out.new ≡ tabulate 16 (forward_sum 0 16 (at x.now)) }
{
    let mut s = [0i32; 8];
    let mut d = [0i32; 8];
    fold(x, 8, &mut s, &mut d);
    let mut e = [0i32; 8];
    forward_8(&s, &mut e);
    let t = odd_16();
    weave(&t, 8, x, &e, &d, out);
}

fn forward_32(x: &[i32], out: &mut [i32])
    requires { SmallLine 32 x.now × (length out.old ≡ 32) }
    ensures { out.new ≡ tabulate 32 (forward_sum 0 32 (at x.now)) }
{
    let mut s = [0i32; 16];
    let mut d = [0i32; 16];
    fold(x, 16, &mut s, &mut d);
    let mut e = [0i32; 16];
    forward_16(&s, &mut e);
    let t = odd_32();
    weave(&t, 16, x, &e, &d, out);
}

/// The forward line of kind 0.
pub fn forward(n: usize, x: &[i16], y: &mut [i32])
    requires { TakenLine n 0 (length x.now) (length y.old) }
    ensures { y.new ≡ forward_line 0 n (at x.now) }
{
    match n {
        4 => {
            let mut a = [0i32; 4];
            widen(x, &mut a);
            forward_4(&a, y);
        }
        8 => {
            let mut a = [0i32; 8];
            widen(x, &mut a);
            forward_8(&a, y);
        }
        16 => {
            let mut a = [0i32; 16];
            widen(x, &mut a);
            forward_16(&a, y);
        }
        _ => {
            let mut a = [0i32; 32];
            widen(x, &mut a);
            forward_32(&a, y);
        }
    }
}
