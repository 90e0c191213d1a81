// The inverse line of kind 0: the line of half the points over the even inputs, the odd half, and the butterfly. Each size is one
// call of the size below it and one step, down to 4 points, whose halves are two numbers each. The odd halves above are products by
// pairs. Inputs are the numbers of x `apart` places apart, dealt out side by side for each product.
ghost use Rattle.std.specs.Prelude.{◌≡◌, ℕ, ◌+◌, ◌*◌, ◌<◌, length};
ghost use Rattle.algebra.specs.Lists.{at, tabulate};
ghost use Rattle.meaning.specs.Line.{inverse_sum, inverse_line};
ghost use Rattle.meaning.specs.Taken.{TakenLine, NoneAbove};
ghost use Rattle.dct2_line.specs.Lines.{strided, Inputs, HalfSums, Joined};

use crate::arith::{both, minus};
use crate::table::{odd_8, odd_16, odd_32};
use product::{line, plus};

// What reading tells of each input: in 16 bits, a size of at most 32768. The compiler sees that this does nothing.
fn read(x: &[i16])
    ensures { NoneAbove 32768 x.now }
{
    for i in 0..x.len() {
        let z = x[i];
    }
}

// The inputs at from, from + step, from + 2 * step, .., side by side.
fn deal(x: &[i16], from: usize, step: usize, a: &mut [i16])
    requires { (i : ℕ) → i < length a.old → from + i * step < length x.now }
    ensures { a.new ≡ tabulate (length a.old) (λ i. at x.now (from + i * step)) }
{
    for i in 0..a.len() {
        a[i] = x[from + i * step];
    }
}

// z[j] = E[j] + O[j], z[n-1-j] = E[j] - O[j]
fn butterfly(e: &[i32], o: &[i32], h: usize, out: &mut [i32])
    requires { HalfSums h e.now o.now × (length out.old ≡ h + h) }
    ensures { Joined h h e.now o.now out.new }
{
    for j in 0..h {
        out[j] = plus(e[j], o[j]);
        out[h + h - 1 - j] = minus(e[j], o[j]);
    }
}

// 4 points: two even inputs by 64 and 64, two odd ones by 83 and 36.
fn inverse_4(x: &[i16], apart: usize, out: &mut [i32])
    requires { Inputs 4 apart x.now × (length out.old ≡ 4) }
    ensures { out.new ≡ tabulate 4 (inverse_sum 0 4 4 (strided x.now apart)) }
{
    let a = i32::from(x[0]);
    let b = i32::from(x[2 * apart]);
    let c = i32::from(x[apart]);
    let d = i32::from(x[3 * apart]);
    let e = [both(64, a, 64, b), both(64, a, -64, b)];
    let o = [both(83, c, 36, d), both(36, c, -83, d)];
    butterfly(&e, &o, 2, out);
}

fn inverse_8(x: &[i16], apart: usize, out: &mut [i32])
    requires { Inputs 8 apart x.now × (length out.old ≡ 8) }
    ensures { out.new ≡ tabulate 8 (inverse_sum 0 8 8 (strided x.now apart)) }
{
    let mut e = [0i32; 4];
    inverse_4(x, 2 * apart, &mut e);
    let mut a = [0i16; 4];
    deal(x, apart, 2 * apart, &mut a);
    let t = odd_8();
    let mut o = [0i32; 4];
    line(2, 8, &a, 0, 2, &t, 0, 0, &mut o);
    butterfly(&e, &o, 4, out);
}

fn inverse_16(x: &[i16], apart: usize, out: &mut [i32])
    requires { Inputs 16 apart x.now × (length out.old ≡ 16) }
    ensures { out.new ≡ tabulate 16 (inverse_sum 0 16 16 (strided x.now apart)) }
{
    let mut e = [0i32; 8];
    inverse_8(x, 2 * apart, &mut e);
    let mut a = [0i16; 8];
    deal(x, apart, 2 * apart, &mut a);
    let t = odd_16();
    let mut o = [0i32; 8];
    line(4, 16, &a, 0, 2, &t, 0, 0, &mut o);
    butterfly(&e, &o, 8, out);
}

// The odd half's sums are lent: where the compiler knows that they are 16 it drops the product by pairs.
fn inverse_32(x: &[i16], apart: usize, o: &mut [i32], out: &mut [i32])
    requires { Inputs 32 apart x.now × ((length out.old ≡ 32) × (length o.old ≡ 16)) }
    ensures { out.new ≡ tabulate 32 (inverse_sum 0 32 32 (strided x.now apart)) }
{
    let mut e = [0i32; 16];
    inverse_16(x, 2 * apart, &mut e);
    let mut a = [0i16; 16];
    deal(x, apart, 2 * apart, &mut a);
    let t = odd_32();
    line(8, 32, &a, 0, 2, &t, 0, 0, o);
    butterfly(&e, o, 16, out);
}

/// The inverse line of kind 0.
pub fn inverse(n: usize, x: &[i16], y: &mut [i32])
    requires { TakenLine n 0 (length x.now) (length y.old) }
    ensures { y.new ≡ inverse_line 0 n n (at x.now) }
{
    read(x);
    match n {
        4 => inverse_4(x, 1, y),
        8 => inverse_8(x, 1, y),
        16 => inverse_16(x, 1, y),
        _ => {
            let mut o = [0i32; 16];
            let h = n / 2;
            inverse_32(x, 1, &mut o[0..h], y);
        }
    }
}
