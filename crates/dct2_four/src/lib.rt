// Internal: the inverse of a block of 4 by 4 of kind 0 both ways, for calls that were tested. Both stages are one function, `stage`: it
// works four columns or rows side by side, by even and odd halves with literal weights, and leaves what it made turned. So the first
// stage reads the block and leaves it turned, and the second turns it back. Read `kernel_levels` first.
#![tactic(auto)]

ghost use Rattle.std.specs.Prelude.{◌≡◌, false, ℕ, ◌≤◌, ◌<◌, length};
ghost use Rattle.algebra.specs.Lists.{block};
ghost use Rattle.product.specs.Product.{shifted};
ghost use Rattle.kernel_levels.specs.Kernels.{Rowed, rows_sum};
ghost use Rattle.dct2_block.specs.Stages.{middle_of, residual_by, Inner};

use dct2_block::touched::touched;
use kernel_steps::{butterfly, deal, lift, put, round, some, take};
use product::half;

const FIRST_2_2: [i16; 4] = [64, 64, 64, -64];

const ODD_4_2: [i16; 4] = [83, 36, 36, -83];

// Lines of 4 numbers each, which stand 4 apart in x, side by side into out. `many` is no literal: of four turns that the compiler knows
// it makes no vectors. What is written is no 16-bit number, of which it would take eight at a time.
fn stage(x: &[i16], many: usize, half: i32, shift: u32, out: &mut [i32; 16])
    requires { Rowed 4 4 0 half shift x.now × ((length out.old ≡ 16) × (many ≡ 4)) }
    ensures { out.new ≡ block 4 4 (λ j l. shifted half shift (rows_sum 4 4 4 0 x.now j l)) }
{
    for l in 0..many {
        let mut a = [0i16; 4];
        let i0 = l;
        take(&x[i0..], 4, 0, 4, &mut a);
        let mut b2 = [0i16; 2];
        deal(&a, 0, 2, 2, &mut b2);
        let t2 = FIRST_2_2;
        let mut e2 = [0i32; 2];
        some(1, 4, &b2, &t2, 0, 2, &mut e2);
        lift(half, 2, &mut e2);
        let mut y = [0i32; 4];
        let mut z4 = [0i16; 2];
        deal(&a, 1, 2, 2, &mut z4);
        let w4 = ODD_4_2;
        let mut o4 = [0i32; 2];
        some(1, 4, &z4, &w4, 0, 2, &mut o4);
        butterfly(&e2, &o4, 2, 0, 2, &mut y);
        round(&y, 0, 4, half, shift, 4 * l, out);
    }
}

fn copied(e: &[i32; 16], r: &mut [i32])
    requires { (length e.now ≡ 16) × (length r.old ≡ 16) }
    ensures { r.new ≡ e.now }
{
    for k in 0..16 {
        r[k] = e[k];
    }
}

// Both stages. Hands back whether a middle value stands at an end of its range. The first stage does not shift: `put` does, and clips.
// All arrays stand before the first call: declared later, they cost 10 ns more (docs/DECISIONS.md).
pub fn both(c: &[i16], n: usize, shift: u32, r: &mut [i32]) -> bool
    requires { (length c.now ≡ 16) × ((n ≡ 4) × (((0 < shift) × (shift ≤ 20)) × (length r.old ≡ 16))) }
    ensures { (r.new ≡ block 4 4 (residual_by 4 4 shift 4 4 4 c.now)) × (result ≡ false → (x y : ℕ) → x < 4 → y < 4 → Inner (middle_of 4 4 4 c.now x y)) }
{
    let mut s = [0i32; 16];
    let mut e = [0i32; 16];
    let mut m = [0i16; 16];
    stage(c, n, 64, 0, &mut s);
    put(&s, 0, 16, 0, &mut m);
    stage(&m, n, half(shift), shift, &mut e);
    copied(&e, r);
    touched(&m)
}
