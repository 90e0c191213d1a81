// The second stage of a block of 4 by 4 of kind 0: each output of a row is its four inputs by literal weights. n is no literal: of four
// rows that it knows the compiler makes no vectors of four rows side by side.
ghost use Rattle.std.specs.Prelude.{◌≡◌, ◌+◌, ◌*◌, ◌≤◌, ◌+ℤ◌, ◌*ℤ◌, nat_abs, length};
ghost use Rattle.algebra.specs.Lists.{at, block};
ghost use Rattle.meaning.specs.Line.{inverse_sum};
ghost use Rattle.product.specs.Product.{shifted, Rounding};

use product::round;

fn weighed(a0: i16, a1: i16, a2: i16, a3: i16, w0: i16, w1: i16, w2: i16, w3: i16) -> i32
    requires { ((nat_abs w0 ≤ 90) × (nat_abs w1 ≤ 90)) × ((nat_abs w2 ≤ 90) × (nat_abs w3 ≤ 90)) }
    ensures { (result ≡ (a2 *ℤ w2 +ℤ a0 *ℤ w0) +ℤ (a3 *ℤ w3 +ℤ a1 *ℤ w1)) × (nat_abs result ≤ 11796480) }
{
    ((a2 as i32) * (w2 as i32) + (a0 as i32) * (w0 as i32))
        + ((a3 as i32) * (w3 as i32) + (a1 as i32) * (w1 as i32))
}

pub fn rows(m: &[i16; 16], n: usize, half: i32, shift: u32, r: &mut [i32])
    requires { ((length m.now ≡ 16) × (n ≡ 4)) × (Rounding half shift × (length r.old ≡ 16)) }
    ensures { r.new ≡ block 4 4 (λ x y. shifted half shift (inverse_sum 0 4 4 (λ i. at m.now (i + y * 4)) x)) }
{
    for y in 0..n {
        let o = 4 * y;
        let a0 = m[o];
        let a1 = m[o + 1];
        let a2 = m[o + 2];
        let a3 = m[o + 3];
        r[o] = round(weighed(a0, a1, a2, a3, 64, 83, 64, 36), half, shift);
        r[o + 1] = round(weighed(a0, a1, a2, a3, 64, 36, -64, -83), half, shift);
        r[o + 2] = round(weighed(a0, a1, a2, a3, 64, -36, -64, 83), half, shift);
        r[o + 3] = round(weighed(a0, a1, a2, a3, 64, -83, 64, -36), half, shift);
    }
}
