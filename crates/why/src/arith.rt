// Arithmetic in 64 bits: what a column sum e gives to each part.
ghost use Rattle.std.specs.Prelude.{◌≡◌, ◌+◌, ◌^◌, ◌≤◌, ◌<◌, pos, nat_abs, ◌+ℤ◌, ◌-ℤ◌, ◌*ℤ◌};
ghost use Rattle.algebra.specs.Shift.{nearest};
ghost use Rattle.meaning.specs.Plan.{range_of};
ghost use Rattle.meaning.specs.Inverse.{rounded, middle};

use long_stages::arith::{clipped, nearest, rounded};

// One product more, of a weight and a number of at most 2^39.
pub fn carry(a: i64, w: i16, v: i64) -> i64
    requires { (nat_abs a ≤ 1000000000000000000) × (nat_abs v ≤ 549755813888) }
    ensures { (result ≡ a +ℤ w *ℤ v) × (nat_abs result ≤ nat_abs a + 18014398509481984) }
{
    a + w as i64 * v
}

// What its rounding added.
pub fn rounding(e: i64) -> i64
    requires { nat_abs e ≤ 2147483648 }
    ensures { (result ≡ pos 128 *ℤ rounded e -ℤ e) × (nat_abs result ≤ 549755813888) }
{
    128 * rounded(e) - e
}

// The middle value.
pub fn between(e: i64, reach: u32) -> i64
    requires { (nat_abs e ≤ 2147483648) × (reach ≤ 20) }
    ensures { (result ≡ middle (range_of reach) e) × (nat_abs result ≤ 2147483648) }
{
    clipped(rounded(e), reach) as i64
}

// What its clip added.
pub fn clipping(e: i64, reach: u32) -> i64
    requires { (nat_abs e ≤ 2147483648) × (reach ≤ 20) }
    ensures { (result ≡ pos 128 *ℤ (middle (range_of reach) e -ℤ rounded e)) × (nat_abs result ≤ 549755813888) }
{
    128 * (between(e, reach) - rounded(e))
}

// What the last rounding added to a row sum.
pub fn last_rounding(r: i64, s: u32) -> i64
    requires { (nat_abs r ≤ 2147483648) × ((0 < s) × (s ≤ 12)) }
    ensures { result ≡ pos 128 *ℤ (pos (2 ^ s) *ℤ nearest s r -ℤ r) }
{
    128 * ((1 << s) * nearest(r, s) - r)
}
