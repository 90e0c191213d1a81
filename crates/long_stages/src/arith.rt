// Arithmetic in 64 bits.
ghost use Rattle.std.specs.Prelude.{◌≡◌, ◌+◌, ◌≤◌, ◌<◌, nat_abs, ◌+ℤ◌, ◌*ℤ◌, ◌≤ℤ◌};
ghost use Rattle.algebra.specs.Clip.{clip};
ghost use Rattle.algebra.specs.Shift.{nearest};
ghost use Rattle.meaning.specs.Plan.{range_of};
ghost use Rattle.meaning.specs.Inverse.{railed, count};

use crate::rules::{high_end, low_end};

// One product more, of a weight and a number of 32 bits: at most 2^46.
pub fn mac(a: i64, w: i16, v: i32) -> i64
    requires { nat_abs a ≤ 1000000000000000000 }
    ensures { (result ≡ a +ℤ w *ℤ v) × (nat_abs result ≤ nat_abs a + 70368744177664) }
{
    a + w as i64 * v as i64
}

// "(e+64)>>7".
pub fn rounded(e: i64) -> i64
    requires { nat_abs e ≤ 1000000000000000000 }
    ensures { result ≡ nearest 7 e }
{
    (e + 64) >> 7
}

// A number brought into a range.
fn clip_to(v: i64, low: i32, high: i32) -> i32
    requires { low ≤ℤ high }
    ensures { result ≡ clip (record { low = low; high = high }) v }
{
    v.clamp(low as i64, high as i64) as i32
}

// "clipped to" -2^R .. 2^R - 1.
pub fn clipped(v: i64, reach: u32) -> i32
    requires { reach ≤ 20 }
    ensures { result ≡ clip (range_of reach) v }
{
    clip_to(v, low_end(reach), high_end(reach))
}

// 1 for a middle value that the clip altered.
pub fn rail(before: i64, after: i32) -> u32
    ensures { result ≡ count (railed before after) }
{
    u32::from(after as i64 != before)
}

// "(r + 2^(s-1)) >> s".
pub fn nearest(z: i64, s: u32) -> i64
    requires { (nat_abs z ≤ 1000000000000000000) × ((0 < s) × (s ≤ 32)) }
    ensures { result ≡ nearest s z }
{
    (z + (1 << (s - 1))) >> s
}
