// One sum of a line, in 64 bits.
ghost use Rattle.std.specs.Prelude.{◌≡◌, ◌+◌, ◌*◌, ◌≤◌, nat_abs};
ghost use Rattle.long_stages.specs.Sums.{dotted, Dot};

use crate::arith::mac;

// Thirty-two products of at most 2^46.
pub fn dot(t: &[i16], o: usize, apart: usize, v: &[i32], p: usize, gap: usize, pairs: usize) -> i64
    requires { Dot t.now o apart v.now p gap pairs }
    ensures { (result ≡ dotted t.now o apart v.now p gap pairs) × (nat_abs result ≤ 2251799813685248) }
{
    let mut sum = 0;
    for k in 0..pairs {
        let a = o + k * apart;
        let b = p + 2 * k * gap;
        let even = mac(sum, t[a], v[b]);
        sum = mac(even, t[a + 1], v[b + gap]);
    }
    sum
}
