// How far a round trip can stray: D of a column, and (proofs/) that no line of numbers of size at most M comes back further
// from 4096*N times itself than M*D, and that some line comes back as far. Read specs/RoundTrip, then proofs/Furthest.
#![tactic(auto)]

ghost use Rattle.std.specs.Prelude.{◌≡◌, true, cond, ◌≤◌, ◌*◌, eqb, pos, ◌+ℤ◌, ◌-ℤ◌, ◌*ℤ◌, nat_abs};
ghost use Rattle.line.specs.Line.{is_place};
ghost use Rattle.round_trip.specs.RoundTrip.{G, less, is_column, stray_or_zero};

use line::weight;
use meaning::{is_kind, is_size};

// a + w * v, of weights
fn mac(a: i32, w: i32, v: i32) -> i32
    requires { (nat_abs a ≤ 259200) × ((nat_abs w ≤ 90) × (nat_abs v ≤ 90)) }
    ensures { result ≡ a +ℤ w *ℤ v }
{
    a + w * v
}

// "the product of weight columns j and k"
fn column_product(kind: u32, n: u32, j: u32, k: u32) -> i32
    requires { is_place kind n j k ≡ true }
    ensures { result ≡ G kind n j k }
{
    let mut sum: i32 = 0;
    for i in 0..n {
        sum = mac(sum, weight(kind, n, i, j), weight(kind, n, i, k));
    }
    sum
}

fn minus(a: i32, b: i32) -> i32
    requires { (nat_abs a ≤ 259200) × (nat_abs b ≤ 131072) }
    ensures { result ≡ a -ℤ b }
{
    a - b
}

fn size(z: i32) -> u32
    ensures { result ≡ nat_abs z }
{
    if z < 0 { (!z) as u32 + 1 } else { z as u32 }
}

// "less 4096*N at k=j"
fn off(n: u32, j: u32, k: u32) -> i32
    requires { n ≤ 32 }
    ensures { result ≡ cond (eqb k j) (pos (4096 * n)) (pos 0) }
{
    if k == j { (4096 * n) as i32 } else { 0 }
}

// "the sizes of G(j,k), less 4096*N at k=j before the size is taken"
fn apart(kind: u32, n: u32, j: u32, k: u32) -> u32
    requires { is_place kind n j k ≡ true }
    ensures { result ≡ nat_abs (less kind n j k) }
{
    size(minus(column_product(kind, n, j, k), off(n, j, k)))
}

fn is_column(kind: u32, n: u32, j: u32) -> bool
    ensures { result ≡ is_column kind n j }
{
    is_kind(kind) && is_size(n) && j < n
}

/// D(j) of a kind at n points: how many times the size of a line's numbers its round trip can stray at place j; 0 where there
/// is no such kind, size or place.
pub fn stray(kind: u32, n: u32, j: u32) -> u32
    ensures { result ≡ stray_or_zero kind n j }
{
    if !is_column(kind, n, j) {
        return 0;
    }
    let mut total: u32 = 0;
    for k in 0..n {
        total += apart(kind, n, j, k);
    }
    total
}
