// The values of the stage: by pairs of 16-bit numbers where R is 15, in 64 bits where it is more; each sum rounded and clipped.
ghost use Rattle.std.specs.Prelude.{◌≡◌, ◌⊎◌, ◌+◌, ◌*◌, ◌≤◌, ◌<◌, length, ◌*ℤ◌};
ghost use Rattle.algebra.specs.Sum.{sum};
ghost use Rattle.algebra.specs.Lists.{at};
ghost use Rattle.meaning.specs.Plan.{range_of};
ghost use Rattle.meaning.specs.Inverse.{middle};
ghost use Rattle.product.specs.Product.{line_sum};
ghost use Rattle.kernel_steps.specs.Written.{WroteFrom};
ghost use Rattle.lfnst_tables.specs.Lfnst.{entry, outputs_of};
ghost use Rattle.lfnst.specs.LowFrequency.{input};
ghost use Rattle.lfnst.specs.Work.{Ranged, GivenSums};

use crate::corner::{in_order, short_in_order};
use lfnst_tables::lines::finish;
use long_stages::sums::dot;

fn short_values(wide: bool, matrix: usize, pairs: usize, corner: &[i32; 16], v: &mut [i32])
    requires { (matrix < 8) × (((pairs ≡ 4) ⊎ (pairs ≡ 8)) × (Ranged 15 corner.now × (48 ≤ length v.old))) }
    ensures { WroteFrom 0 (outputs_of wide) v.new v.old (λ j. middle (range_of 15) (sum (2 * pairs) (λ i. input (λ x y. at corner.now (x + 4 * y)) i *ℤ entry (outputs_of wide) matrix i j))) }
{
    let mut a = [0i16; 16];
    short_in_order(corner, &mut a);
    if wide {
        lfnst_48::times(matrix, pairs, &a, v);
    } else {
        lfnst_16::times(matrix, pairs, &a, v);
    }
}

fn long_sums(t: &[i16], n: usize, pairs: usize, u: &[i32; 16], v: &mut [i32])
    requires { GivenSums n pairs t.now u.now v.old }
    ensures { WroteFrom 0 n v.new v.old (line_sum u.now 0 2 t.now (2 * n) pairs) }
{
    for j in 0..n {
        v[j] = dot(t, 2 * j, 2 * n, u, 0, 1, pairs) as i32;
    }
}

// By a matrix of 16 columns.
fn long_16(matrix: usize, pairs: usize, reach: u32, u: &[i32; 16], v: &mut [i32])
    requires { (matrix < 8) × (((pairs ≡ 4) ⊎ (pairs ≡ 8)) × ((reach ≤ 20) × (Ranged reach u.now × (16 ≤ length v.old)))) }
    ensures { WroteFrom 0 16 v.new v.old (λ j. middle (range_of reach) (sum (2 * pairs) (λ i. at u.now i *ℤ entry 16 matrix i j))) }
{
    let mut t = [0i16; 256];
    lfnst_16::put(matrix, &mut t);
    long_sums(&t, 16, pairs, u, v);
    finish(16, reach, v);
}

// By one of 48.
fn long_48(matrix: usize, pairs: usize, reach: u32, u: &[i32; 16], v: &mut [i32])
    requires { (matrix < 8) × (((pairs ≡ 4) ⊎ (pairs ≡ 8)) × ((reach ≤ 20) × (Ranged reach u.now × (48 ≤ length v.old)))) }
    ensures { WroteFrom 0 48 v.new v.old (λ j. middle (range_of reach) (sum (2 * pairs) (λ i. at u.now i *ℤ entry 48 matrix i j))) }
{
    let mut t = [0i16; 768];
    lfnst_48::put(matrix, &mut t);
    long_sums(&t, 48, pairs, u, v);
    finish(48, reach, v);
}

fn long_values(
    wide: bool,
    matrix: usize,
    pairs: usize,
    reach: u32,
    corner: &[i32; 16],
    v: &mut [i32],
)
    requires { (matrix < 8) × (((pairs ≡ 4) ⊎ (pairs ≡ 8)) × ((reach ≤ 20) × (Ranged reach corner.now × (48 ≤ length v.old)))) }
    ensures { WroteFrom 0 (outputs_of wide) v.new v.old (λ j. middle (range_of reach) (sum (2 * pairs) (λ i. input (λ x y. at corner.now (x + 4 * y)) i *ℤ entry (outputs_of wide) matrix i j))) }
{
    let mut u = [0i32; 16];
    in_order(corner, &mut u);
    if wide {
        long_48(matrix, pairs, reach, &u, v);
    } else {
        long_16(matrix, pairs, reach, &u, v);
    }
}

pub fn values(
    wide: bool,
    matrix: usize,
    pairs: usize,
    reach: u32,
    corner: &[i32; 16],
    v: &mut [i32],
)
    requires { (matrix < 8) × (((pairs ≡ 4) ⊎ (pairs ≡ 8)) × ((reach ≤ 20) × (Ranged reach corner.now × (48 ≤ length v.old)))) }
    ensures { WroteFrom 0 (outputs_of wide) v.new v.old (λ j. middle (range_of reach) (sum (2 * pairs) (λ i. input (λ x y. at corner.now (x + 4 * y)) i *ℤ entry (outputs_of wide) matrix i j))) }
{
    if reach == 15 {
        short_values(wide, matrix, pairs, corner, v);
    } else {
        long_values(wide, matrix, pairs, reach, corner, v);
    }
}
