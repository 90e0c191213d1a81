// Internal: whether a transform block of long numbers can be worked as one of 16 bits, for calls that were tested. If the sizes of all that
// is read add up to at most 32767, no number that is read and no middle value has more than 16 bits: a weight is at most 91, and the first
// stage divides by 128. Read specs/Calm; proofs/Calm has what a caller cites.
#![tactic(auto)]

ghost use Rattle.std.specs.Prelude.{◌≡◌, ℕ, ◌+◌, ◌*◌, ◌≤◌, ◌<◌, nat_abs, length, leb};
ghost use Rattle.algebra.specs.Sum.{sumℕ};
ghost use Rattle.algebra.specs.Lists.{at};
ghost use Rattle.transform_calm.specs.Calm.{read_sizes};

fn size(v: i32) -> u32
    requires { nat_abs v ≤ 1048576 }
    ensures { result ≡ nat_abs v }
{
    v.unsigned_abs()
}

fn row_size(c: &[i32]) -> u32
    requires { ((k : ℕ) → k < length c.now → nat_abs (at c.now k) ≤ 1048576) × (length c.now ≤ 32) }
    ensures { (result ≡ sumℕ (length c.now) (λ x. nat_abs (at c.now x))) × (result ≤ 33554432) }
{
    let mut sum: u32 = 0;
    for x in 0..c.len() {
        sum += size(c[x]);
    }
    sum
}

// Of the first columns and rows of rows of w.
pub fn is_calm(c: &[i32], w: usize, columns: usize, rows: usize) -> bool
    requires { ((columns ≤ w) × ((columns ≤ 32) × (rows ≤ 32))) × ((rows * w ≤ length c.now) × ((x y : ℕ) → x < columns → y < rows → nat_abs (at c.now (x + y * w)) ≤ 1048576)) }
    ensures { result ≡ leb (read_sizes w columns rows c.now) 32767 }
{
    let mut sum: u32 = 0;
    for y in 0..rows {
        let a = y * w;
        let b = a + columns;
        sum += row_size(&c[a..b]);
    }
    sum <= 32767
}
