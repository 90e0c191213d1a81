// How much of a block is not zero, in pairs of rows and of columns.
ghost use Rattle.std.specs.Prelude.{◌≡◌, true, false, ℕ, ◌+◌, ◌*◌, ◌≤◌, ◌<◌, pos, length};
ghost use Rattle.algebra.specs.Lists.{at};
ghost use Rattle.meaning.specs.Shape.{is_size};
ghost use Rattle.layout.specs.Live.{Clear};

// How many numbers there are up to the last that is not 0.
fn used(c: &[i32]) -> usize
    ensures { (result ≤ length c.now) × Clear c.now result (length c.now) }
{
    for k in (0..c.len()).rev() {
        if c[k] != 0 {
            return k + 1;
        }
    }
    0
}

// Of h rows of w.
pub fn row_pairs(c: &[i32], w: usize, h: usize) -> usize
    requires { (is_size w ≡ true) × ((is_size h ≡ true) × (length c.now ≡ h * w)) }
    ensures { (2 * result ≤ h) × Clear c.now (2 * result * w) (h * w) }
{
    used(c).div_ceil(2 * w)
}

// Whether column x has something in the first rows.
fn any(c: &[i32], x: usize, w: usize, rows: usize) -> bool
    requires { (x < w) × (rows * w ≤ length c.now) }
    ensures { result ≡ false → (i : ℕ) → i < rows → at c.now (x + i * w) ≡ pos 0 }
{
    (0..rows).any(|i| c[x + i * w] != 0)
}

// Of w columns, in the first rows.
pub fn column_pairs(c: &[i32], w: usize, rows: usize) -> usize
    requires { (is_size w ≡ true) × (rows * w ≤ length c.now) }
    ensures { (2 * result ≤ w) × ((x i : ℕ) → 2 * result ≤ x → x < w → i < rows → at c.now (x + i * w) ≡ pos 0) }
{
    for x in (0..w).rev() {
        if any(c, x, w, rows) {
            return (x + 2) / 2;
        }
    }
    0
}
