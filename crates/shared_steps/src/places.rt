// Where a number stands, and reading it there.
ghost use Rattle.std.specs.Prelude.{◌≡◌, ◌≤◌, ◌<◌, nat_abs, length};
ghost use Rattle.meaning.specs.Weights.{S};
ghost use Rattle.tables.specs.Table.{Table};
ghost use Rattle.shared_steps.specs.Folds.{nearer as nearest};
ghost use Rattle.shared_steps.specs.Lines.{turned, reading};

// Place k of n, counted from the end where asked.
pub fn place(back: bool, n: usize, k: usize) -> usize
    requires { k < n }
    ensures { result ≡ turned back n k }
{
    if back { n - 1 - k } else { k }
}

// w or q - w, whichever is less.
pub fn nearer(w: usize, q: usize) -> usize
    requires { (w < q) × (q ≤ 65) }
    ensures { result ≡ nearest w q }
{
    if w + w < q { w } else { q - w }
}

// Input k of a forward line.
pub fn taken(x: &[i16], n: usize, back: bool, k: usize) -> i32
    requires { (length x.now ≡ n) × (k < n) }
    ensures { (result ≡ reading back n x.now k) × (nat_abs result ≤ 32768) }
{
    i32::from(x[place(back, n, k)])
}

// The weight of row i in column j.
pub fn stored(w: &[i16], n: usize, i: usize, j: usize) -> i32
    requires { (i < n) × ((j < n) × ((n ≤ 32) × Table n w.now)) }
    ensures { result ≡ S n i j }
{
    i32::from(w[i * n + j])
}
