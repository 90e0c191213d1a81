// How much of a block has something in it: the smallest of 4, 8, 16 and 32 rows and columns outside of which all is 0, found by
// halving. Each look goes to the end, with no way out before it, so that the compiler takes eight numbers at a time.
ghost use Rattle.std.specs.Prelude.{◌≡◌, true, false, ℕ, ◌+◌, ◌*◌, ◌≤◌, ◌<◌, pos, length};
ghost use Rattle.algebra.specs.Lists.{at};
ghost use Rattle.meaning.specs.Shape.{is_size};
ghost use Rattle.layout.specs.Live.{Clear, Live, LiveColumns, Unseen};

// Whether there is something from a up to b.
pub fn any(c: &[i16], a: usize, b: usize) -> bool
    requires { (a ≤ b) × (b ≤ length c.now) }
    ensures { result ≡ false → Clear c.now a b }
{
    let mut found = false;
    for i in a..b {
        if c[i] != 0 {
            found = true;
        }
    }
    found
}

// How many of h rows of w numbers have something in them, rounded up to a size.
pub fn live_rows(c: &[i16], w: usize, h: usize) -> usize
    requires { (is_size h ≡ true) × (length c.now ≡ h * w) }
    ensures { Live c.now w h result }
{
    let mut r = h;
    while r > 4 {
        let half = r / 2;
        if any(c, half * w, r * w) {
            return r;
        }
        r = half;
    }
    r
}

// 1 where v is something, and what stood there otherwise.
fn mark(s: i16, v: i16) -> i16
    ensures { result ≡ pos 0 → (s ≡ pos 0) × (v ≡ pos 0) }
{
    if v != 0 { 1 } else { s }
}

// Marks the columns in which the row from o on has something.
fn mark_row(c: &[i16], o: usize, w: usize, seen: &mut [i16; 32])
    requires { (w ≤ 32) × ((o + w ≤ length c.now) × (length seen.old ≡ 32)) }
    ensures { (length seen.new ≡ 32) × ((x : ℕ) → x < w → at seen.new x ≡ pos 0 → (at seen.old x ≡ pos 0) × (at c.now (o + x) ≡ pos 0)) }
{
    for x in 0..w {
        seen[x] = mark(seen[x], c[o + x]);
    }
}

// The columns in which some of the rows have something.
fn marks(c: &[i16], w: usize, rows: usize) -> [i16; 32]
    requires { (w ≤ 32) × (rows * w ≤ length c.now) }
    ensures { Unseen w rows c.now result }
{
    let mut seen = [0i16; 32];
    for y in 0..rows {
        mark_row(c, y * w, w, &mut seen);
    }
    seen
}

// How many of w columns have something in these rows, rounded up to a size.
pub fn live_columns(c: &[i16], w: usize, rows: usize) -> usize
    requires { (is_size w ≡ true) × (rows * w ≤ length c.now) }
    ensures { LiveColumns c.now w rows result }
{
    let seen = marks(c, w, rows);
    live_rows(&seen[0..w], 1, w)
}
