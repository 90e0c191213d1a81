// Internal: a line, and lines, as the matrix product two inputs at a time; it asks that places are in their lists and weights
// small, which `full_line`, `dct2_line`, `inverse_block` and `forward_block` have seen to. Both stages of both directions are lines of it,
// and so are the lines of the full product, with no shift. Read specs/Product; proofs/Laid has what a caller cites.
//
// LLVM multiplies and adds eight 16-bit numbers in one instruction (pmaddwd) where it sees the pair sums stored by one loop
// (`products`) and added by a second one (`total`), the odd number named first, and the number of pairs a literal of the caller
// of `lines`. docs/DECISIONS.md has what loses it.
#![tactic(auto)]

ghost use Rattle.std.specs.Prelude.{◌≡◌, ℕ, ◌+◌, ◌*◌, ◌-◌, ◌^◌, ◌≤◌, ◌<◌, pos, ◌+ℤ◌, ◌*ℤ◌, nat_abs, length, drop, ◌++◌};
ghost use Rattle.algebra.specs.Sum.{sum};
ghost use Rattle.algebra.specs.Lists.{at, tabulate, block};
ghost use Rattle.product.specs.Product.{line_sum, shifted, pair_at, Column, Rounding, Line, Lines};

// a * v + b * w, exact.
pub fn pair(a: i16, v: i16, b: i16, w: i16) -> i32
    requires { (nat_abs (a *ℤ v) ≤ 2981888) × (nat_abs (b *ℤ w) ≤ 2981888) }
    ensures { result ≡ a *ℤ v +ℤ b *ℤ w }
{
    (a as i32) * (v as i32) + (b as i32) * (w as i32)
}

pub fn plus(a: i32, b: i32) -> i32
    requires { (nat_abs a ≤ 1000000000) × (nat_abs b ≤ 1000000000) }
    ensures { result ≡ a +ℤ b }
{
    a + b
}

pub fn round(z: i32, half: i32, shift: u32) -> i32
    requires { (nat_abs z ≤ 1000000000) × Rounding half shift }
    ensures { result ≡ shifted half shift z }
{
    (z + half) >> shift
}

// What a sum is rounded by before a shift.
pub fn half(shift: u32) -> i32
    requires { (0 < shift) × (shift ≤ 20) }
    ensures { (result ≡ pos (2 ^ (shift - 1))) × Rounding result shift }
{
    1 << (shift - 1)
}

// The pairs of one output, each on its own.
fn products(
    a: &[i16],
    p: usize,
    gap: usize,
    b: &[i16],
    o: usize,
    apart: usize,
    pairs: usize,
    s: &mut [i32; 16],
)
    requires { Column pairs a.now p gap b.now o apart × (length s.old ≡ 16) }
    ensures { (k : ℕ) → k < pairs → (at s.new k ≡ pair_at a.now p gap b.now o apart k) × (nat_abs (at s.new k) ≤ 5963776) }
{
    for k in 0..pairs {
        let i = p + k * gap;
        let x = o + k * apart;
        s[k] = pair(b[x + 1], a[i + 1], b[x], a[i]);
    }
}

fn total(s: &[i32; 16], pairs: usize) -> i32
    requires { (pairs ≤ 16) × ((k : ℕ) → k < pairs → nat_abs (at s.now k) ≤ 5963776) }
    ensures { result ≡ sum pairs (at s.now) }
{
    let mut sum = 0;
    for k in 0..pairs {
        sum = plus(sum, s[k]);
    }
    sum
}

// As many outputs as `out` has room for.
pub fn line(
    pairs: usize,
    apart: usize,
    a: &[i16],
    p: usize,
    gap: usize,
    b: &[i16],
    half: i32,
    shift: u32,
    out: &mut [i32],
)
    requires { Line (length out.old) pairs a.now p gap b.now apart × Rounding half shift }
    ensures { out.new ≡ tabulate (length out.old) (λ j. shifted half shift (line_sum a.now p gap b.now apart pairs j)) }
{
    for j in 0..out.len() {
        let mut s = [0i32; 16];
        products(a, p, gap, b, 2 * j, apart, pairs, &mut s);
        out[j] = round(total(&s, pairs), half, shift);
    }
}

// Line l of n numbers into its own stretch of `out`, its inputs from step * l on; what stands behind the last line stays.
pub fn lines(
    pairs: usize,
    apart: usize,
    a: &[i16],
    step: usize,
    gap: usize,
    b: &[i16],
    n: usize,
    lines: usize,
    half: i32,
    shift: u32,
    out: &mut [i32],
)
    requires { Lines lines n pairs a.now step gap b.now apart × (Rounding half shift × (lines * n ≤ length out.old)) }
    ensures { out.new ≡ block n lines (λ j l. shifted half shift (line_sum a.now (step * l) gap b.now apart pairs j)) ++ drop (lines * n) out.old }
{
    for l in 0..lines {
        let q = l * n;
        let e = q + n;
        line(
            pairs,
            apart,
            a,
            step * l,
            gap,
            b,
            half,
            shift,
            &mut out[q..e],
        );
    }
}
