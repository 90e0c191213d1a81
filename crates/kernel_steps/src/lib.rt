// Internal: the steps of which the kernels of DCT-II blocks are made; they ask that places are in their lists, weights small and
// sums far from 32 bits, which `kernel_levels` shows of each kernel. `lfnst` takes `some` alone. Read specs/Written and specs/Weighed, then the functions in
// the order in which a kernel calls them: `strip` or `take` reads inputs, `deal` takes every other one of them, `some` multiplies
// by pairs, `lift` adds the rounding, `butterfly` or `mirror` goes up a level, `put` or `round` writes, `spread` copies a tile
// to its rows. Of proofs/, Writing has what a caller cites.
//
// Every count is a literal of the kernel and an argument here, so that LLVM unrolls the steps before it makes vectors of the
// kernel's loop, and each weight is a constant of an instruction that multiplies and adds pairs of 16-bit numbers (pmaddwd).
#![tactic(auto)]

ghost use Rattle.std.specs.Prelude.{◌≡◌, ℕ, ◌+◌, ◌*◌, ◌-◌, ◌/◌, ◌%◌, ◌≤◌, ◌<◌, ◌+ℤ◌, ◌-ℤ◌, ◌*ℤ◌, nat_abs, length};
ghost use Rattle.algebra.specs.Sum.{sum};
ghost use Rattle.algebra.specs.Clip.{clip};
ghost use Rattle.algebra.specs.Lists.{at};
ghost use Rattle.meaning.specs.Plan.{short_range};
ghost use Rattle.product.specs.Product.{line_sum, pair_at};
ghost use Rattle.kernel_steps.specs.Weighed.{Small, Weighed, WeighedPairs, pair_size, product_size, sum_size};
ghost use Rattle.kernel_steps.specs.Written.{Ends, Spread, WroteFrom, floor};

// The first rows of K columns, side by side. `rows` is no literal of the kernel, or LLVM reads the numbers one by one.
pub fn strip<const K: usize>(c: &[i16], w: usize, x0: usize, rows: usize, b: &mut [i16])
    requires { (K * rows ≤ length b.old) × ((y x : ℕ) → y < rows → x < K → y * w + x0 + x < length c.now) }
    ensures { WroteFrom 0 (K * rows) b.new b.old (λ k. at c.now (k / K * w + x0 + k % K)) }
{
    for y in 0..rows {
        for x in 0..K {
            b[K * y + x] = c[y * w + x0 + x];
        }
    }
}

// Every step-th number of x, to place `to` and on.
pub fn take(x: &[i16], step: usize, to: usize, n: usize, a: &mut [i16])
    requires { (to + n ≤ length a.old) × ((i : ℕ) → i < n → i * step < length x.now) }
    ensures { WroteFrom to n a.new a.old (λ i. at x.now (i * step)) }
{
    for i in 0..n {
        a[to + i] = x[i * step];
    }
}

// Every step-th number of x from `from` on.
pub fn deal(x: &[i16], from: usize, step: usize, n: usize, a: &mut [i16])
    requires { (n ≤ length a.old) × ((i : ℕ) → i < n → from + i * step < length x.now) }
    ensures { WroteFrom 0 n a.new a.old (λ i. at x.now (from + i * step)) }
{
    for i in 0..n {
        a[i] = x[from + i * step];
    }
}

// a * v + b * w, exact.
fn pair(a: i16, v: i16, b: i16, w: i16) -> i32
    requires { (nat_abs (a *ℤ v) ≤ product_size) × (nat_abs (b *ℤ w) ≤ product_size) }
    ensures { result ≡ a *ℤ v +ℤ b *ℤ w }
{
    (a as i32) * (v as i32) + (b as i32) * (w as i32)
}

// The pairs of one output, each on its own; the odd input first, as LLVM sees a pmaddwd in it.
fn products(a: &[i16], b: &[i16], o: usize, apart: usize, pairs: usize, s: &mut [i32; 8])
    requires { WeighedPairs pairs a.now b.now o apart × (length s.old ≡ 8) }
    ensures { (k : ℕ) → k < pairs → (at s.new k ≡ pair_at a.now 0 2 b.now o apart k) × (nat_abs (at s.new k) ≤ pair_size) }
{
    for k in 0..pairs {
        let i = 2 * k;
        let x = o + k * apart;
        s[k] = pair(b[x + 1], a[i + 1], b[x], a[i]);
    }
}

fn total(s: &[i32; 8], pairs: usize) -> i32
    requires { (pairs ≤ 8) × ((k : ℕ) → k < pairs → nat_abs (at s.now k) ≤ pair_size) }
    ensures { result ≡ sum pairs (at s.now) }
{
    let mut sum = 0;
    for k in 0..pairs {
        sum += s[k];
    }
    sum
}

// Outputs from j up to e of a product by pairs.
pub fn some(pairs: usize, apart: usize, a: &[i16], b: &[i16], j: usize, e: usize, out: &mut [i32])
    requires { Weighed e pairs a.now b.now apart × ((j ≤ e) × (e ≤ length out.old)) }
    ensures { WroteFrom j (e - j) out.new out.old (λ i. line_sum a.now 0 2 b.now apart pairs (j + i)) × ((i : ℕ) → i < e - j → nat_abs (line_sum a.now 0 2 b.now apart pairs (j + i)) ≤ sum_size) }
{
    for i in j..e {
        let mut s = [0i32; 8];
        products(a, b, 2 * i, apart, pairs, &mut s);
        out[i] = total(&s, pairs);
    }
}

// What a sum is rounded by is added once, at the lowest level: every sum above has it.
pub fn lift(half: i32, n: usize, e: &mut [i32])
    requires { (nat_abs half ≤ 1000000000) × Small n e.old }
    ensures { WroteFrom 0 n e.new e.old (λ j. at e.old j +ℤ half) }
{
    for j in 0..n {
        e[j] += half;
    }
}

// Outputs j and 2h - 1 - j, for j from `from` up to `to`.
pub fn butterfly(e: &[i32], o: &[i32], h: usize, from: usize, to: usize, out: &mut [i32])
    requires { Small to e.now × (Small to o.now × ((from ≤ to) × ((to ≤ h) × (h + h ≤ length out.old)))) }
    ensures { Ends from to h (λ j. at e.now j +ℤ at o.now j) (λ j. at e.now j -ℤ at o.now j) out.new out.old }
{
    for j in from..to {
        out[j] = e[j] + o[j];
        out[h + h - 1 - j] = e[j] - o[j];
    }
}

// The same where no odd input is live.
pub fn mirror(e: &[i32], h: usize, from: usize, to: usize, out: &mut [i32])
    requires { (to ≤ length e.now) × ((from ≤ to) × ((to ≤ h) × (h + h ≤ length out.old))) }
    ensures { Ends from to h (at e.now) (at e.now) out.new out.old }
{
    for j in from..to {
        out[j] = e[j];
        out[h + h - 1 - j] = e[j];
    }
}

pub fn clip16(v: i32) -> i16
    ensures { result ≡ clip short_range v }
{
    v.clamp(-32768, 32767) as i16
}

// Middle values, 8 of a column side by side: a tile of the block, turned.
pub fn put(y: &[i32], from: usize, n: usize, o: usize, m: &mut [i16])
    requires { (from + n ≤ length y.now) × (o + n ≤ length m.old) }
    ensures { WroteFrom o n m.new m.old (λ j. clip short_range (floor 7 (at y.now (from + j)))) }
{
    for j in 0..n {
        m[o + j] = clip16(y[from + j] >> 7);
    }
}

// Residuals of one row; `lift` has added the half.
pub fn round(y: &[i32], from: usize, n: usize, half: i32, shift: u32, o: usize, r: &mut [i32])
    requires { (shift < 32) × ((from + n ≤ length y.now) × (o + n ≤ length r.old)) }
    ensures { WroteFrom o n r.new r.old (λ j. floor shift (at y.now (from + j))) }
{
    for j in 0..n {
        r[o + j] = y[from + j] >> shift;
    }
}

// A tile of K columns and ROWS rows into the columns of r from b on.
pub fn spread<const K: usize, const ROWS: usize>(e: &[i32], b: usize, n: usize, r: &mut [i32])
    requires { (length e.now ≡ K * ROWS) × ((b + K ≤ n) × (ROWS * n ≤ length r.old)) }
    ensures { Spread K ROWS b n (λ j y. at e.now (K * y + j)) r.new r.old }
{
    for y in 0..ROWS {
        for j in 0..K {
            r[y * n + b + j] = e[K * y + j];
        }
    }
}
