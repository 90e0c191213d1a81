// Inverse, each place of the line is written once from the sums of its classes.
ghost use Rattle.std.specs.Prelude.{◌≡◌, ◌≤◌, ◌<◌, nat_abs};
ghost use Rattle.algebra.specs.Lists.{at};
ghost use Rattle.shared_steps.specs.Folds.{half, width, leading as leadingParts, periodic as periodicParts, folded};
ghost use Rattle.shared_steps.specs.Steps.{Bounded, Stretched, Factored, ClassSums, FilledTo, joined_sums};

use crate::arith::{negated, plus, sign};
use crate::places::{nearer, place};

// Feature 1 at place k.
fn leading(a: &[i32], n: usize, p: usize, q: usize, k: usize) -> i32
    requires { (k < n) × (Factored n p q × Bounded (width p q 1) 94371840 a.now) }
    ensures { (result ≡ folded (at a.now) (leadingParts p q k)) × (nat_abs result ≤ 377487360) }
{
    let m = p / 2 * q;
    if k < m {
        return a[k];
    }
    let g = k - m;
    let two = plus(a[g], a[q - 2 - g]);
    if p == 3 {
        return two;
    }
    plus(negated(two), plus(a[q + g], a[2 * q - 2 - g]))
}

// Features 2 and 3 at place k.
fn periodic(c: &[i32], n: usize, q: usize, k: usize) -> i32
    requires { (k < n) × (Stretched n q × Bounded (half q) 94371840 c.now) }
    ensures { (result ≡ folded (at c.now) (periodicParts q k)) × (nat_abs result ≤ 94371840) }
{
    let w = (k + 1) % q;
    if w == 0 {
        return 0;
    }
    sign((k + 1) % (2 * q) >= q, c[nearer(w, q) - 1])
}

// Places `from` to `to`, written from the end where asked. Callers take eight at a time, as `gather` does.
pub fn spread(
    a: &[i32],
    c: &[i32],
    d: &[i32],
    n: usize,
    p: usize,
    q: usize,
    back: bool,
    from: usize,
    to: usize,
    y: &mut [i32],
)
    requires { ((from ≤ to) × (to ≤ n)) × (ClassSums n p q a.now c.now d.now × FilledTo back n from (joined_sums p q a.now c.now d.now) y.old) }
    ensures { FilledTo back n to (joined_sums p q a.now c.now d.now) y.new }
{
    for k in from..to {
        let others = plus(periodic(c, n, q, k), periodic(d, n, p, k));
        y[place(back, n, k)] = plus(leading(a, n, p, q, k), others);
    }
}
