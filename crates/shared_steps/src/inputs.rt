// Forward, a few inputs are added first, in 32 bits: number g of a class is the signed sum of the inputs whose weight is that of
// place g in every row of the class.
ghost use Rattle.std.specs.Prelude.{◌≡◌, ◌*◌, ◌≤◌, ◌<◌, nat_abs, length};
ghost use Rattle.shared_steps.specs.Folds.{half, width, leading_into, periodic_into, into, folded};
ghost use Rattle.shared_steps.specs.Lines.{reading};
ghost use Rattle.shared_steps.specs.Steps.{Stretched, Factored, Gathered};

use crate::arith::{plus, sign, two_inputs};
use crate::places::{nearer, taken};

// Feature 1: a first place, and one past them.
fn leading_input(x: &[i16], n: usize, p: usize, q: usize, back: bool, g: usize) -> i32
    requires { (length x.now ≡ n) × ((g < half p * q) × Factored n p q) }
    ensures { (result ≡ folded (reading back n x.now) (leading_into p q g)) × (nat_abs result ≤ 425984) }
{
    let own = taken(x, n, back, g);
    let r = g % q + 1;
    if r == q {
        return own;
    }
    let last = taken(x, n, back, p / 2 * q + (nearer(r, q) - 1));
    two_inputs(own, sign(g / q + 1 < p / 2, last))
}

// Features 2 and 3: two of each whole stretch of q places, and one of the last.
fn periodic_input(x: &[i16], n: usize, q: usize, back: bool, g: usize) -> i32
    requires { (length x.now ≡ n) × ((g < half q) × Stretched n q) }
    ensures { (result ≡ folded (reading back n x.now) (periodic_into n q g)) × (nat_abs result ≤ 425984) }
{
    let mut sum: i32 = 0;
    let mut k = 0;
    // With `for` here and below, calls of `gather` are not written out, and a forward line takes 13 to 20 percent more.
    while k < n / q {
        let first = taken(x, n, back, k * q + g);
        let second = taken(x, n, back, k * q + q - 2 - g);
        sum = plus(sum, sign(k % 2 == 1, two_inputs(first, second)));
        k += 1;
    }
    plus(sum, sign(k % 2 == 1, taken(x, n, back, k * q + g)))
}

fn folded_input(x: &[i16], n: usize, p: usize, q: usize, class: usize, back: bool, g: usize) -> i32
    requires { (length x.now ≡ n) × ((g < width p q class) × Factored n p q) }
    ensures { (result ≡ folded (reading back n x.now) (into n p q class g)) × (nat_abs result ≤ 425984) }
{
    match class {
        1 => leading_input(x, n, p, q, back, g),
        2 => periodic_input(x, n, q, back, g),
        _ => periodic_input(x, n, p, back, g),
    }
}

// Numbers `from` to `to` of a class. Callers take eight at a time: the compiler writes out a loop of so few.
pub fn gather(
    x: &[i16],
    n: usize,
    p: usize,
    q: usize,
    class: usize,
    back: bool,
    from: usize,
    to: usize,
    t: &mut [i32],
)
    requires { (length x.now ≡ n) × (((from ≤ to) × (to ≤ width p q class)) × Gathered n p q class (reading back n x.now) from t.old) }
    ensures { Gathered n p q class (reading back n x.now) to t.new }
{
    let mut g = from;
    while g < to {
        t[g] = folded_input(x, n, p, q, class, back, g);
        g += 1;
    }
}
