// A block with one coefficient, the first: all its residuals are one number.
ghost use Rattle.std.specs.Prelude.{◌≡◌, true, ℕ, ◌*◌, ◌≤◌, ◌<◌, pos, ◌*ℤ◌, nat_abs, length};
ghost use Rattle.algebra.specs.Lists.{tabulate};
ghost use Rattle.layout.specs.Live.{Clear};
ghost use Rattle.dct2_block.specs.Alone.{flat_of};

use layout::live::any;
use product::{half, round};

// Whether the first of some rows of w numbers is all there is. The second number is looked at by itself, and then the first row: there
// mostly is something.
pub fn alone(c: &[i16], w: usize, rows: usize) -> bool
    requires { (1 < w) × ((0 < rows) × (rows * w ≤ length c.now)) }
    ensures { result ≡ true → Clear c.now 1 (rows * w) }
{
    c[1] == 0 && !any(c, 1, w) && !any(c, w, rows * w)
}

fn weighed(z: i32) -> i32
    requires { nat_abs z ≤ 32768 }
    ensures { result ≡ pos 64 *ℤ z }
{
    64 * z
}

fn fill(v: i32, r: &mut [i32])
    ensures { r.new ≡ tabulate (length r.old) (λ _. v) }
{
    for i in 0..r.len() {
        r[i] = v;
    }
}

pub fn flat(shift: u32, v: i32, r: &mut [i32])
    requires { (nat_abs v ≤ 32768) × ((0 < shift) × (shift ≤ 20)) }
    ensures { r.new ≡ tabulate (length r.old) (λ _. flat_of shift v) }
{
    let middle = round(weighed(v), 64, 7);
    fill(round(weighed(middle), half(shift), shift), r);
}
