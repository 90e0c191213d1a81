// Coefficients of 16 bits as long numbers.
ghost use Rattle.std.specs.Prelude.{◌≡◌, ℕ, ◌<◌, length};
ghost use Rattle.std.specs.Int.{w16};
ghost use Rattle.std.proofs.Common.{SFits};
ghost use Rattle.algebra.specs.Lists.{at};

pub fn widen(c: &[i16], out: &mut [i32])
    requires { length c.now ≡ length out.old }
    ensures { (out.new ≡ c.now) × ((k : ℕ) → k < length c.now → SFits w16 (at c.now k)) }
{
    for k in 0..c.len() {
        out[k] = c[k] as i32;
    }
}
