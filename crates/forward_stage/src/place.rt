// Numbers in their places in 16 bits, and 0 in all others.
ghost use Rattle.std.specs.Prelude.{◌≡◌, ℕ, ◌≤◌, ◌<◌, pos, length};
ghost use Rattle.std.specs.Int.{w16};
ghost use Rattle.std.proofs.Common.{SFits};
ghost use Rattle.algebra.specs.Lists.{at, tabulate};

// Numbers that are known to fit, in 16 bits.
pub fn narrow(e: &[i32], part: &mut [i16])
    requires { (length part.old ≤ length e.now) × ((k : ℕ) → k < length part.old → SFits w16 (at e.now k)) }
    ensures { part.new ≡ tabulate (length part.old) (at e.now) }
{
    for x in 0..part.len() {
        part[x] = e[x] as i16;
    }
}

// "Coefficients outside the kept rows and columns are written 0": where no more than `kept` of them are written after it.
pub fn clear_beyond(kept: usize, out: &mut [i16])
    ensures { (length out.new ≡ length out.old) × (kept < length out.old → (k : ℕ) → k < length out.old → at out.new k ≡ pos 0) }
{
    if kept < out.len() {
        out.fill(0);
    }
}
