// Whether a middle value stands at an end of its range: only then can the clip have altered it. The look goes to the end, with no way
// out before it, so that the compiler takes eight numbers at a time.
ghost use Rattle.std.specs.Prelude.{◌≡◌, false, ℕ, ◌<◌, length};
ghost use Rattle.algebra.specs.Lists.{at};
ghost use Rattle.dct2_block.specs.Stages.{Inner};

fn at_end(v: i16) -> bool
    ensures { result ≡ false → Inner v }
{
    v == 32767 || v == -32768
}

pub fn touched(m: &[i16]) -> bool
    ensures { result ≡ false → (k : ℕ) → k < length m.now → Inner (at m.now k) }
{
    let mut found = false;
    for i in 0..m.len() {
        if at_end(m[i]) {
            found = true;
        }
    }
    found
}
