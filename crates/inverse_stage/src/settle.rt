// Between the stages: rounded sums are clipped, and those that count are counted. All are clipped, then one look says whether
// any counts at all, and only then are they counted: clipping and looking take eight numbers at a time, counting does not.
ghost use Rattle.std.specs.Prelude.{◌≡◌, false, ◌≤◌, ◌<◌, length};
ghost use Rattle.algebra.specs.Clip.{clip};
ghost use Rattle.algebra.specs.Lists.{at, tabulate};
ghost use Rattle.meaning.specs.Plan.{short_range};
ghost use Rattle.meaning.specs.Inverse.{railed};
ghost use Rattle.inverse_stage.specs.Settled.{rails_of};

// "clipped to -32768..32767".
fn clip16(v: i32) -> i16
    ensures { result ≡ clip short_range v }
{
    v.clamp(-32768, 32767) as i16
}

// Whether a middle value counts: whether the clip altered it.
fn rail(before: i32, after: i16) -> bool
    ensures { result ≡ railed before after }
{
    i32::from(after) != before
}

fn clipped(e: &[i32], m: &mut [i16])
    requires { length e.now ≡ length m.old }
    ensures { m.new ≡ tabulate (length e.now) (λ x. clip short_range (at e.now x)) }
{
    for x in 0..e.len() {
        m[x] = clip16(e[x]);
    }
}

fn any_rail(e: &[i32], m: &[i16]) -> bool
    requires { length e.now ≡ length m.now }
    ensures { result ≡ false → rails_of (length e.now) e.now m.now ≡ 0 }
{
    let mut found = false;
    for x in 0..e.len() {
        if rail(e[x], m[x]) {
            found = true;
        }
    }
    found
}

fn counted(e: &[i32], m: &[i16]) -> u32
    requires { (length e.now ≡ length m.now) × (length e.now ≤ 2048) }
    ensures { result ≡ rails_of (length e.now) e.now m.now }
{
    let mut n: u32 = 0;
    for x in 0..e.len() {
        if rail(e[x], m[x]) {
            n += 1;
        }
    }
    n
}

// Middle values from rounded sums; hands back the rail count.
pub fn settle(e: &[i32], m: &mut [i16]) -> u32
    requires { (length e.now ≡ length m.old) × (length e.now ≤ 2048) }
    ensures { (m.new ≡ tabulate (length e.now) (λ x. clip short_range (at e.now x))) × (result ≡ rails_of (length e.now) e.now m.new) }
{
    clipped(e, m);
    if any_rail(e, m) { counted(e, m) } else { 0 }
}
