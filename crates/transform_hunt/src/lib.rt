// Internal: the hunt for 27, through what is read of a transform block, for calls whose fields were tested. First one look without a way
// out, which the compiler takes eight numbers at a time; only where that finds something, row by row and number by number. Read
// specs/Hunt.
#![tactic(auto)]

ghost use Rattle.std.specs.Prelude.{◌≡◌, true, false, ℕ, ◌+◌, ◌*◌, ◌≤◌, ◌<◌, MatchOption, length};
ghost use Rattle.algebra.specs.Lists.{at};
ghost use Rattle.algebra.specs.First.{found};
ghost use Rattle.meaning.specs.Plan.{range_of};
ghost use Rattle.meaning.specs.Long.{beyond};
ghost use Rattle.transform_hunt.specs.Hunt.{GivenHunt, first_read, BeyondFrom};

use long_stages::hunt::is_beyond;

// Whether one of the first `count` numbers has more than 16 bits. The ends of the range are literals: with others LLVM makes no vectors.
fn any_long(c: &[i32], count: usize) -> bool
    requires { count ≤ length c.now }
    ensures { result ≡ false → (k : ℕ) → k < count → beyond (range_of 15) (at c.now k) ≡ false }
{
    let mut found = false;
    for k in 0..count {
        if is_beyond(c[k], 15) {
            found = true;
        }
    }
    found
}

// Whether R is 15 and none of the first `count` numbers is outside the range.
fn is_clear(c: &[i32], count: usize, reach: u32) -> bool
    requires { count ≤ length c.now }
    ensures { result ≡ true → (k : ℕ) → k < count → beyond (range_of reach) (at c.now k) ≡ false }
{
    reach == 15 && !any_long(c, count)
}

// Where the first of `count` numbers from o on stands that is outside the range.
fn row_beyond(c: &[i32], o: usize, count: usize, reach: u32) -> Option<usize>
    requires { (o + count ≤ length c.now) × (reach ≤ 20) }
    ensures { MatchOption result (BeyondFrom c.now o count reach (o + count)) (λ k. (k < o + count) × BeyondFrom c.now o count reach k) }
{
    (o..o + count).find(|k| is_beyond(c[*k], reach))
}

fn one_by_one(c: &[i32], w: usize, columns: usize, rows: usize, reach: u32) -> Option<usize>
    requires { GivenHunt c.now w columns rows reach }
    ensures { result ≡ found (length c.now) (first_read w columns rows reach c.now) }
{
    for y in 0..rows {
        if let Some(k) = row_beyond(c, y * w, columns, reach) {
            return Some(k);
        }
    }
    None
}

// The place of the first number that is read and outside the range. The look takes whole rows, what stands beside the columns
// included.
pub fn first_read(c: &[i32], w: usize, columns: usize, rows: usize, reach: u32) -> Option<usize>
    requires { GivenHunt c.now w columns rows reach }
    ensures { result ≡ found (length c.now) (first_read w columns rows reach c.now) }
{
    if is_clear(c, rows * w, reach) {
        return None;
    }
    one_by_one(c, w, columns, rows, reach)
}
