// The hunt for refusal 9: "a residual of size above 2^d-1; place of the first". Every residual has to be looked at: the largest and
// the smallest, eight at a time, say whether there is any, and the hunt runs only where there is.
ghost use Rattle.std.specs.Prelude.{◌≡◌, true, false, ℕ, ◌*◌, ◌-◌, ◌^◌, ◌<◌, ltb, nat_abs, ◌≤ℤ◌, length};
ghost use Rattle.algebra.specs.Lists.{at};
ghost use Rattle.algebra.specs.First.{found};
ghost use Rattle.meaning.specs.Shape.{is_depth};
ghost use Rattle.meaning.specs.Forward.{first_too_large};
ghost use Rattle.meaning.specs.Taken.{NoneAbove};

use meaning::Shape;

// The size, in 32 bits: 16 do not hold that of -32768.
fn size(z: i16) -> u32
    ensures { result ≡ nat_abs z }
{
    u32::from(z.unsigned_abs())
}

fn power(n: u32) -> u32
    requires { n < 31 }
    ensures { result ≡ 2 ^ n }
{
    1 << n
}

// "a residual of size above 2^d-1"
fn too_large(depth: u32, z: i16) -> bool
    requires { is_depth depth ≡ true }
    ensures { result ≡ ltb (2 ^ depth - 1) (nat_abs z) }
{
    power(depth) - 1 < size(z)
}

// The place of the first residual that is too large, row by row.
fn searched(shape: Shape, residuals: &[i16]) -> Option<usize>
    requires { (is_depth shape.depth ≡ true) × (length residuals.now ≡ shape.width * shape.height) }
    ensures { result ≡ found (length residuals.now) (first_too_large shape residuals.now) }
{
    let w = shape.width as usize;
    let h = shape.height as usize;
    let mut place = None;
    'hunt: for y in 0..h {
        for x in 0..w {
            let at = x + y * w;
            if too_large(shape.depth, residuals[at]) {
                place = Some(at);
                break 'hunt;
            }
        }
    }
    place
}

fn largest(r: &[i16]) -> i16
    ensures { (k : ℕ) → k < length r.now → at r.now k ≤ℤ result }
{
    let mut m: i16 = 0;
    for z in r {
        m = m.max(*z);
    }
    m
}

fn smallest(r: &[i16]) -> i16
    ensures { (k : ℕ) → k < length r.now → result ≤ℤ at r.now k }
{
    let mut m: i16 = 0;
    for z in r {
        m = m.min(*z);
    }
    m
}

fn any_too_large(depth: u32, r: &[i16]) -> bool
    requires { is_depth depth ≡ true }
    ensures { result ≡ false → NoneAbove (2 ^ depth - 1) r.now }
{
    too_large(depth, largest(r)) || too_large(depth, smallest(r))
}

pub fn first_too_large(shape: Shape, residuals: &[i16]) -> Option<usize>
    requires { (is_depth shape.depth ≡ true) × (length residuals.now ≡ shape.width * shape.height) }
    ensures { result ≡ found (length residuals.now) (first_too_large shape residuals.now) }
{
    if any_too_large(shape.depth, residuals) {
        searched(shape, residuals)
    } else {
        None
    }
}
