// Lines of two points: 64 a + 64 b and 64 a - 64 b, rounded.
ghost use Rattle.std.specs.Prelude.{◌≡◌, pos, negsuc, ◌+ℤ◌, ◌*ℤ◌};
ghost use Rattle.algebra.specs.Lists.{block};
ghost use Rattle.product.specs.Product.{shifted, Rounding};
ghost use Rattle.transform_line.specs.Lines.{two_at, GivenTwoPoints};

use product::{pair, round};

pub fn sum_of(a: i16, b: i16, half: i32, shift: u32) -> i32
    requires { Rounding half shift }
    ensures { result ≡ shifted half shift (pos 64 *ℤ a +ℤ pos 64 *ℤ b) }
{
    round(pair(64, a, 64, b), half, shift)
}

pub fn difference_of(a: i16, b: i16, half: i32, shift: u32) -> i32
    requires { Rounding half shift }
    ensures { result ≡ shifted half shift (pos 64 *ℤ a +ℤ negsuc 63 *ℤ b) }
{
    round(pair(64, a, -64, b), half, shift)
}

// Rows of two: the numbers of row y stand at y * step, and `apart` behind it.
pub fn rows_of_two(
    z: &[i16],
    step: usize,
    apart: usize,
    h: usize,
    half: i32,
    shift: u32,
    out: &mut [i32],
)
    requires { GivenTwoPoints step apart h half shift z.now out.old }
    ensures { out.new ≡ block 2 h (two_at z.now step apart half shift) }
{
    for y in 0..h {
        let a = z[y * step];
        let b = z[y * step + apart];
        out[2 * y] = sum_of(a, b, half, shift);
        out[2 * y + 1] = difference_of(a, b, half, shift);
    }
}
