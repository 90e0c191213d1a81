// The values of a line by a stored matrix: sums by pairs of 16-bit numbers, each rounded and clipped. Each matrix calls its line from a
// place of its own, so that the compiler does not move the line there: it would lose the pairs (docs/DECISIONS.md, "The product").
ghost use Rattle.std.specs.Prelude.{◌≡◌, ◌≤◌};
ghost use Rattle.algebra.specs.Lists.{at};
ghost use Rattle.meaning.specs.Plan.{range_of};
ghost use Rattle.meaning.specs.Inverse.{middle};
ghost use Rattle.product.specs.Product.{line_sum};
ghost use Rattle.kernel_steps.specs.Weighed.{Small};
ghost use Rattle.kernel_steps.specs.Written.{WroteFrom};
ghost use Rattle.lfnst_tables.specs.Line.{GivenValues};

use kernel_steps::some;
use long_stages::arith::clipped;
use product::round;

// Each sum becomes the value.
pub fn finish(n: usize, reach: u32, v: &mut [i32])
    requires { Small n v.old × (reach ≤ 20) }
    ensures { WroteFrom 0 n v.new v.old (λ j. middle (range_of reach) (at v.old j)) }
{
    for j in 0..n {
        v[j] = clipped(round(v[j], 64, 7) as i64, reach);
    }
}

// 16 values of 8 or 16 inputs. How many pairs and outputs there are, and how far the pairs are apart, are literals at each call: else
// LLVM multiplies one by one.
pub fn line_16(t: &[i16], pairs: usize, a: &[i16; 16], v: &mut [i32])
    requires { GivenValues 16 pairs t.now a.now v.old }
    ensures { WroteFrom 0 16 v.new v.old (λ j. middle (range_of 15) (line_sum a.now 0 2 t.now 32 pairs j)) }
{
    if pairs == 4 {
        some(4, 32, a, t, 0, 16, v);
        finish(16, 15, v);
    } else {
        some(8, 32, a, t, 0, 16, v);
        finish(16, 15, v);
    }
}

// 48 values.
pub fn line_48(t: &[i16], pairs: usize, a: &[i16; 16], v: &mut [i32])
    requires { GivenValues 48 pairs t.now a.now v.old }
    ensures { WroteFrom 0 48 v.new v.old (λ j. middle (range_of 15) (line_sum a.now 0 2 t.now 96 pairs j)) }
{
    if pairs == 4 {
        some(4, 96, a, t, 0, 48, v);
        finish(48, 15, v);
    } else {
        some(8, 96, a, t, 0, 48, v);
        finish(48, 15, v);
    }
}
