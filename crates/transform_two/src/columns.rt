// Columns of two points, and the two columns of a block that is 2 wide.
ghost use Rattle.std.specs.Prelude.{◌≡◌, ◌+◌, ◌*◌, ◌≤◌, length};
ghost use Rattle.algebra.specs.Lists.{at};
ghost use Rattle.kernel_steps.specs.Written.{WroteFrom};
ghost use Rattle.transform_two.specs.Two.{Crossed, GivenColumn};

use transform_line::two::{difference_of, sum_of};

// The rounded sums of two rows of `step`, and their differences behind them.
pub fn crossed(s: &[i16; 64], step: usize, e: &mut [i32; 64])
    requires { (step ≤ 32) × ((length s.now ≡ 64) × (length e.old ≡ 64)) }
    ensures { Crossed step step s.now e.new }
{
    let mut x = 0;
    while x < step {
        let a = s[x];
        let b = s[step + x];
        e[x] = sum_of(a, b, 64, 7);
        e[step + x] = difference_of(a, b, 64, 7);
        x += 1;
    }
}

// The first numbers of column x, side by side from o on.
pub fn column(c: &[i32], x: usize, rows: usize, o: usize, s: &mut [i16; 64])
    requires { GivenColumn x rows o c.now s.old }
    ensures { WroteFrom o rows s.new s.old (λ y. at c.now (2 * y + x)) }
{
    let mut y = 0;
    while y < rows {
        s[o + y] = c[2 * y + x] as i16;
        y += 1;
    }
}
