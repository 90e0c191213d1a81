// Which kernel works columns: n points and live inputs together tell it, as no two kernels have the same sum. Each is called from two
// places that differ: called from one, the compiler would move it there and lose the pairs.
ghost use Rattle.std.specs.Prelude.{◌≡◌, true, ◌*◌, min, length};
ghost use Rattle.meaning.specs.Plan.{short_range};
ghost use Rattle.meaning.specs.Inverse.{middle};
ghost use Rattle.kernel_levels.specs.Kernels.{Strip, strip_sum, Turned};
ghost use Rattle.kernel_picks.specs.Picks.{is_kernel};

use kernels_down_4_8::{down_4_4_8, down_8_4_8, down_8_8_4, down_8_8_8};
use kernels_down_16::{down_16_4_8, down_16_16_4, down_16_16_8};
use kernels_down_32::down_32_8_8;
use kernels_down_32_32::down_32_32_8;

fn first_down_8(c: &[i16], stride: usize, h: usize, high: usize, rows: usize, m: &mut [i16])
    requires { (is_kernel 8 h high ≡ true) × (Strip high 8 stride 0 rows c.now × (length m.old ≡ 8 * h)) }
    ensures { Turned (min h 8) 8 h (λ i y. middle short_range (strip_sum h stride 0 rows c.now i y)) m.new }
{
    let pick = h + high;
    if pick == 8 {
        down_4_4_8(c, stride, 0, rows, 8, m);
        return;
    }
    if pick == 12 {
        down_8_4_8(c, stride, 0, rows, 8, m);
        return;
    }
    if pick == 16 {
        down_8_8_8(c, stride, 0, rows, 8, m);
        return;
    }
    if pick == 20 {
        down_16_4_8(c, stride, 0, rows, 8, m);
        return;
    }
    if pick == 32 {
        down_16_16_8(c, stride, 0, rows, 8, m);
        return;
    }
    if pick == 40 {
        down_32_8_8(c, stride, 0, rows, 8, m);
        return;
    }
    down_32_32_8(c, stride, 0, rows, 8, m);
}

fn next_down_8(
    c: &[i16],
    stride: usize,
    x: usize,
    h: usize,
    high: usize,
    rows: usize,
    m: &mut [i16],
)
    requires { (is_kernel 8 h high ≡ true) × (Strip high 8 stride x rows c.now × (length m.old ≡ 8 * h)) }
    ensures { Turned (min h 8) 8 h (λ i y. middle short_range (strip_sum h stride x rows c.now i y)) m.new }
{
    let pick = h + high;
    if pick == 8 {
        down_4_4_8(c, stride, x, rows, 8, m);
        return;
    }
    if pick == 12 {
        down_8_4_8(c, stride, x, rows, 8, m);
        return;
    }
    if pick == 16 {
        down_8_8_8(c, stride, x, rows, 8, m);
        return;
    }
    if pick == 20 {
        down_16_4_8(c, stride, x, rows, 8, m);
        return;
    }
    if pick == 32 {
        down_16_16_8(c, stride, x, rows, 8, m);
        return;
    }
    if pick == 40 {
        down_32_8_8(c, stride, x, rows, 8, m);
        return;
    }
    down_32_32_8(c, stride, x, rows, 8, m);
}

// 8 columns.
pub fn down_8(c: &[i16], stride: usize, x: usize, h: usize, high: usize, rows: usize, m: &mut [i16])
    requires { (is_kernel 8 h high ≡ true) × (Strip high 8 stride x rows c.now × (length m.old ≡ 8 * h)) }
    ensures { Turned (min h 8) 8 h (λ i y. middle short_range (strip_sum h stride x rows c.now i y)) m.new }
{
    if x == 0 {
        first_down_8(c, stride, h, high, rows, m);
        return;
    }
    next_down_8(c, stride, x, h, high, rows, m);
}

fn first_down_4(c: &[i16], x: usize, h: usize, high: usize, rows: usize, m: &mut [i16])
    requires { (is_kernel 4 h high ≡ true) × (Strip high 4 4 x rows c.now × (length m.old ≡ 4 * h)) }
    ensures { Turned (min h 8) 4 h (λ i y. middle short_range (strip_sum h 4 x rows c.now i y)) m.new }
{
    let pick = h + high;
    if pick == 16 {
        down_8_8_4(c, 4, x, rows, 4, m);
        return;
    }
    down_16_16_4(c, 4, x, rows, 4, m);
}

fn next_down_4(
    c: &[i16],
    stride: usize,
    x: usize,
    h: usize,
    high: usize,
    rows: usize,
    m: &mut [i16],
)
    requires { (is_kernel 4 h high ≡ true) × (Strip high 4 stride x rows c.now × (length m.old ≡ 4 * h)) }
    ensures { Turned (min h 8) 4 h (λ i y. middle short_range (strip_sum h stride x rows c.now i y)) m.new }
{
    let pick = h + high;
    if pick == 16 {
        down_8_8_4(c, stride, x, rows, 4, m);
        return;
    }
    down_16_16_4(c, stride, x, rows, 4, m);
}

// 4 columns.
pub fn down_4(c: &[i16], stride: usize, x: usize, h: usize, high: usize, rows: usize, m: &mut [i16])
    requires { (is_kernel 4 h high ≡ true) × (Strip high 4 stride x rows c.now × (length m.old ≡ 4 * h)) }
    ensures { Turned (min h 8) 4 h (λ i y. middle short_range (strip_sum h stride x rows c.now i y)) m.new }
{
    if stride == 4 {
        first_down_4(c, x, h, high, rows, m);
        return;
    }
    next_down_4(c, stride, x, h, high, rows, m);
}
