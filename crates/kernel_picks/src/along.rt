// Which kernel works rows: n points and live inputs together tell it, as no two kernels have the same sum. Each is called from two
// places that differ: called from one, the compiler would move it there and lose the pairs.
ghost use Rattle.std.specs.Prelude.{◌≡◌, true, ◌*◌, length};
ghost use Rattle.algebra.specs.Lists.{block};
ghost use Rattle.product.specs.Product.{shifted};
ghost use Rattle.kernel_levels.specs.Kernels.{Rowed, rows_sum};
ghost use Rattle.kernel_picks.specs.Picks.{is_kernel};

use kernels_along_4_8::{along_4_4_8, along_8_4_8, along_8_8_4, along_8_8_8};
use kernels_along_16::{along_16_4_8, along_16_16_4, along_16_16_8};
use kernels_along_32::along_32_8_8;
use kernels_along_32_32::along_32_32_8;

fn first_along_8(
    m: &[i16],
    w: usize,
    wide: usize,
    many: usize,
    half: i32,
    shift: u32,
    r: &mut [i32],
)
    requires { (is_kernel 8 w wide ≡ true) × (Rowed wide 8 64 half shift m.now × ((length r.old ≡ 8 * w) × (many ≡ 8))) }
    ensures { r.new ≡ block w 8 (λ j l. shifted half shift (rows_sum w wide 8 64 m.now j l)) }
{
    let pick = w + wide;
    if pick == 8 {
        along_4_4_8(m, 64, many, half, shift, r);
        return;
    }
    if pick == 12 {
        along_8_4_8(m, 64, many, half, shift, r);
        return;
    }
    if pick == 16 {
        along_8_8_8(m, 64, many, half, shift, r);
        return;
    }
    if pick == 20 {
        along_16_4_8(m, 64, many, half, shift, r);
        return;
    }
    if pick == 32 {
        along_16_16_8(m, 64, many, half, shift, r);
        return;
    }
    if pick == 40 {
        along_32_8_8(m, 64, many, half, shift, r);
        return;
    }
    along_32_32_8(m, 64, many, half, shift, r);
}

fn next_along_8(
    m: &[i16],
    apart: usize,
    w: usize,
    wide: usize,
    many: usize,
    half: i32,
    shift: u32,
    r: &mut [i32],
)
    requires { (is_kernel 8 w wide ≡ true) × (Rowed wide 8 apart half shift m.now × ((length r.old ≡ 8 * w) × (many ≡ 8))) }
    ensures { r.new ≡ block w 8 (λ j l. shifted half shift (rows_sum w wide 8 apart m.now j l)) }
{
    let pick = w + wide;
    if pick == 8 {
        along_4_4_8(m, apart, many, half, shift, r);
        return;
    }
    if pick == 12 {
        along_8_4_8(m, apart, many, half, shift, r);
        return;
    }
    if pick == 16 {
        along_8_8_8(m, apart, many, half, shift, r);
        return;
    }
    if pick == 20 {
        along_16_4_8(m, apart, many, half, shift, r);
        return;
    }
    if pick == 32 {
        along_16_16_8(m, apart, many, half, shift, r);
        return;
    }
    if pick == 40 {
        along_32_8_8(m, apart, many, half, shift, r);
        return;
    }
    along_32_32_8(m, apart, many, half, shift, r);
}

// 8 rows.
pub fn along_8(
    m: &[i16],
    apart: usize,
    w: usize,
    wide: usize,
    many: usize,
    half: i32,
    shift: u32,
    r: &mut [i32],
)
    requires { (is_kernel 8 w wide ≡ true) × (Rowed wide 8 apart half shift m.now × ((length r.old ≡ 8 * w) × (many ≡ 8))) }
    ensures { r.new ≡ block w 8 (λ j l. shifted half shift (rows_sum w wide 8 apart m.now j l)) }
{
    if apart == 64 {
        first_along_8(m, w, wide, many, half, shift, r);
        return;
    }
    next_along_8(m, apart, w, wide, many, half, shift, r);
}

fn first_along_4(
    m: &[i16],
    w: usize,
    wide: usize,
    many: usize,
    half: i32,
    shift: u32,
    r: &mut [i32],
)
    requires { (is_kernel 4 w wide ≡ true) × (Rowed wide 4 32 half shift m.now × ((length r.old ≡ 4 * w) × (many ≡ 4))) }
    ensures { r.new ≡ block w 4 (λ j l. shifted half shift (rows_sum w wide 4 32 m.now j l)) }
{
    let pick = w + wide;
    if pick == 16 {
        along_8_8_4(m, 32, many, half, shift, r);
        return;
    }
    along_16_16_4(m, 32, many, half, shift, r);
}

fn next_along_4(
    m: &[i16],
    apart: usize,
    w: usize,
    wide: usize,
    many: usize,
    half: i32,
    shift: u32,
    r: &mut [i32],
)
    requires { (is_kernel 4 w wide ≡ true) × (Rowed wide 4 apart half shift m.now × ((length r.old ≡ 4 * w) × (many ≡ 4))) }
    ensures { r.new ≡ block w 4 (λ j l. shifted half shift (rows_sum w wide 4 apart m.now j l)) }
{
    let pick = w + wide;
    if pick == 16 {
        along_8_8_4(m, apart, many, half, shift, r);
        return;
    }
    along_16_16_4(m, apart, many, half, shift, r);
}

// 4 rows.
pub fn along_4(
    m: &[i16],
    apart: usize,
    w: usize,
    wide: usize,
    many: usize,
    half: i32,
    shift: u32,
    r: &mut [i32],
)
    requires { (is_kernel 4 w wide ≡ true) × (Rowed wide 4 apart half shift m.now × ((length r.old ≡ 4 * w) × (many ≡ 4))) }
    ensures { r.new ≡ block w 4 (λ j l. shifted half shift (rows_sum w wide 4 apart m.now j l)) }
{
    if apart == 32 {
        first_along_4(m, w, wide, many, half, shift, r);
        return;
    }
    next_along_4(m, apart, w, wide, many, half, shift, r);
}
