// The second stage: groups of 8 rows, or the one of 4.
ghost use Rattle.std.specs.Prelude.{◌≡◌, true, ℕ, ◌+◌, ◌*◌, ◌/◌, ◌%◌, ◌≤◌, ◌<◌, min, length};
ghost use Rattle.algebra.specs.Lists.{at, block};
ghost use Rattle.meaning.specs.Line.{inverse_sum};
ghost use Rattle.product.specs.Product.{shifted};
ghost use Rattle.kernel_picks.specs.Picks.{is_kernel};
ghost use Rattle.dct2_block.specs.Stages.{place_of, Across, Rounded};

use kernel_picks::along::{along_4, along_8};

// Groups of 8 of h rows; those of a group stand `step` behind those of the one before it.
fn alongs(
    m: &[i16],
    step: usize,
    apart: usize,
    w: usize,
    h: usize,
    wide: usize,
    many: usize,
    half: i32,
    shift: u32,
    r: &mut [i32],
)
    requires { (is_kernel 8 w wide ≡ true) × ((h % 8 ≡ 0) × (Rounded half shift × (((many ≡ 8) × (step ≤ 64)) × ((length r.old ≡ h * w) × ((i y : ℕ) → i < wide → y < h → y / 8 * step + (i / 8 * apart + i % 8 * 8 + y % 8) < length m.now))))) }
    ensures { r.new ≡ block w h (λ j y. shifted half shift (inverse_sum 0 w wide (λ i. at m.now (y / 8 * step + (i / 8 * apart + i % 8 * 8 + y % 8))) j)) }
{
    let full = 8 * w;
    for group in 0..h / 8 {
        let a = group * step;
        let y = 8 * group;
        let o = y * w;
        let e = o + full;
        along_8(&m[a..], apart, w, wide, many, half, shift, &mut r[o..e]);
    }
}

// Residuals from the middle values in m, those of columns beyond the ones there are being 0.
pub fn along(
    m: &[i16],
    w: usize,
    h: usize,
    wide: usize,
    strip: usize,
    half: i32,
    shift: u32,
    r: &mut [i32],
)
    requires { Across w h wide m.now × (Rounded half shift × ((strip ≡ min w 8) × (length r.old ≡ h * w))) }
    ensures { r.new ≡ block w h (λ j y. shifted half shift (inverse_sum 0 w wide (λ i. at m.now (place_of (min h 8) (min w 8) (min w 8 * h) i y)) j)) }
{
    let apart = strip * h;
    if h < 8 {
        along_4(m, apart, w, wide, h, half, shift, r);
        return;
    }
    alongs(m, 8 * strip, apart, w, h, wide, 8, half, shift, r);
}
