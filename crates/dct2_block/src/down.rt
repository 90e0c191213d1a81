// The first stage: strips of 8 neighbouring columns, or the one of 4.
ghost use Rattle.std.specs.Prelude.{◌≡◌, true, ℕ, ◌+◌, ◌*◌, ◌%◌, ◌≤◌, ◌<◌, min, length};
ghost use Rattle.kernel_picks.specs.Picks.{is_kernel};
ghost use Rattle.dct2_block.specs.Stages.{middle_of, Tiles, Read};

use kernel_picks::down::{down_4, down_8};

fn downs(
    c: &[i16],
    stride: usize,
    h: usize,
    high: usize,
    rows: usize,
    columns: usize,
    m: &mut [i16],
)
    requires { (is_kernel 8 h high ≡ true) × ((rows ≤ high) × ((columns % 8 ≡ 0) × (((x y : ℕ) → x < columns → y < rows → x + y * stride < length c.now) × (length m.old ≡ columns * h)))) }
    ensures { Tiles (min h 8) 8 (8 * h) columns h (middle_of h stride rows c.now) m.new }
{
    let tall = 8 * h;
    for strip in 0..columns / 8 {
        let x = 8 * strip;
        let o = x * h;
        let e = o + tall;
        down_8(c, stride, x, h, high, rows, &mut m[o..e]);
    }
}

// Middle values of the first columns, each of h rows.
pub fn down(
    c: &[i16],
    stride: usize,
    w: usize,
    h: usize,
    high: usize,
    rows: usize,
    columns: usize,
    m: &mut [i16],
)
    requires { Read w h stride rows columns high c.now × (length m.old ≡ columns * h) }
    ensures { Tiles (min h 8) (min w 8) (min w 8 * h) columns h (middle_of h stride rows c.now) m.new }
{
    if w < 8 {
        down_4(c, stride, 0, h, high, rows, m);
        return;
    }
    downs(c, stride, h, high, rows, columns, m);
}
