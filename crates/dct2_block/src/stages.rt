// Both stages, in a room for the middle values that is zeroed: the smallest of three that serves.
ghost use Rattle.std.specs.Prelude.{◌≡◌, false, ℕ, ◌≤◌, ◌<◌, min, length};
ghost use Rattle.algebra.specs.Lists.{block};
ghost use Rattle.dct2_block.specs.Stages.{middle_of, residual_by, Inner, whole_of, Work, InRoom, Asked};

use crate::along::along;
use crate::down::down;
use crate::touched::touched;
use product::half;

// How many columns a strip has.
pub fn strip_of(w: usize) -> usize
    ensures { result ≡ min w 8 }
{
    w.min(8)
}

// In a room of zeros. Hands back whether a middle value stands at an end of its range. `c[0..]` is c: where a slice is handed on as
// it came, the compiler copies pointer and length as one vector, which waits for the two stores that have just written them.
fn both(
    w: usize,
    h: usize,
    shift: u32,
    rows: usize,
    columns: usize,
    high: usize,
    wide: usize,
    stride: usize,
    c: &[i16],
    m: &mut [i16],
    r: &mut [i32],
) -> bool
    requires { Work w h shift rows columns high wide stride c.now m.old r.old }
    ensures { (r.new ≡ block w h (residual_by w h shift stride rows (min wide columns) c.now)) × (result ≡ false → (x y : ℕ) → x < columns → y < h → Inner (middle_of h stride rows c.now x y)) }
{
    let e = columns * h;
    down(&c[0..], stride, w, h, high, rows, columns, &mut m[0..e]);
    along(m, w, h, wide, strip_of(w), half(shift), shift, r);
    touched(&m[0..e])
}

fn in_room<const ROOM: usize>(
    w: usize,
    h: usize,
    shift: u32,
    rows: usize,
    columns: usize,
    high: usize,
    wide: usize,
    stride: usize,
    c: &[i16],
    r: &mut [i32],
) -> bool
    requires { (ROOM ≤ 1024) × InRoom ROOM w h shift rows columns high wide stride c.now r.old }
    ensures { (r.new ≡ block w h (residual_by w h shift stride rows (min wide columns) c.now)) × (result ≡ false → (x y : ℕ) → x < columns → y < h → Inner (middle_of h stride rows c.now x y)) }
{
    let mut m = [0i16; ROOM];
    both(w, h, shift, rows, columns, high, wide, stride, c, &mut m, r)
}

// Columns, filled up to whole strips.
fn whole_of(w: usize, columns: usize) -> usize
    requires { (columns ≤ w) × (w ≤ 64) }
    ensures { result ≡ whole_of w columns }
{
    if w < 8 {
        return w;
    }
    (columns + 7) / 8 * 8
}

// The first rows and columns of c, whose rows stand `stride` apart, by kernels of `high` and `wide` live inputs. Hands back whether a
// middle value stands at an end of its range.
pub fn stages(
    w: usize,
    h: usize,
    shift: u32,
    rows: usize,
    columns: usize,
    high: usize,
    wide: usize,
    stride: usize,
    c: &[i16],
    r: &mut [i32],
) -> bool
    requires { Asked w h shift rows columns high wide stride c.now r.old }
    ensures { (r.new ≡ block w h (residual_by w h shift stride rows columns c.now)) × (result ≡ false → (x y : ℕ) → x < columns → y < h → Inner (middle_of h stride rows c.now x y)) }
{
    let whole = whole_of(w, columns);
    let size = (wide + 7) / 8 * h;
    if size <= 8 {
        return in_room::<64>(w, h, shift, rows, whole, high, wide, stride, c, r);
    }
    if size <= 32 {
        return in_room::<256>(w, h, shift, rows, whole, high, wide, stride, c, r);
    }
    in_room::<1024>(w, h, shift, rows, whole, high, wide, stride, c, r)
}
