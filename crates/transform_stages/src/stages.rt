// Both stages of a block, and the one stage of a thin one, in place.
ghost use Rattle.std.specs.Prelude.{◌≡◌, length};
ghost use Rattle.algebra.specs.Lists.{tabulate};
ghost use Rattle.meaning.specs.Inverse.{rails, inverse_block};
ghost use Rattle.transform_stages.specs.Work.{worked, rounded_sum, GivenTwo, GivenOne, Given, Staged};

use crate::read::{line_of, read};
use crate::upward::upward;
use crate::weights::weights;
use long_stages::stages::{middles, residual_row};

// The line of n points of a block of which the other side is 1, over its first `count` numbers.
fn one_stage(
    kind: u32,
    n: u32,
    count: u32,
    last: u32,
    s: &mut [i16; 1024],
    t: &mut [i16; 2048],
    numbers: &mut [i32],
)
    requires { GivenOne kind n count last numbers.old × ((length s.old ≡ 1024) × (length t.old ≡ 2048)) }
    ensures { numbers.new ≡ tabulate n (rounded_sum kind n count last numbers.old) }
{
    let k = count as usize;
    let line = line_of(numbers, 0, k);
    weights(kind, n as usize, s, t);
    residual_row(t, n as usize, 1, 0, &line, 32, (k + 1) / 2, last, numbers);
}

// Hands back the rail count. The weights of the rows take the room of the columns', which are used up by then.
fn two_stages(
    width: u32,
    height: u32,
    horizontal: u32,
    vertical: u32,
    columns: u32,
    rows: u32,
    reach: u32,
    last: u32,
    s: &mut [i16; 1024],
    t: &mut [i16; 2048],
    numbers: &mut [i32],
) -> u32
    requires { GivenTwo (worked width height horizontal vertical columns rows reach last) reach numbers.old × ((length s.old ≡ 1024) × (length t.old ≡ 2048)) }
    ensures { (result ≡ rails (worked width height horizontal vertical columns rows reach last) numbers.old) × (numbers.new ≡ inverse_block (worked width height horizontal vertical columns rows reach last) numbers.old) }
{
    let w = width as usize;
    let h = height as usize;
    let n = columns as usize;
    let k = rows as usize;
    let mut c = [0i32; 1024];
    read(numbers, w, n, k, &mut c);
    weights(vertical, h, s, t);
    let rails = middles(t, h, &c, 32, (k + 1) / 2, n, reach, numbers);
    weights(horizontal, w, s, t);
    upward(t, w, h, n, (n + 1) / 2, last, numbers);
    rails
}

// Hands back the rail count, which is 0 with one stage. Both ways share their rooms: with rooms of their own they would take more stack.
pub fn stages(
    width: u32,
    height: u32,
    horizontal: u32,
    vertical: u32,
    columns: u32,
    rows: u32,
    reach: u32,
    last: u32,
    numbers: &mut [i32],
) -> u32
    requires { Given width height horizontal vertical columns rows reach last numbers.old }
    ensures { Staged width height horizontal vertical columns rows reach last numbers.old result numbers.new }
{
    let mut s = [0i16; 1024];
    let mut t = [0i16; 2048];
    if width == 1 {
        one_stage(vertical, height, rows, last, &mut s, &mut t, numbers);
        return 0;
    }
    if height == 1 {
        one_stage(horizontal, width, columns, last, &mut s, &mut t, numbers);
        return 0;
    }
    two_stages(
        width, height, horizontal, vertical, columns, rows, reach, last, &mut s, &mut t, numbers,
    )
}
