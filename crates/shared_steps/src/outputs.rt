// Forward, one short product for each output.
ghost use Rattle.std.specs.Prelude.{◌≡◌, ◌≤◌, ◌<◌, nat_abs};
ghost use Rattle.shared_steps.specs.Lines.{alternated};
ghost use Rattle.shared_steps.specs.Steps.{Bounded, Ready, PutAlone, short_sum};
ghost use Rattle.tables.specs.Table.{Table};

use crate::arith::{mac, sign};
use crate::places::stored;

fn dot(w: &[i16], n: usize, i: usize, t: &[i32], m: usize) -> i32
    requires { (i < n) × ((n ≤ 32) × ((m ≤ n) × ((m ≤ 26) × (Table n w.now × Bounded m 425984 t.now)))) }
    ensures { (result ≡ short_sum n m t.now i) × (nat_abs result ≤ 1000000000) }
{
    let mut sum: i32 = 0;
    for g in 0..m {
        sum = mac(sum, stored(w, n, i, g), t[g]);
    }
    sum
}

// Output i, with its sign changed where i is odd and that is asked.
pub fn put(w: &[i16], n: usize, i: usize, t: &[i32], m: usize, change: bool, y: &mut [i32])
    requires { (i < n) × Ready n m w.now t.now y.old }
    ensures { PutAlone i (alternated change i (short_sum n m t.now i)) y.old y.new × Ready n m w.now t.now y.new }
{
    y[i] = sign(change & (i % 2 == 1), dot(w, n, i, t, m));
}
