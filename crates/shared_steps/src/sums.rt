// Inverse, the sums of the first places of a class, from the inputs where they stand.
ghost use Rattle.std.specs.Prelude.{◌+◌, ◌<◌};
ghost use Rattle.shared_steps.specs.Lines.{used};
ghost use Rattle.shared_steps.specs.Steps.{Adding, Added};

use crate::arith::{mac, sign_of_input};
use crate::places::stored;

// Row i times its input, whose sign is changed in 32 bits where i is odd and that is asked.
pub fn row(w: &[i16], n: usize, i: usize, m: usize, x: &[i16], change: bool, a: &mut [i32])
    requires { (i < n) × Adding n m i w.now x.now a.old }
    ensures { Added n m i (used change x.now i) a.old a.new × Adding n m (i + 1) w.now x.now a.new }
{
    let v = sign_of_input(change & (i % 2 == 1), x[i]);
    for g in 0..m {
        a[g] = mac(a[g], stored(w, n, i, g), v);
    }
}
