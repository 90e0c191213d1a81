// The one stage of a block with a side of 1: the line of its other side.
ghost use Rattle.std.specs.Prelude.{◌≡◌, length};
ghost use Rattle.algebra.specs.Lists.{tabulate};
ghost use Rattle.transform_stages.specs.Work.{rounded_sum};
ghost use Rattle.transform_line.specs.Lines.{GivenSide};

use crate::lines::{lines_of, step_of};
use crate::two::{rows_of_two, sum_of};
use narrowing::narrow;
use product::half;

fn fill(v: i32, r: &mut [i32])
    ensures { r.new ≡ tabulate (length r.old) (λ _. v) }
{
    for i in 0..r.len() {
        r[i] = v;
    }
}

// The line of n points over its first `count` numbers. One coefficient of kind 0 is a fill.
pub fn stage(kind: u32, n: usize, count: usize, last: u32, numbers: &mut [i32])
    requires { GivenSide kind n count last numbers.old }
    ensures { numbers.new ≡ tabulate n (rounded_sum kind n count last numbers.old) }
{
    let half = half(last);
    if kind == 0 {
        if count == 1 {
            let v = numbers[0] as i16;
            fill(sum_of(v, 0, half, last), numbers);
            return;
        }
    }
    let mut m = [0i16; 64];
    let step = step_of(n);
    narrow(numbers, n, count, 1, step, &mut m);
    if n == 2 {
        rows_of_two(&m, 2, 1, 1, half, last, numbers);
        return;
    }
    let counted = numbers.len();
    lines_of(kind, n, count, counted, 1, step, &m, half, last, numbers);
}
