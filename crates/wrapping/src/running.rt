// Running sums modulo 2^32, over the stored weights of a line: those of output j stand from 2 * j on, their pairs `apart` from each
// other. One table is taken for a line and lent from there.
ghost use Rattle.std.specs.Prelude.{◌≡◌, ◌+◌, ◌*◌, ◌<◌, ◌≤◌, length, unsigned_abs};
ghost use Rattle.algebra.specs.Lists.{at, tabulate};
ghost use Rattle.algebra.specs.Sum.{sum};
ghost use Rattle.meaning.specs.Taken.{TakenLine};
ghost use Rattle.product.specs.Product.{spot};
ghost use Rattle.wrapping.specs.Order.{Order};
ghost use Rattle.wrapping.specs.Wrapped.{wrap, adder};
ghost use Rattle.wrapping.specs.Feed.{product_at, Feed, line_sums};

use crate::word::{product, signed};
use stage_weights::put_1024;
use tables::zipped::{zipped_4, zipped_8, zipped_16};

// The product of input i in output j.
fn product_at(t: &[i16], apart: usize, j: usize, x: &[i16], i: usize) -> u32
    requires { (2 * j + spot apart i < length t.now) × ((i < length x.now) × (unsigned_abs (at t.now (2 * j + spot apart i)) ≤ 91)) }
    ensures { (result ≡ wrap (product_at t.now apart j x.now i)) × (unsigned_abs (product_at t.now apart j x.now i) ≤ 2981888) }
{
    product(t[2 * j + (i / 2 * apart + i % 2)], x[i])
}

// What the adder holds after the products of output j.
fn fed(t: &[i16], apart: usize, j: usize, x: &[i16], order: &[u32], start: u32) -> u32
    requires { Feed (length x.now) apart t.now order.now × (j < length x.now) }
    ensures { (result ≡ adder start order.now (product_at t.now apart j x.now)) × (unsigned_abs (sum (length x.now) (product_at t.now apart j x.now)) ≤ length x.now * 2981888) }
{
    let mut held = start;
    for k in 0..order.len() {
        let p = product_at(t, apart, j, x, order[k] as usize);
        held = std::num::wrapping_add_u32(held, p);
    }
    held
}

// The starting number is taken off at the end.
fn sum_of(t: &[i16], apart: usize, j: usize, x: &[i16], order: &[u32], start: u32) -> i32
    requires { Feed (length x.now) apart t.now order.now × (j < length x.now) }
    ensures { result ≡ sum (length x.now) (product_at t.now apart j x.now) }
{
    let held = fed(t, apart, j, x, order, start);
    signed(std::num::wrapping_sub_u32(held, start))
}

fn line_of(t: &[i16], apart: usize, start: u32, order: &[u32], x: &[i16], y: &mut [i32])
    requires { Feed (length x.now) apart t.now order.now × (length y.old ≡ length x.now) }
    ensures { y.new ≡ tabulate (length x.now) (λ j. sum (length x.now) (product_at t.now apart j x.now)) }
{
    for j in 0..y.len() {
        y[j] = sum_of(t, apart, j, x, order, start);
    }
}

pub fn line(n: usize, kind: u32, forward: bool, start: u32, order: &[u32], x: &[i16], y: &mut [i32])
    requires { TakenLine n kind (length x.now) (length y.old) × Order n order.now }
    ensures { y.new ≡ line_sums forward kind n (at x.now) }
{
    if n == 4 {
        let t = zipped_4(kind, forward);
        line_of(&t, 8, start, order, x, y);
    } else if n == 8 {
        let t = zipped_8(kind, forward);
        line_of(&t, 16, start, order, x, y);
    } else if n == 16 {
        let t = zipped_16(kind, forward);
        line_of(&t, 32, start, order, x, y);
    } else {
        let mut t = [0i16; 1024];
        put_1024(kind, forward, n, &mut t);
        line_of(&t, 64, start, order, x, y);
    }
}
