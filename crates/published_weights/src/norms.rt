// Document 004, table II, "Norm measure: n_i = |1 - d_i·d_i / d_0·d_0|", of the matrix that the fold rule makes of a first row: no
// sign counts, and d_i is row i. In whole numbers: the largest distance of d_i·d_i from d_0·d_0, of d_0·d_0.
ghost use Rattle.std.specs.Prelude.{◌+◌, ◌≤◌, ◌<◌, length};

use crate::numbers;
use line::weight;
use std::{array, io};

// The square of a weight of a first row; such a weight is not negative and has 8 bits.
fn square(w: i32) -> u32
    ensures { result ≤ 16384 }
{
    match w {
        0..=128 => (w * w) as u32,
        _ => 0,
    }
}

// The square of s k, and 0 where k is 0.
fn square_at(first: &[i32], k: usize) -> u32
    ensures { result ≤ 16384 }
{
    if k == 0 || first.len() < k {
        return 0;
    }
    square(first[k - 1])
}

// "m modulo L", one step further.
fn stepped(m: usize, step: usize, l: usize) -> usize
    requires { (m < l) × (step < l) × (l ≤ 65) }
    ensures { result < l }
{
    if m + step < l { m + step } else { m + step - l }
}

// "the smaller of m and L-m"
fn folded(m: usize, l: usize) -> usize
    requires { m < l }
{
    m.min(l - m)
}

// d_i·d_i; m is (2i+1) * (j+1) modulo L.
fn squares(first: &[i32], i: usize) -> u32
    requires { (i < length first.now) × (length first.now ≤ 32) }
    ensures { result ≤ 524288 }
{
    let l = 2 * first.len() + 1;
    let mut sum = 0;
    let mut m = 0;
    for _j in 0..first.len() {
        m = stepped(m, 2 * i + 1, l);
        sum += square_at(first, folded(m, l));
    }
    sum
}

fn farthest(first: &[i32], base: u32) -> u32
    requires { (length first.now ≤ 32) × (base ≤ 524288) }
    ensures { result ≤ 1048576 }
{
    let mut most = 0;
    for i in 0..first.len() {
        most = most.max(squares(first, i).abs_diff(base));
    }
    most
}

// Which column of the table has a measure, in ten-thousandths, rounded down.
fn column(measure: u64, tuned: u64, original: u64) -> &'static str {
    if measure == tuned {
        "Tuned"
    } else if measure == original {
        "Original"
    } else {
        "neither column"
    }
}

// The measure of a first row beside the two of the table, which are for 8 bits.
fn report(out: &impl Print, name: &str, first: &[i32], tuned: u64, original: u64) -> io::Result<()>
    requires { (0 < length first.now) × (length first.now ≤ 32) }
{
    let base = squares(first, 0);
    if base == 0 {
        return Ok(());
    }
    let most = farthest(first, base);
    let measure = u64::from(most) * 10000 / u64::from(base);
    let column = column(measure, tuned, original);
    print!(out; "document 004, table II, norm measure of {name}: {most} of {base}")?;
    println!(out; ", {measure} ten-thousandths, {column}")
}

// The library's own first row of 32 points.
fn library_32() -> [i32; 32] {
    array::from_fn(|j| weight(1, 32, 0, j as u32))
}

fn report_32(out: &impl Print, name: &str, first: &[i32; 32]) -> io::Result<()> {
    report(out, name, first, 39, 45)
}

pub fn table_ii(out: &impl Print) -> io::Result<()> {
    report_32(out, "the library's row of 32 points", &library_32())?;
    report_32(out, "document 01's row of 32 points", &numbers::FIRST_32)?;
    report_32(out, "equation 12's row of 32 points", &numbers::EQUATION_12)?;
    report(
        out,
        "equation 8's row of 16 points",
        &numbers::FIRST_16,
        47,
        66,
    )
}
