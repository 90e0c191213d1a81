// The numbers of a line.
use crate::numbers::mark;
use std::fmt;
use std::fmt::{Display, Formatter, Write};

/// Numbers, each behind a blank.
#[derive(Clone, Copy)]
pub struct Spaced<'a>(pub &'a [i32]);

impl Display for Spaced<'_> {
    fn fmt<W: Write>(&self, f: &mut Formatter<W>) -> fmt::Result {
        for n in self.0 {
            write!(f, " {n}")?;
        }
        Ok(())
    }
}

/// How many numbers of an output a call changed, their sum, and their sum with each number times its place from 1; then all, where
/// they are sixteen.
#[derive(Clone, Copy)]
pub struct Output<'a>(pub &'a [i32]);

impl Display for Output<'_> {
    fn fmt<W: Write>(&self, f: &mut Formatter<W>) -> fmt::Result {
        let output = self.0;
        let changed = output
            .iter()
            .enumerate()
            .filter(|(k, n)| **n != mark(*k))
            .count();
        write!(f, "{changed} {} {}", sum(output), sum_by_places(output))?;
        if output.len() == 16 {
            write!(f, "{}", Spaced(output))?;
        }
        Ok(())
    }
}

// Sums wrap, so that they need no proof that they fit: those of 1024 numbers of 32 bits, each times a place of at most 1024, are far
// inside 64 bits.
fn sum(numbers: &[i32]) -> i64 {
    let mut sum: i64 = 0;
    for n in numbers {
        sum = sum.wrapping_add(i64::from(*n));
    }
    sum
}

fn sum_by_places(numbers: &[i32]) -> i64 {
    let mut sum: i64 = 0;
    for (k, n) in numbers.iter().enumerate() {
        let place = (k as i64).wrapping_add(1);
        sum = sum.wrapping_add(i64::from(*n).wrapping_mul(place));
    }
    sum
}
