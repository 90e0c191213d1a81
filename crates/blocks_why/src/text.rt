// The text: the four parts, their sum, the divisor and the residual, a line each, in whole numbers and as a decimal fraction of a level.
ghost use Rattle.std.specs.Prelude.{◌<◌, ◌≤◌};

use std::fmt;
use std::fmt::{Display, Formatter, Write};
use why::Parts;

/// The parts of a residual of a block of that depth.
#[derive(Clone, Copy)]
pub struct Text {
    pub depth: u32,
    pub parts: Parts,
}

impl Display for Text {
    fn fmt<W: Write>(&self, f: &mut Formatter<W>) -> fmt::Result {
        write_parts(f, self.parts, divisor_of(self.depth))
    }
}

// A number by its sign and its size: what stands before the point of -0.5 is -0.
#[derive(Clone, Copy)]
struct Whole {
    is_negative: bool,
    size: u64,
}

impl Display for Whole {
    fn fmt<W: Write>(&self, f: &mut Formatter<W>) -> fmt::Result {
        let mut digits = itoa::Buffer::new();
        f.pad_integral(!self.is_negative, "", digits.format(self.size))
    }
}

impl Whole {
    // How many whole levels there are in a number.
    fn levels(n: i64, divisor: u64) -> Whole
        requires { 0 < divisor }
    {
        Whole {
            is_negative: n < 0,
            size: n.unsigned_abs() / divisor,
        }
    }
}

// The digits behind the point: as many as it takes, which are no more than 19 where the divisor is a power of two up to 2^19.
fn write_decimals<W: Write>(f: &mut Formatter<W>, rest: u64, divisor: u64) -> fmt::Result
    requires { (rest < divisor) × (divisor ≤ 524288) }
{
    if rest == 0 {
        return Ok(());
    }
    f.write_str(".")?;
    let mut left = rest;
    for _digit in 0..19 {
        if left == 0 {
            break;
        }
        let tenfold = left * 10;
        write!(f, "{}", tenfold / divisor)?;
        left = tenfold % divisor;
    }
    Ok(())
}

fn write_line<W: Write>(f: &mut Formatter<W>, name: &str, n: i64, divisor: u64) -> fmt::Result
    requires { (0 < divisor) × (divisor ≤ 524288) }
{
    let levels = Whole::levels(n, divisor);
    write!(f, "{name:16}{n:>14}{levels:>10}")?;
    write_decimals(f, n.unsigned_abs() % divisor, divisor)?;
    f.write_str("\n")
}

// Behind the parts.
fn write_end<W: Write>(f: &mut Formatter<W>, sum: i64, divisor: u64) -> fmt::Result
    requires { (0 < divisor) × (divisor ≤ 524288) }
{
    write_line(f, "sum", sum, divisor)?;
    let residual = Whole::levels(sum, divisor);
    writeln!(f, "divisor         {divisor:>14}")?;
    writeln!(f, "residual        {residual:>14}")
}

fn write_parts<W: Write>(f: &mut Formatter<W>, parts: Parts, divisor: u64) -> fmt::Result
    requires { (0 < divisor) × (divisor ≤ 524288) }
{
    write_line(f, "exact", parts.exact, divisor)?;
    write_line(f, "middle roundings", parts.middle_roundings, divisor)?;
    write_line(f, "clippings", parts.clippings, divisor)?;
    write_line(f, "last rounding", parts.last_rounding, divisor)?;
    // Wrapping, so that it needs no proof that the sums fit.
    let sum = parts.exact.wrapping_add(parts.middle_roundings);
    let sum = sum
        .wrapping_add(parts.clippings)
        .wrapping_add(parts.last_rounding);
    write_end(f, sum, divisor)
}

// "Put over 2^(27-d)", of a depth that a block has: 8 to 12.
fn divisor_of(depth: u32) -> u64
    ensures { (0 < result) × (result ≤ 524288) }
{
    match depth {
        8 => 524288,
        9 => 262144,
        10 => 131072,
        11 => 65536,
        _ => 32768,
    }
}
