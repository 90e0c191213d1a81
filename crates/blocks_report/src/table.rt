// The table: a line for each width, height and pair of kinds of which there was a block, then the refused.
ghost use Rattle.std.specs.Prelude.{◌<◌, ◌≤◌};

use std::fmt;
use std::fmt::{Display, Formatter, Write};

/// The text of totals.
#[derive(Clone, Copy)]
pub struct Report(pub [u64; 578]);

impl Display for Report {
    fn fmt<W: Write>(&self, f: &mut Formatter<W>) -> fmt::Result {
        let totals = &self.0;
        f.write_str(
            "width  height  horizontal  vertical  blocks     rails  largest      mean square\n",
        )?;
        write_rows(f, &totals[..576])?;
        writeln!(f, "{} of {} blocks refused", totals[576], totals[577])
    }
}

// Of a width, a height and a pair of kinds: blocks, rails, largest and squares. Nothing where there was no block.
fn write_rows<W: Write>(f: &mut Formatter<W>, totals: &[u64]) -> fmt::Result {
    let (rows, _) = totals.as_chunks::<4>();
    for (class, row) in rows.iter().enumerate() {
        if row[0] != 0 {
            write_row(f, class, *row)?;
        }
    }
    Ok(())
}

fn write_row<W: Write>(
    f: &mut Formatter<W>,
    class: usize,
    [blocks, rails, largest, squares]: [u64; 4],
) -> fmt::Result {
    let width = points(class / 36);
    let height = points(class / 9 % 4);
    let horizontal = class / 3 % 3;
    let vertical = class % 3;
    write!(f, "{width:>5}{height:>8}{horizontal:>12}{vertical:>10}")?;
    write!(f, "{blocks:>8}{rails:>10}{largest:>9}")?;
    write_mean(f, squares, residuals(blocks, width, height))?;
    f.write_str("\n")
}

// 0 to 3 are 4, 8, 16 and 32.
fn points(k: usize) -> u64
    ensures { result ≤ 32 }
{
    match k {
        0 => 4,
        1 => 8,
        2 => 16,
        _ => 32,
    }
}

// How many residuals there are in blocks of one size.
fn residuals(blocks: u64, width: u64, height: u64) -> u64
    requires { (width ≤ 32) × (height ≤ 32) }
    ensures { result ≤ 67108864 }
{
    if blocks > 65536 {
        return 0;
    }
    blocks * (width * height)
}

// A sum over a count to three places, the nearest, halves up: 20 characters at most before the point.
fn write_mean<W: Write>(f: &mut Formatter<W>, sum: u64, count: u64) -> fmt::Result
    requires { count ≤ 67108864 }
{
    if count == 0 {
        return Ok(());
    }
    let part = (sum % count * 1000 + count / 2) / count;
    let whole = (sum / count).wrapping_add(part / 1000);
    let part = part % 1000;
    write!(f, "{whole:>13}.{part:03}")
}
