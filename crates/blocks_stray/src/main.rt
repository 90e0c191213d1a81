// Prints how far a round trip can stray: D of every place, a line for each kind and size, and the largest of them. Nothing is proved
// of the text but that it ends: `stdout` has it.
#![tactic(auto)]

use file_input::ending::{tell, written};
use file_input::print_whole;
use round_trip::stray;
use std::fmt;
use std::fmt::{Display, Formatter, Write};

// Every D of a kind and a size, and the largest.
#[derive(Clone, Copy)]
struct Strays {
    kind: u32,
    n: u32,
}

impl Display for Strays {
    fn fmt<W: Write>(&self, f: &mut Formatter<W>) -> fmt::Result {
        let mut largest = 0;
        for j in 0..self.n {
            let d = stray(self.kind, self.n, j);
            write!(f, " {d}")?;
            largest = largest.max(d);
        }
        write!(f, "; largest {largest}")
    }
}

// The lines of every kind and size.
#[derive(Clone, Copy)]
struct EverySize;

impl Display for EverySize {
    fn fmt<W: Write>(&self, f: &mut Formatter<W>) -> fmt::Result {
        for (kind, name) in [(0, "DCT-II"), (1, "DST-VII"), (2, "DCT-VIII")] {
            for n in [4, 8, 16, 32] {
                writeln!(f, "{name}, {n} points:{}", Strays { kind, n })?;
            }
        }
        Ok(())
    }
}

fn main(rt: HostRuntime) {
    tell(&rt, written(print_whole(&rt, EverySize)));
}
