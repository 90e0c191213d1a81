// The text of a list.
use std::fmt;
use std::fmt::{Display, Formatter, Write};

/// A list whose lines have as many inputs as outputs: its steps are four numbers each, the operation, the target and two operands.
#[derive(Clone, Copy)]
pub struct Listing<'a> {
    pub cells: u32,
    pub steps: &'a [i32],
    pub outs: &'a [i32],
}

impl Display for Listing<'_> {
    fn fmt<W: Write>(&self, f: &mut Formatter<W>) -> fmt::Result {
        let (steps, _) = self.steps.as_chunks::<4>();
        let lines = self.outs.len();
        write_inputs(f, lines)?;
        write_steps(f, steps)?;
        write_outputs(f, self.outs)?;
        let cells = self.cells;
        let all = steps.len();
        write!(
            f,
            "{lines} inputs, {lines} outputs, {cells} cells, {all} steps: "
        )?;
        write_counts(f, steps)
    }
}

fn write_inputs<W: Write>(f: &mut Formatter<W>, inputs: usize) -> fmt::Result {
    for k in 0..inputs {
        writeln!(f, "c{k} = x{k}")?;
    }
    Ok(())
}

// A number behind a text. With `{}` for its digits a list takes twice as long.
fn write_after<W: Write>(f: &mut Formatter<W>, text: &str, number: i32) -> fmt::Result {
    f.write_str(text)?;
    f.write_str(itoa::Buffer::new().format(number))
}

// An addition, a subtraction, a negation or a multiplication by a number.
fn write_step<W: Write>(f: &mut Formatter<W>, [o, t, a, d]: [i32; 4]) -> fmt::Result {
    write_after(f, "c", t)?;
    write_after(f, if o == 2 { " = -c" } else { " = c" }, a)?;
    match o {
        0 => write_after(f, " + c", d)?,
        1 => write_after(f, " - c", d)?,
        2 => (),
        _ => write_after(f, " * ", d)?,
    }
    f.write_str("\n")
}

fn write_steps<W: Write>(f: &mut Formatter<W>, steps: &[[i32; 4]]) -> fmt::Result {
    for step in steps {
        write_step(f, *step)?;
    }
    Ok(())
}

fn write_outputs<W: Write>(f: &mut Formatter<W>, outs: &[i32]) -> fmt::Result {
    for (k, cell) in outs.iter().enumerate() {
        writeln!(f, "y{k} = c{cell}")?;
    }
    Ok(())
}

// How many steps have each operation.
fn counts(steps: &[[i32; 4]]) -> [usize; 4] {
    let mut counts = [0usize; 4];
    for [o, ..] in steps {
        let k = match *o {
            0 => 0,
            1 => 1,
            2 => 2,
            3 => 3,
            _ => continue,
        };
        counts[k] = counts[k].wrapping_add(1);
    }
    counts
}

fn write_counts<W: Write>(f: &mut Formatter<W>, steps: &[[i32; 4]]) -> fmt::Result {
    let [additions, subtractions, negations, multiplications] = counts(steps);
    writeln!(
        f,
        "{additions} additions, {subtractions} subtractions, {negations} negations, {multiplications} multiplications"
    )
}
