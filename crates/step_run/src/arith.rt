// Cells by number, and the operations of a step, exact in 64 bits.
ghost use Rattle.std.specs.Prelude.{◌≡◌, ◌*ℤ◌};
ghost use Rattle.steps.specs.Numbers.{cell_of};
ghost use Rattle.step_run.specs.Parts.{reads_two, combined};

// A cell's number; past all cells where it is negative.
pub fn cell(x: i32) -> usize
    ensures { result ≡ cell_of x }
{
    // A conversion that may fail takes three instructions more for each cell of a step.
    if x < 0 { 2048 } else { x as usize }
}

fn product(x: i32, y: i32) -> i64
    ensures { result ≡ x *ℤ y }
{
    i64::from(x) * i64::from(y)
}

// What the step of operation o makes of the numbers x and y.
pub fn combine(o: i32, x: i32, y: i32) -> i64
    ensures { result ≡ combined o x y }
{
    match o {
        0 => i64::from(x) + i64::from(y),
        1 => i64::from(x) - i64::from(y),
        2 => -i64::from(x),
        _ => product(y, x),
    }
}

pub fn reads_two(o: i32) -> bool
    ensures { result ≡ reads_two o }
{
    matches!(o, 0 | 1)
}
