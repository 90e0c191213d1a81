// Where the values go: four numbers at a time, into the first columns and rows of the block.
ghost use Rattle.std.specs.Prelude.{◌≡◌, true, false, ◌+◌, ◌*◌, ◌≤◌, ◌<◌, pos, length};
ghost use Rattle.algebra.specs.Lists.{at};
ghost use Rattle.kernel_steps.specs.Written.{WroteFrom};
ghost use Rattle.lfnst.specs.LowFrequency.{standing};
ghost use Rattle.lfnst.specs.Work.{Placed};

// Every step-th value from o on; all are read before one is written.
fn four(v: &[i32; 48], o: usize, step: usize, numbers: &mut [i32], p: usize)
    requires { (o + 3 * step < 48) × ((length v.now ≡ 48) × (p + 4 ≤ length numbers.old)) }
    ensures { WroteFrom p 4 numbers.new numbers.old (λ k. at v.now (o + k * step)) }
{
    let a = v[o];
    let b = v[o + step];
    let c = v[o + 2 * step];
    let d = v[o + 3 * step];
    numbers[p] = a;
    numbers[p + 1] = b;
    numbers[p + 2] = c;
    numbers[p + 3] = d;
}

fn none(numbers: &mut [i32], p: usize)
    requires { p + 4 ≤ length numbers.old }
    ensures { WroteFrom p 4 numbers.new numbers.old (λ _. pos 0) }
{
    numbers[p] = 0;
    numbers[p + 1] = 0;
    numbers[p + 2] = 0;
    numbers[p + 3] = 0;
}

// A row of 16 values: column by column where it is transposed.
fn row_16(transposed: bool, y: usize, v: &[i32; 48], numbers: &mut [i32], p: usize)
    requires { (y < 4) × ((length v.now ≡ 48) × (p + 4 ≤ length numbers.old)) }
    ensures { WroteFrom p 4 numbers.new numbers.old (λ x. standing false transposed (at v.now) x y) }
{
    if transposed {
        four(v, y, 4, numbers, p);
    } else {
        four(v, 4 * y, 1, numbers, p);
    }
}

// One of 48 values, row by row.
fn straight(y: usize, v: &[i32; 48], numbers: &mut [i32], p: usize)
    requires { (y < 8) × ((length v.now ≡ 48) × (p + 8 ≤ length numbers.old)) }
    ensures { WroteFrom p 8 numbers.new numbers.old (λ x. standing true false (at v.now) x y) }
{
    if y < 4 {
        four(v, 8 * y, 1, numbers, p);
        four(v, 8 * y + 4, 1, numbers, p + 4);
    } else {
        four(v, 16 + 4 * y, 1, numbers, p);
        none(numbers, p + 4);
    }
}

// Column by column.
fn turned(y: usize, v: &[i32; 48], numbers: &mut [i32], p: usize)
    requires { (y < 8) × ((length v.now ≡ 48) × (p + 8 ≤ length numbers.old)) }
    ensures { WroteFrom p 8 numbers.new numbers.old (λ x. standing true true (at v.now) x y) }
{
    four(v, y, 8, numbers, p);
    if y < 4 {
        four(v, 32 + y, 4, numbers, p + 4);
    } else {
        none(numbers, p + 4);
    }
}

fn row_48(transposed: bool, y: usize, v: &[i32; 48], numbers: &mut [i32], p: usize)
    requires { (y < 8) × ((length v.now ≡ 48) × (p + 8 ≤ length numbers.old)) }
    ensures { WroteFrom p 8 numbers.new numbers.old (λ x. standing true transposed (at v.now) x y) }
{
    if transposed {
        turned(y, v, numbers, p);
    } else {
        straight(y, v, numbers, p);
    }
}

// All 4 rows of 4, in rows of w.
pub fn place_16(transposed: bool, w: usize, v: &[i32; 48], numbers: &mut [i32])
    requires { (length v.now ≡ 48) × ((4 ≤ w) × (4 * w ≤ length numbers.old)) }
    ensures { Placed 4 4 w (standing false transposed (at v.now)) numbers.old numbers.new }
{
    for y in 0..4 {
        row_16(transposed, y, v, numbers, y * w);
    }
}

// All 8 rows of 8.
pub fn place_48(transposed: bool, w: usize, v: &[i32; 48], numbers: &mut [i32])
    requires { (length v.now ≡ 48) × ((8 ≤ w) × (8 * w ≤ length numbers.old)) }
    ensures { Placed 8 8 w (standing true transposed (at v.now)) numbers.old numbers.new }
{
    for y in 0..8 {
        row_48(transposed, y, v, numbers, y * w);
    }
}
