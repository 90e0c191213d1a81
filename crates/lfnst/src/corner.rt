// The corner, and the order in which it is read.
ghost use Rattle.std.specs.Prelude.{◌≡◌, cond, ◌&&◌, ℕ, ◌+◌, ◌*◌, ◌/◌, ◌%◌, ◌≤◌, ◌<◌, ltb, pos, length};
ghost use Rattle.std.specs.Int.{w16};
ghost use Rattle.std.proofs.Common.{SFits};
ghost use Rattle.algebra.specs.Lists.{at, tabulate};
ghost use Rattle.lfnst.specs.LowFrequency.{input};
ghost use Rattle.lfnst.specs.Work.{corner_at};

// Where each coefficient stands in the corner, row by row.
const ORDER: [usize; 16] = [0, 4, 1, 8, 5, 2, 12, 9, 6, 3, 13, 10, 7, 14, 11, 15];

// What stands in column x of row y, or 0 where it is not read.
fn kept(v: i32, x: usize, y: usize, columns: usize, rows: usize) -> i32
    ensures { result ≡ cond (ltb x columns && ltb y rows) v (pos 0) }
{
    if x < columns && y < rows { v } else { 0 }
}

// The corner of 4 by 4, row by row. What is not read is there too, and is looked at before the test: else each number is a branch.
pub fn read_corner(w: usize, columns: usize, rows: usize, numbers: &[i32], corner: &mut [i32; 16])
    requires { (4 ≤ w) × ((w ≤ 64) × ((4 * w ≤ length numbers.now) × (length corner.old ≡ 16))) }
    ensures { corner.new ≡ tabulate 16 (λ k. corner_at w columns rows numbers.now (k % 4) (k / 4)) }
{
    for k in 0..16 {
        let x = k % 4;
        let y = k / 4;
        corner[k] = kept(numbers[x + y * w], x, y, columns, rows);
    }
}

pub fn in_order(corner: &[i32; 16], u: &mut [i32; 16])
    requires { (length corner.now ≡ 16) × (length u.old ≡ 16) }
    ensures { u.new ≡ tabulate 16 (input (λ x y. at corner.now (x + 4 * y))) }
{
    let order = ORDER;
    for i in 0..16 {
        u[i] = corner[order[i]];
    }
}

// The same of numbers of 16 bits.
pub fn short_in_order(corner: &[i32; 16], u: &mut [i16; 16])
    requires { (length corner.now ≡ 16) × ((length u.old ≡ 16) × ((k : ℕ) → k < 16 → SFits w16 (at corner.now k))) }
    ensures { u.new ≡ tabulate 16 (input (λ x y. at corner.now (x + 4 * y))) }
{
    let order = ORDER;
    for i in 0..16 {
        u[i] = corner[order[i]] as i16;
    }
}
