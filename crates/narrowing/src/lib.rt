// Internal: what is read of a block of 32-bit numbers, as 16-bit numbers in a room that is 0 beside and below them: the stages write
// where it stood. Read specs/Narrow; of proofs/ Unread says that what is not read does not matter.
#![tactic(auto)]

ghost use Rattle.std.specs.Prelude.{◌≡◌, ℕ, ◌+◌, ◌<◌, length};
ghost use Rattle.algebra.specs.Lists.{at, tabulate};
ghost use Rattle.std.specs.Int.{w16};
ghost use Rattle.std.proofs.Common.{SFits};
ghost use Rattle.narrowing.specs.Narrow.{GivenNarrow, Narrowed};

fn narrow_row(c: &[i32], room: &mut [i16])
    requires { (length c.now ≡ length room.old) × ((k : ℕ) → k < length c.now → SFits w16 (at c.now k)) }
    ensures { room.new ≡ tabulate (length room.old) (at c.now) }
{
    for k in 0..c.len() {
        room[k] = c[k] as i16;
    }
}

fn narrow_rows(c: &[i32], w: usize, columns: usize, rows: usize, broad: usize, room: &mut [i16])
    requires { GivenNarrow c.now w columns rows broad room.old }
    ensures { Narrowed (length room.old) c.now w columns rows broad room.new }
{
    for y in 0..rows {
        let a = y * w;
        let o = y * broad;
        let b = a + columns;
        let e = o + columns;
        narrow_row(&c[a..b], &mut room[o..e]);
    }
}

// The first columns and rows of rows of w, in rows of `broad`. Whole rows are one long row, which the compiler takes eight numbers at a
// time.
pub fn narrow(c: &[i32], w: usize, columns: usize, rows: usize, broad: usize, room: &mut [i16])
    requires { GivenNarrow c.now w columns rows broad room.old }
    ensures { Narrowed (length room.old) c.now w columns rows broad room.new }
{
    if columns == w {
        let all = rows * w;
        narrow_rows(c, all, all, 1, all, room);
        return;
    }
    narrow_rows(c, w, columns, rows, broad, room);
}
