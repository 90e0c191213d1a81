// Internal: what is read of a block, clipped to 16 bits on its way into a room: where nothing stands at an end of the range there, nothing
// was outside of it, so one pass is both the look for 27 and the narrowing. `narrowing` has what the room is to hold.
#![tactic(auto)]

ghost use Rattle.std.specs.Prelude.{◌≡◌, true, ℕ, ◌+◌, ◌*◌, ◌≤◌, ◌<◌, pos, length};
ghost use Rattle.std.specs.Int.{w16};
ghost use Rattle.std.proofs.Common.{SFits};
ghost use Rattle.algebra.specs.Clip.{clip};
ghost use Rattle.algebra.specs.Lists.{at};
ghost use Rattle.meaning.specs.Plan.{short_range};
ghost use Rattle.kernel_steps.specs.Written.{WroteFrom};
ghost use Rattle.narrowing.specs.Narrow.{Narrowed};
ghost use Rattle.clipping.specs.Clips.{Clips};

use dct2_block::touched::touched;
use kernel_steps::clip16;

// The numbers from o on, as many as `count`. The compiler makes the clip one instruction, for eight at a time.
fn clip_row(c: &[i32], o: usize, count: usize, room: &mut [i16])
    requires { (o + count ≤ length c.now) × (o + count ≤ length room.old) }
    ensures { WroteFrom o count room.new room.old (λ k. clip short_range (at c.now (o + k))) }
{
    for k in 0..count {
        room[o + k] = clip16(c[o + k]);
    }
}

// The first columns of each row.
fn clip_rows(c: &[i32], w: usize, columns: usize, rows: usize, room: &mut [i16])
    requires { (columns ≤ w) × ((rows * w ≤ length c.now) × ((rows * w ≤ length room.old) × ((k : ℕ) → at room.old k ≡ pos 0))) }
    ensures { (length room.new ≡ length room.old) × Clips c.now w columns rows room.new }
{
    for y in 0..rows {
        clip_row(c, y * w, columns, room);
    }
}

// Where all columns are read, the rows are one stretch.
fn clip_all(c: &[i32], w: usize, columns: usize, rows: usize, room: &mut [i16])
    requires { (columns ≤ w) × ((rows * w ≤ length c.now) × ((rows * w ≤ length room.old) × ((k : ℕ) → at room.old k ≡ pos 0))) }
    ensures { (length room.new ≡ length room.old) × Clips c.now w columns rows room.new }
{
    if columns == w {
        clip_row(c, 0, rows * w, room);
        return;
    }
    clip_rows(c, w, columns, rows, room);
}

// Whether the room, which was 0, holds what is read, and this has 16 bits.
pub fn clip_read(c: &[i32], w: usize, columns: usize, rows: usize, room: &mut [i16]) -> bool
    requires { (columns ≤ w) × ((rows * w ≤ length c.now) × ((rows * w ≤ length room.old) × ((k : ℕ) → at room.old k ≡ pos 0))) }
    ensures { result ≡ true → Narrowed (length room.old) c.now w columns rows w room.new × ((x y : ℕ) → x < columns → y < rows → SFits w16 (at c.now (x + y * w))) }
{
    clip_all(c, w, columns, rows, room);
    !touched(room)
}
