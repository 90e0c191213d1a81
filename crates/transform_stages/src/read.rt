// What the stages read, apart from the numbers that they write: the first columns and rows. What stands beyond them is not looked at.
ghost use Rattle.std.specs.Prelude.{◌≡◌, ◌+◌, ◌*◌, ◌≤◌, length};
ghost use Rattle.algebra.specs.Lists.{at};
ghost use Rattle.transform_stages.specs.Work.{line_from, Copied, RoomRead, Readable};

// `count` numbers from o on, to place p.
fn copy(c: &[i32], o: usize, count: usize, p: usize, room: &mut [i32])
    requires { (o + count ≤ length c.now) × (p + count ≤ length room.old) }
    ensures { Copied c.now o count p room.old room.new }
{
    for x in 0..count {
        room[p + x] = c[o + x];
    }
}

// The first `count` numbers from o on as a line, with 0 behind them.
pub fn line_of(c: &[i32], o: usize, count: usize) -> [i32; 32]
    requires { (count ≤ 32) × (o + count ≤ length c.now) }
    ensures { result ≡ line_from c.now o count }
{
    let mut line = [0i32; 32];
    copy(c, o, count, 0, &mut line);
    line
}

// The first columns and rows of rows of w, into rows of 32 of a room of zeros, which callers lend: one that is handed back would stand
// on the stack twice.
pub fn read(c: &[i32], w: usize, columns: usize, rows: usize, room: &mut [i32; 1024])
    requires { Readable w columns rows c.now × RoomRead c.now w columns 0 room.old }
    ensures { RoomRead c.now w columns rows room.new }
{
    for y in 0..rows {
        copy(c, y * w, columns, y * 32, room);
    }
}
