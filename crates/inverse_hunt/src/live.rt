// The live part of a block. One of up to 8 by 8 is worked whole: looking would take as long as it saves. So are all columns of one that
// has 4: fewer are not told apart.
ghost use Rattle.std.specs.Prelude.{◌≡◌, true, ◌*◌, ◌≤◌, length};
ghost use Rattle.meaning.specs.Shape.{is_size};
ghost use Rattle.layout.specs.Live.{Live, LiveColumns};

use layout::live::{live_columns, live_rows};
use layout::small::is_small;
use meaning::Shape;

pub fn rows(shape: Shape, c: &[i16]) -> usize
    requires { (is_size shape.height ≡ true) × (length c.now ≡ shape.height * shape.width) }
    ensures { Live c.now shape.width shape.height result }
{
    if is_small(shape) {
        shape.height as usize
    } else {
        live_rows(c, shape.width as usize, shape.height as usize)
    }
}

pub fn columns(shape: Shape, rows: usize, c: &[i16]) -> usize
    requires { (is_size shape.width ≡ true) × (rows * shape.width ≤ length c.now) }
    ensures { LiveColumns c.now shape.width rows result }
{
    if is_small(shape) || shape.width <= 4 {
        shape.width as usize
    } else {
        live_columns(c, shape.width as usize, rows)
    }
}
