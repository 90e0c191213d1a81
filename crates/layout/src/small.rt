// Blocks of up to 8 by 8, in either direction: rooms that every size shares take longer to clear than these take to
// work, and looking for a live part takes as long as it saves.
ghost use Rattle.std.specs.Prelude.{◌≡◌, true, ◌≤◌};

use meaning::Shape;

pub fn is_small(shape: Shape) -> bool
    ensures { result ≡ true → (shape.width ≤ 8) × (shape.height ≤ 8) }
{
    shape.width <= 8 && shape.height <= 8
}
