// The last shift of an inverse block, ">> (20-d)".
ghost use Rattle.std.specs.Prelude.{◌≡◌, true, ◌≤◌, ◌<◌};
ghost use Rattle.meaning.specs.Shape.{is_depth};
ghost use Rattle.meaning.specs.Plan.{plan_of};

use meaning::Shape;

pub fn last_shift(shape: Shape) -> u32
    requires { is_depth shape.depth ≡ true }
    ensures { (result ≡ (plan_of shape).last) × ((0 < result) × (result ≤ 20)) }
{
    20 - shape.depth
}
