// The shifts of a forward block's stages.
ghost use Rattle.std.specs.Prelude.{◌≡◌, true};
ghost use Rattle.meaning.specs.Shape.{is_depth};
ghost use Rattle.meaning.specs.Forward.{log2, row_shift, column_shift};

use meaning::Shape;

fn log(n: u32) -> u32
    ensures { result ≡ log2 n }
{
    match n {
        4 => 2,
        8 => 3,
        16 => 4,
        _ => 5,
    }
}

// "p = log2(w)+d-9"
pub fn row_shift(shape: Shape) -> u32
    requires { is_depth shape.depth ≡ true }
    ensures { result ≡ row_shift shape }
{
    log(shape.width) + shape.depth - 9
}

// "q = log2(h)+6"
pub fn column_shift(shape: Shape) -> u32
    ensures { result ≡ column_shift shape }
{
    log(shape.height) + 6
}
