// Shapes and answers as numbers, lent in arrays of 64: seven numbers to a shape, three to an answer, as the structs have them.
ghost use Rattle.std.specs.Prelude.{◌≡◌, ◌<◌};
ghost use Rattle.block_row.specs.Numbers.{row_shape, put_at};

use meaning::{Answer, Shape};

pub fn row_shape(shapes: &[u32; 448], k: usize) -> Shape
    requires { k < 64 }
    ensures { result ≡ row_shape shapes.now k }
{
    let i = k * 7;
    Shape {
        width: shapes[i],
        height: shapes[i + 1],
        horizontal: shapes[i + 2],
        vertical: shapes[i + 3],
        depth: shapes[i + 4],
        columns: shapes[i + 5],
        rows: shapes[i + 6],
    }
}

pub fn put(answers: &mut [u32; 192], k: usize, answer: Answer)
    requires { k < 64 }
    ensures { answers.new ≡ put_at answers.old k answer }
{
    let i = k * 3;
    answers[i] = answer.number;
    answers[i + 1] = answer.place;
    answers[i + 2] = answer.rails;
}
