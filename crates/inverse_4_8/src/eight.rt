// A block of 8 by 8, in rooms of its own size and by weights that are there whole. What lines read stands in arrays of the function
// that names their pairs, and their number and length are read from the shape: where the compiler knows that a line has 8 outputs
// it takes one number at a time (docs/DECISIONS.md).
ghost use Rattle.std.specs.Prelude.{◌≡◌, true, ◌*◌, length};
ghost use Rattle.meaning.specs.Shape.{is_size, is_kind};
ghost use Rattle.meaning.specs.Weights.{weight};
ghost use Rattle.meaning.specs.Plan.{plan_of};
ghost use Rattle.meaning.specs.Inverse.{rails, inverse_block};
ghost use Rattle.product.specs.Product.{Laid};
ghost use Rattle.inverse_stage.specs.Given.{GivenStages};
ghost use Rattle.inverse_4_8.specs.Square.{Square};

use inverse_stage::settle::settle;
use inverse_stage::shift::last_shift;
use layout::zip::zip;
use meaning::Shape;
use product::{half, lines};
use tables::zipped::zipped_8;

// The weights of a kind. It is a literal at each call, so that they are copied: of one that is not known the compiler would choose
// every weight by itself.
fn put(kind: u32, t: &mut [i16; 64])
    requires { is_kind kind ≡ true }
    ensures { (length t.new ≡ 64) × Laid 8 4 2 16 (λ i j. weight kind 8 i j) t.new }
{
    *t = match kind {
        1 => zipped_8(1, false),
        2 => zipped_8(2, false),
        _ => zipped_8(0, false),
    };
}

// Hands back the rail count. All of the block is worked, whatever is kept: it is zero outside of its kept part.
pub fn eight(shape: Shape, horizontal: u32, c: &[i16], r: &mut [i32]) -> u32
    requires { GivenStages shape shape.height shape.width c.now r.old × (Square 8 shape × (horizontal ≡ shape.horizontal)) }
    ensures { (result ≡ rails (plan_of shape) c.now) × (r.new ≡ inverse_block (plan_of shape) c.now) }
{
    let w = shape.width as usize;
    let h = shape.height as usize;
    let mut z = [0i16; 64];
    let mut t = [0i16; 64];
    zip(c, w, 4, w, &mut z);
    put(shape.vertical, &mut t);
    lines(4, 16, &t, 2, 16, &z, w, h, 64, 7, r);
    let rails = settle(r, &mut z);
    let last = last_shift(shape);
    let half = half(last);
    put(horizontal, &mut t);
    lines(4, 16, &z, 8, 2, &t, w, h, half, last, r);
    rails
}

// Whether a block of `elements` numbers is one, with no side named.
pub fn is_eight(shape: Shape, elements: usize) -> bool
    requires { (is_size shape.width ≡ true) × (elements ≡ shape.width * shape.height) }
    ensures { result ≡ true → Square 8 shape }
{
    shape.width == shape.height && elements == 64
}
