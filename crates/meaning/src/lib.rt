// What every call means: the structs that calls share, the definitions that their contracts cite (specs/, in the order of
// document 01: Weights, Line, Shape, Plan, Taken, Answer, Inverse, Long, Forward, Exact), and the theorems that follow from these alone
// (proofs/). Read specs/ in that order, then of proofs/ Numbers, Sharing, H266, Sizes, PlanSizes, Stages, Parts, NoRails, NearExact,
// of long numbers LongRules, LongSizes, LongCall and LongOff, and Unique; the others serve these or the crates above.
#![tactic(auto)]

mod refusal;

ghost use Rattle.std.specs.Prelude.{◌≡◌, ◌++◌, ◌*◌, min};
ghost use Rattle.algebra.specs.Refusals.{number_of};
ghost use Rattle.meaning.specs.Shape.{is_size, is_kind, is_depth, is_long_depth, most_kept, is_kept, keeps, shape_of, keeping};
ghost use Rattle.meaning.specs.Answer.{shape_tests_by, shape_tests, length_tests, line_tests, refused, accepted};
ghost use Rattle.meaning.specs.Long.{long_shape_tests};
ghost use Rattle.meaning.specs.Refusal.{number_in};

pub use crate::refusal::Refusal;

/// What a block is: its sides, a kind for each direction, its bit depth, and how many columns and rows are kept. Any numbers.
#[repr(C)]
#[derive(Clone, Copy)]
pub struct Shape {
    pub width: u32,
    pub height: u32,
    pub horizontal: u32,
    pub vertical: u32,
    pub depth: u32,
    pub columns: u32,
    pub rows: u32,
}

impl Shape {
    /// A shape that keeps the most that is allowed.
    pub fn new(width: u32, height: u32, horizontal: u32, vertical: u32, depth: u32) -> Shape
        ensures { result ≡ shape_of width height horizontal vertical depth }
    {
        Shape {
            width,
            height,
            horizontal,
            vertical,
            depth,
            columns: most_kept(horizontal, width),
            rows: most_kept(vertical, height),
        }
    }

    /// The same with other kept numbers.
    pub fn keeping(self, columns: u32, rows: u32) -> Shape
        ensures { result ≡ keeping self columns rows }
    {
        Shape {
            columns,
            rows,
            ..self
        }
    }

    #[tactic(auto, unfolding(crate::specs::Shape::keeps))]
    fn keeps(self) -> bool
        ensures { result ≡ keeps self }
    {
        is_kept(self.horizontal, self.width, self.columns)
            && is_kept(self.vertical, self.height, self.rows)
    }

    /// The first of the refusals 1 to 5 and 20 that applies, by what a call takes for a width, a height and a depth.
    pub fn refusal_by(self, width: bool, height: bool, depth: bool) -> Result<(), Refusal>
        ensures { number_in result ≡ number_of (shape_tests_by width height depth self) }
    {
        if !width {
            return Err(Refusal::Width);
        }
        if !height {
            return Err(Refusal::Height);
        }
        if !is_kind(self.horizontal) {
            return Err(Refusal::Horizontal);
        }
        if !is_kind(self.vertical) {
            return Err(Refusal::Vertical);
        }
        if !depth {
            return Err(Refusal::Depth);
        }
        if !self.keeps() {
            return Err(Refusal::Kept);
        }
        Ok(())
    }

    #[tactic(auto, unfolding(crate::specs::Shape::is_long_depth))]
    pub fn refusal(self) -> Result<(), Refusal>
        ensures { number_in result ≡ number_of (shape_tests self) }
    {
        self.long_refusal(false)
    }

    /// The same of the call of long numbers.
    pub fn long_refusal(self, extended: bool) -> Result<(), Refusal>
        ensures { number_in result ≡ number_of (long_shape_tests extended self) }
    {
        self.refusal_by(
            is_size(self.width),
            is_size(self.height),
            is_long_depth(extended, self.depth),
        )
    }
}

/// What a call hands back beside its output: the number of the refusal or 0, its place, and the rail count.
#[repr(C)]
#[derive(Clone, Copy)]
pub struct Answer {
    pub number: u32,
    pub place: u32,
    pub rails: u32,
}

#[tactic(auto, unfolding(crate::specs::Shape::is_size))]
pub fn is_size(n: u32) -> bool
    ensures { result ≡ is_size n }
{
    matches!(n, 4 | 8 | 16 | 32)
}

#[tactic(auto, unfolding(crate::specs::Shape::is_kind))]
pub fn is_kind(kind: u32) -> bool
    ensures { result ≡ is_kind kind }
{
    matches!(kind, 0 | 1 | 2)
}

#[tactic(auto, unfolding(crate::specs::Shape::is_depth))]
pub fn is_depth(d: u32) -> bool
    ensures { result ≡ is_depth d }
{
    8 <= d && d <= 12
}

/// "5 accepts 13..16 only with the switch on".
#[tactic(auto, unfolding(crate::specs::Shape::is_long_depth, crate::specs::Shape::is_depth))]
pub fn is_long_depth(extended: bool, d: u32) -> bool
    ensures { result ≡ is_long_depth extended d }
{
    if extended {
        8 <= d && d <= 16
    } else {
        is_depth(d)
    }
}

/// The most columns, or rows, that can be kept in a direction: "the first min(w,16), .. the first min(h,16)", and "All 32 .. in a
/// direction of kind 0".
#[tactic(auto, unfolding(crate::specs::Shape::most_kept))]
pub fn most_kept(kind: u32, n: u32) -> u32
    ensures { result ≡ most_kept kind n }
{
    n.min(if kind == 0 { 32 } else { 16 })
}

/// "at least 1 and at most" the most.
pub fn is_kept(kind: u32, n: u32, k: u32) -> bool
    ensures { result ≡ is_kept kind n k }
{
    1 <= k && k <= most_kept(kind, n)
}

/// The kept columns of a shape, for an index.
pub fn kept_columns(shape: Shape) -> usize
    ensures { result ≡ shape.columns }
{
    shape.columns as usize
}

/// The kept rows.
pub fn kept_rows(shape: Shape) -> usize
    ensures { result ≡ shape.rows }
{
    shape.rows as usize
}

/// 6 and 7.
pub fn length_refusal(n: usize, input: usize, output: usize) -> Result<(), Refusal>
    ensures { number_in result ≡ number_of (length_tests n input output) }
{
    if input != n {
        return Err(Refusal::Input);
    }
    if output != n {
        return Err(Refusal::Output);
    }
    Ok(())
}

/// 1 to 5, 20, 6 and 7 of a block: of long numbers, and with the switch off of any inverse or forward.
pub fn block_refusal(
    shape: Shape,
    extended: bool,
    input: usize,
    output: usize,
) -> Result<(), Refusal>
    ensures { number_in result ≡ number_of (long_shape_tests extended shape ++ length_tests (shape.width * shape.height) input output) }
{
    shape.long_refusal(extended)?;
    let elements = shape.width as usize * shape.height as usize;
    length_refusal(elements, input, output)
}

/// 1, 3, 6 and 7 of a line.
pub fn line_refusal(n: u32, kind: u32, input: usize, output: usize) -> Result<(), Refusal>
    ensures { number_in result ≡ number_of (line_tests n kind input output) }
{
    if !is_size(n) {
        return Err(Refusal::Width);
    }
    if !is_kind(kind) {
        return Err(Refusal::Horizontal);
    }
    length_refusal(n as usize, input, output)
}

/// The answer of a refused call.
pub fn refused(number: u32, place: u32) -> Answer
    ensures { result ≡ refused number place }
{
    Answer {
        number,
        place,
        rails: 0,
    }
}

/// The answer of an accepted call.
pub fn accepted(rails: u32) -> Answer
    ensures { result ≡ accepted rails }
{
    Answer {
        number: 0,
        place: 0,
        rails,
    }
}
