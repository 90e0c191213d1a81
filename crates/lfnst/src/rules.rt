// What the sides of a block decide.
ghost use Rattle.std.specs.Prelude.{◌≡◌, ◌⊎◌, ◌*◌};
ghost use Rattle.lfnst.specs.LowFrequency.{inputs, is_wide};

// How many pairs of coefficients are read.
pub fn pairs_of(width: u32, height: u32) -> usize
    ensures { (2 * result ≡ inputs width height) × ((result ≡ 4) ⊎ (result ≡ 8)) }
{
    match (width, height) {
        (4, 4) | (8, 8) => 4,
        _ => 8,
    }
}

pub fn is_wide(width: u32, height: u32) -> bool
    ensures { result ≡ is_wide width height }
{
    8 <= width && 8 <= height
}
