// Rows and matrices that are published as numbers.
ghost use Rattle.std.specs.Prelude.{◌≤◌, ◌<◌, length};

use line::weight;

// Document 01, "First rows s1..sN of DST-VII". A decoder of H.266, FFmpeg 7.1.5 (libavcodec/vvc/data.c), has the same rows of 4, 8
// and 16 points, and document 004, equation 8, that of 16.
pub const FIRST_4: [i32; 4] = [29, 55, 74, 84];

pub const FIRST_8: [i32; 8] = [17, 32, 46, 60, 71, 78, 85, 86];

pub const FIRST_16: [i32; 16] = [
    8, 17, 25, 33, 40, 48, 55, 62, 68, 73, 77, 81, 85, 87, 88, 88,
];

pub const FIRST_32: [i32; 32] = [
    4, 9, 13, 17, 21, 26, 30, 34, 38, 42, 45, 50, 53, 56, 60, 63, 66, 68, 72, 74, 77, 78, 80, 82,
    84, 85, 86, 88, 88, 89, 90, 90,
];

// The same decoder: the first row of DST-VII of 32 points, and the first rows of DCT-VIII, of which document 004, equation 9, has
// that of 16 points.
pub const DECODER_32: [i32; 32] = [
    4, 9, 13, 17, 21, 26, 30, 34, 38, 42, 46, 50, 53, 56, 60, 63, 66, 68, 72, 74, 77, 78, 80, 82,
    84, 85, 86, 87, 88, 89, 90, 90,
];

pub const DECODER_DCT_4: [i32; 4] = [84, 74, 55, 29];

pub const DECODER_DCT_8: [i32; 8] = [86, 85, 78, 71, 60, 46, 32, 17];

pub const DECODER_DCT_16: [i32; 16] = [
    88, 88, 87, 85, 81, 77, 73, 68, 62, 55, 48, 40, 33, 25, 17, 8,
];

pub const DECODER_DCT_32: [i32; 32] = [
    90, 90, 89, 88, 87, 86, 85, 84, 82, 80, 78, 77, 74, 72, 68, 66, 63, 60, 56, 53, 50, 46, 42, 38,
    34, 30, 26, 21, 17, 13, 9, 4,
];

// Document 01, item 3.
pub const ITEM_3: [i32; 16] = [
    84, 74, 55, 29, 74, 0, -74, -74, 55, -74, -29, 84, 29, -74, 84, -55,
];

// Document 004, equation 12: the 32-point row of DST-VII as rounding gives it, before it was tuned.
pub const EQUATION_12: [i32; 32] = [
    4, 9, 13, 17, 21, 26, 30, 34, 38, 42, 46, 49, 53, 56, 60, 63, 66, 69, 71, 74, 76, 78, 81, 82,
    84, 85, 87, 88, 89, 89, 90, 90,
];

// FFmpeg 7.1.5: the DCT-II matrices of 4 and of 8 points, the first half of the odd rows of 16 points, and the first
// weights of the odd rows of 4, 8, 16 and 32 points.
pub const DCT_4: [i32; 16] = [
    64, 64, 64, 64, 83, 36, -36, -83, 64, -64, -64, 64, 36, -83, 83, -36,
];

pub const DCT_8: [i32; 64] = [
    64, 64, 64, 64, 64, 64, 64, 64, 89, 75, 50, 18, -18, -50, -75, -89, 83, 36, -36, -83, -83, -36,
    36, 83, 75, -18, -89, -50, 50, 89, 18, -75, 64, -64, -64, 64, 64, -64, -64, 64, 50, -89, 18,
    75, -75, -18, 89, -50, 36, -83, 83, -36, -36, 83, -83, 36, 18, -50, 75, -89, 89, -75, 50, -18,
];

pub const DCT_16: [i32; 64] = [
    90, 87, 80, 70, 57, 43, 25, 9, 87, 57, 9, -43, -80, -90, -70, -25, 80, 9, -70, -87, -25, 57,
    90, 43, 70, -43, -87, 9, 90, 25, -80, -57, 57, -80, -25, 90, -9, -87, 43, 70, 43, -90, 57, 25,
    -87, 70, 9, -80, 25, -70, 90, -80, 43, 9, -57, 87, 9, -25, 43, -57, 70, -80, 87, -90,
];

pub const ODD_4: [i32; 2] = [83, 36];

pub const ODD_8: [i32; 4] = [89, 75, 50, 18];

pub const ODD_16: [i32; 8] = [90, 87, 80, 70, 57, 43, 25, 9];

pub const ODD_32: [i32; 16] = [
    90, 90, 88, 85, 82, 78, 73, 67, 61, 54, 46, 38, 31, 22, 13, 4,
];

// Row k of all rows, or of the odd ones.
fn row(odd: bool, k: u32) -> u32
    requires { k ≤ 1024 }
{
    if odd { 2 * k + 1 } else { k }
}

// How many of the weights, row by row and the first `columns` of each, are the library's.
pub fn agreeing(kind: u32, n: u32, odd: bool, columns: u32, published: &[i32]) -> usize
    requires { (0 < columns) × (length published.now ≤ 1024) }
    ensures { result ≤ length published.now }
{
    let mut good = 0;
    for (k, weight_there) in published.iter().enumerate() {
        let at = k as u32;
        if weight(kind, n, row(odd, at / columns), at % columns) == *weight_there {
            good += 1;
        }
    }
    good
}
