// Internal: kernels for columns of 32 points. Made by crates/kernel_levels/make; do not edit.
// down_N_L_C works C columns of N points, along_N_L_C works C rows; the first L inputs of each are live. Read one, with
// kernel_levels/specs/Kernels for what it takes and leaves: all are the same statements with other literals.
#![tactic(auto)]

ghost use Rattle.std.specs.Prelude.{◌≡◌, length};
ghost use Rattle.meaning.specs.Plan.{short_range};
ghost use Rattle.meaning.specs.Inverse.{middle};
ghost use Rattle.kernel_levels.specs.Kernels.{Strip, strip_sum, Turned};

use kernel_steps::{butterfly, deal, lift, put, some, strip};

const FIRST_2_2: [i16; 4] = [64, 64, 64, -64];

const ODD_4_2: [i16; 4] = [83, 36, 36, -83];

const ODD_8_4: [i16; 16] = [
    89, // rows 1 and 3 of 8
    75, 75, -18, 50, -89, 18, -50, 50, // rows 5 and 7 of 8
    18, -89, -50, 18, 75, 75, -89,
];

const ODD_16_8: [i16; 64] = [
    90, // rows 1 and 3 of 16
    87, 87, 57, 80, 9, 70, -43, 57, -80, 43, -90, 25, -70, 9, -25, 80, // rows 5 and 7 of 16
    70, 9, -43, -70, -87, -87, 9, -25, 90, 57, 25, 90, -80, 43, -57, 57, // rows 9 and 11 of 16
    43, -80, -90, -25, 57, 90, 25, -9, -87, -87, 70, 43, 9, 70, -80, 25, // rows 13 and 15 of 16
    9, -70, -25, 90, 43, -80, -57, 43, 70, 9, -80, -57, 87, 87, -90,
];

const ODD_32_16: [i16; 256] = [
    90, // rows 1 and 3 of 32
    90, 90, 82, 88, 67, 85, 46, 82, 22, 78, -4, 73, -31, 67, -54, 61, -73, 54, -85, 46, -90, 38,
    -88, 31, -78, 22, -61, 13, -38, 4, -13, 88, // rows 5 and 7 of 32
    85, 67, 46, 31, -13, -13, -67, -54, -90, -82, -73, -90, -22, -78, 38, -46, 82, -4, 88, 38, 54,
    73, -4, 90, -61, 85, -90, 61, -78, 22, -31, 82, // rows 9 and 11 of 32
    78, 22, -4, -54, -82, -90, -73, -61, 13, 13, 85, 78, 67, 85, -22, 31, -88, -46, -61, -90, 31,
    -67, 90, 4, 54, 73, -38, 88, -90, 38, -46, 73, // rows 13 and 15 of 32
    67, -31, -54, -90, -78, -22, 38, 78, 85, 67, -22, -38, -90, -90, 4, -13, 90, 82, 13, 61, -88,
    -46, -31, -88, 82, -4, 46, 85, -73, 54, -61, 61, // rows 17 and 19 of 32
    54, -73, -85, -46, -4, 82, 88, 31, -46, -88, -61, -13, 82, 90, 13, -4, -90, -90, 38, 22, 67,
    85, -78, -38, -22, -78, 90, 54, -31, 67, -73, 46, // rows 21 and 23 of 32
    38, -90, -88, 38, 73, 54, -4, -90, -67, 31, 90, 61, -46, -88, -31, 22, 85, 67, -78, -85, 13,
    13, 61, 73, -90, -82, 54, 4, 22, 78, -82, 31, // rows 25 and 27 of 32
    22, -78, -61, 90, 85, -61, -90, 4, 73, 54, -38, -88, -4, 82, 46, -38, -78, -22, 90, 73, -82,
    -90, 54, 67, -13, -13, -31, -46, 67, 85, -88, 13, // rows 29 and 31 of 32
    4, -38, -13, 61, 22, -78, -31, 88, 38, -90, -46, 85, 54, -73, -61, 54, 67, -31, -73, 4, 78, 22,
    -82, -46, 85, 67, -88, -82, 90, 90, -90,
];

// 8 columns of 32 rows, the first 32 of them live.
pub fn down_32_32_8(c: &[i16], w: usize, x0: usize, rows: usize, many: usize, m: &mut [i16])
    requires { Strip 32 8 w x0 rows c.now × (length m.old ≡ 256) }
    ensures { Turned 8 8 32 (λ x y. middle short_range (strip_sum 32 w x0 rows c.now x y)) m.new }
{
    let mut b = [0i16; 256];
    strip::<8>(c, w, x0, rows, &mut b);
    for x in 0..8 {
        let mut a = [0i16; 32];
        deal(&b, x, 8, 32, &mut a);
        let mut b2 = [0i16; 2];
        deal(&a, 0, 16, 2, &mut b2);
        let t2 = FIRST_2_2;
        let mut e2 = [0i32; 2];
        some(1, 4, &b2, &t2, 0, 2, &mut e2);
        lift(64, 2, &mut e2);
        let mut e4 = [0i32; 4];
        let mut z4 = [0i16; 2];
        deal(&a, 8, 16, 2, &mut z4);
        let w4 = ODD_4_2;
        let mut o4 = [0i32; 2];
        some(1, 4, &z4, &w4, 0, 2, &mut o4);
        butterfly(&e2, &o4, 2, 0, 2, &mut e4);
        let mut e8 = [0i32; 8];
        let mut z8 = [0i16; 4];
        deal(&a, 4, 8, 4, &mut z8);
        let w8 = ODD_8_4;
        let mut o8 = [0i32; 4];
        some(2, 8, &z8, &w8, 0, 4, &mut o8);
        butterfly(&e4, &o8, 4, 0, 4, &mut e8);
        let mut e16 = [0i32; 16];
        let mut z16 = [0i16; 8];
        deal(&a, 2, 4, 8, &mut z16);
        let w16 = ODD_16_8;
        let mut o16 = [0i32; 8];
        some(4, 16, &z16, &w16, 0, 4, &mut o16);
        some(4, 16, &z16, &w16, 4, 8, &mut o16);
        butterfly(&e8, &o16, 8, 0, 8, &mut e16);
        let mut y = [0i32; 32];
        let mut z32 = [0i16; 16];
        deal(&a, 1, 2, 16, &mut z32);
        let w32 = ODD_32_16;
        let mut o32 = [0i32; 16];
        some(8, 32, &z32, &w32, 0, 2, &mut o32);
        some(8, 32, &z32, &w32, 2, 4, &mut o32);
        some(8, 32, &z32, &w32, 4, 6, &mut o32);
        some(8, 32, &z32, &w32, 6, 8, &mut o32);
        some(8, 32, &z32, &w32, 8, 10, &mut o32);
        some(8, 32, &z32, &w32, 10, 12, &mut o32);
        some(8, 32, &z32, &w32, 12, 14, &mut o32);
        some(8, 32, &z32, &w32, 14, 16, &mut o32);
        butterfly(&e16, &o32, 16, 0, 16, &mut y);
        put(&y, 0, 8, 8 * x, m);
        put(&y, 8, 8, 64 + 8 * x, m);
        put(&y, 16, 8, 128 + 8 * x, m);
        put(&y, 24, 8, 192 + 8 * x, m);
    }
}
