// Internal: kernels for rows of 32 points, 8 of them live. Made by crates/kernel_levels/make; do not edit.
// down_N_L_C works C columns of N points, along_N_L_C works C rows; the first L inputs of each are live. Read one, with
// kernel_levels/specs/Kernels for what it takes and leaves: all are the same statements with other literals.
#![tactic(auto)]

ghost use Rattle.std.specs.Prelude.{◌≡◌, length};
ghost use Rattle.algebra.specs.Lists.{block};
ghost use Rattle.product.specs.Product.{shifted};
ghost use Rattle.kernel_levels.specs.Kernels.{Rowed, rows_sum};

use kernel_steps::{butterfly, deal, lift, mirror, round, some, spread, take};

const FIRST_2_2: [i16; 4] = [64, 64, 64, -64];

const ODD_8_2: [i16; 8] = [89, 75, 75, -18, 50, -89, 18, -50];

const ODD_16_2: [i16; 16] = [
    90, // rows 1 and 3 of 16
    87, 87, 57, 80, 9, 70, -43, 57, -80, 43, -90, 25, -70, 9, -25,
];

const ODD_32_4: [i16; 64] = [
    90, // rows 1 and 3 of 32
    90, 90, 82, 88, 67, 85, 46, 82, 22, 78, -4, 73, -31, 67, -54, 61, -73, 54, -85, 46, -90, 38,
    -88, 31, -78, 22, -61, 13, -38, 4, -13, 88, // rows 5 and 7 of 32
    85, 67, 46, 31, -13, -13, -67, -54, -90, -82, -73, -90, -22, -78, 38, -46, 82, -4, 88, 38, 54,
    73, -4, 90, -61, 85, -90, 61, -78, 22, -31,
];

// 8 rows of 32 numbers, the first 8 of them live.
pub fn along_32_8_8(m: &[i16], apart: usize, many: usize, half: i32, shift: u32, r: &mut [i32])
    requires { Rowed 8 8 apart half shift m.now × (length r.old ≡ 256) }
    ensures { r.new ≡ block 32 8 (λ j l. shifted half shift (rows_sum 32 8 8 apart m.now j l)) }
{
    let mut r0 = [0i32; 64];
    let mut r1 = [0i32; 64];
    let mut r2 = [0i32; 64];
    let mut r3 = [0i32; 64];
    for l in 0..8 {
        let mut a = [0i16; 8];
        let i0 = l;
        take(&m[i0..], 8, 0, 8, &mut a);
        let mut b2 = [0i16; 2];
        deal(&a, 0, 16, 1, &mut b2);
        let t2 = FIRST_2_2;
        let mut e2 = [0i32; 2];
        some(1, 4, &b2, &t2, 0, 2, &mut e2);
        lift(half, 2, &mut e2);
        let mut e4 = [0i32; 4];
        mirror(&e2, 2, 0, 2, &mut e4);
        let mut e8 = [0i32; 8];
        let mut z8 = [0i16; 2];
        deal(&a, 4, 8, 1, &mut z8);
        let w8 = ODD_8_2;
        let mut o8 = [0i32; 4];
        some(1, 8, &z8, &w8, 0, 4, &mut o8);
        butterfly(&e4, &o8, 4, 0, 4, &mut e8);
        let mut e16 = [0i32; 16];
        let mut z16 = [0i16; 2];
        deal(&a, 2, 4, 2, &mut z16);
        let w16 = ODD_16_2;
        let mut o16 = [0i32; 8];
        some(1, 16, &z16, &w16, 0, 4, &mut o16);
        some(1, 16, &z16, &w16, 4, 8, &mut o16);
        butterfly(&e8, &o16, 8, 0, 8, &mut e16);
        let mut y = [0i32; 32];
        let mut z32 = [0i16; 4];
        deal(&a, 1, 2, 4, &mut z32);
        let w32 = ODD_32_4;
        let mut o32 = [0i32; 16];
        some(2, 32, &z32, &w32, 0, 4, &mut o32);
        some(2, 32, &z32, &w32, 4, 8, &mut o32);
        some(2, 32, &z32, &w32, 8, 12, &mut o32);
        some(2, 32, &z32, &w32, 12, 16, &mut o32);
        butterfly(&e16, &o32, 16, 0, 16, &mut y);
        round(&y, 0, 8, half, shift, 8 * l, &mut r0);
        round(&y, 8, 8, half, shift, 8 * l, &mut r1);
        round(&y, 16, 8, half, shift, 8 * l, &mut r2);
        round(&y, 24, 8, half, shift, 8 * l, &mut r3);
    }
    spread::<8, 8>(&r0, 0, 32, r);
    spread::<8, 8>(&r1, 8, 32, r);
    spread::<8, 8>(&r2, 16, 32, r);
    spread::<8, 8>(&r3, 24, 32, r);
}
