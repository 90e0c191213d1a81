// Internal: kernels for rows of 16 points. Made by crates/kernel_levels/make; do not edit.
// down_N_L_C works C columns of N points, along_N_L_C works C rows; the first L inputs of each are live. Read one, with
// kernel_levels/specs/Kernels for what it takes and leaves: all are the same statements with other literals.
#![tactic(auto)]

ghost use Rattle.std.specs.Prelude.{◌≡◌, length};
ghost use Rattle.algebra.specs.Lists.{block};
ghost use Rattle.product.specs.Product.{shifted};
ghost use Rattle.kernel_levels.specs.Kernels.{Rowed, rows_sum};

use kernel_steps::{butterfly, deal, lift, mirror, round, some, spread, take};

const FIRST_2_2: [i16; 4] = [64, 64, 64, -64];

const ODD_8_2: [i16; 8] = [89, 75, 75, -18, 50, -89, 18, -50];

const ODD_16_2: [i16; 16] = [
    90, // rows 1 and 3 of 16
    87, 87, 57, 80, 9, 70, -43, 57, -80, 43, -90, 25, -70, 9, -25,
];

const ODD_4_2: [i16; 4] = [83, 36, 36, -83];

const ODD_8_4: [i16; 16] = [
    89, // rows 1 and 3 of 8
    75, 75, -18, 50, -89, 18, -50, 50, // rows 5 and 7 of 8
    18, -89, -50, 18, 75, 75, -89,
];

const ODD_16_8: [i16; 64] = [
    90, // rows 1 and 3 of 16
    87, 87, 57, 80, 9, 70, -43, 57, -80, 43, -90, 25, -70, 9, -25, 80, // rows 5 and 7 of 16
    70, 9, -43, -70, -87, -87, 9, -25, 90, 57, 25, 90, -80, 43, -57, 57, // rows 9 and 11 of 16
    43, -80, -90, -25, 57, 90, 25, -9, -87, -87, 70, 43, 9, 70, -80, 25, // rows 13 and 15 of 16
    9, -70, -25, 90, 43, -80, -57, 43, 70, 9, -80, -57, 87, 87, -90,
];

// 8 rows of 16 numbers, the first 4 of them live.
pub fn along_16_4_8(m: &[i16], apart: usize, many: usize, half: i32, shift: u32, r: &mut [i32])
    requires { Rowed 4 8 apart half shift m.now × (length r.old ≡ 128) }
    ensures { r.new ≡ block 16 8 (λ j l. shifted half shift (rows_sum 16 4 8 apart m.now j l)) }
{
    let mut r0 = [0i32; 64];
    let mut r1 = [0i32; 64];
    for l in 0..8 {
        let mut a = [0i16; 4];
        let i0 = l;
        take(&m[i0..], 8, 0, 4, &mut a);
        let mut b2 = [0i16; 2];
        deal(&a, 0, 8, 1, &mut b2);
        let t2 = FIRST_2_2;
        let mut e2 = [0i32; 2];
        some(1, 4, &b2, &t2, 0, 2, &mut e2);
        lift(half, 2, &mut e2);
        let mut e4 = [0i32; 4];
        mirror(&e2, 2, 0, 2, &mut e4);
        let mut e8 = [0i32; 8];
        let mut z8 = [0i16; 2];
        deal(&a, 2, 4, 1, &mut z8);
        let w8 = ODD_8_2;
        let mut o8 = [0i32; 4];
        some(1, 8, &z8, &w8, 0, 4, &mut o8);
        butterfly(&e4, &o8, 4, 0, 4, &mut e8);
        let mut y = [0i32; 16];
        let mut z16 = [0i16; 2];
        deal(&a, 1, 2, 2, &mut z16);
        let w16 = ODD_16_2;
        let mut o16 = [0i32; 8];
        some(1, 16, &z16, &w16, 0, 4, &mut o16);
        some(1, 16, &z16, &w16, 4, 8, &mut o16);
        butterfly(&e8, &o16, 8, 0, 8, &mut y);
        round(&y, 0, 8, half, shift, 8 * l, &mut r0);
        round(&y, 8, 8, half, shift, 8 * l, &mut r1);
    }
    spread::<8, 8>(&r0, 0, 16, r);
    spread::<8, 8>(&r1, 8, 16, r);
}

// 8 rows of 16 numbers, the first 16 of them live.
pub fn along_16_16_8(m: &[i16], apart: usize, many: usize, half: i32, shift: u32, r: &mut [i32])
    requires { Rowed 16 8 apart half shift m.now × (length r.old ≡ 128) }
    ensures { r.new ≡ block 16 8 (λ j l. shifted half shift (rows_sum 16 16 8 apart m.now j l)) }
{
    let mut r0 = [0i32; 64];
    let mut r1 = [0i32; 64];
    for l in 0..8 {
        let mut a = [0i16; 16];
        let i0 = l;
        take(&m[i0..], 8, 0, 8, &mut a);
        let i8 = 1 * apart + l;
        take(&m[i8..], 8, 8, 8, &mut a);
        let mut b2 = [0i16; 2];
        deal(&a, 0, 8, 2, &mut b2);
        let t2 = FIRST_2_2;
        let mut e2 = [0i32; 2];
        some(1, 4, &b2, &t2, 0, 2, &mut e2);
        lift(half, 2, &mut e2);
        let mut e4 = [0i32; 4];
        let mut z4 = [0i16; 2];
        deal(&a, 4, 8, 2, &mut z4);
        let w4 = ODD_4_2;
        let mut o4 = [0i32; 2];
        some(1, 4, &z4, &w4, 0, 2, &mut o4);
        butterfly(&e2, &o4, 2, 0, 2, &mut e4);
        let mut e8 = [0i32; 8];
        let mut z8 = [0i16; 4];
        deal(&a, 2, 4, 4, &mut z8);
        let w8 = ODD_8_4;
        let mut o8 = [0i32; 4];
        some(2, 8, &z8, &w8, 0, 4, &mut o8);
        butterfly(&e4, &o8, 4, 0, 4, &mut e8);
        let mut y = [0i32; 16];
        let mut z16 = [0i16; 8];
        deal(&a, 1, 2, 8, &mut z16);
        let w16 = ODD_16_8;
        let mut o16 = [0i32; 8];
        some(4, 16, &z16, &w16, 0, 4, &mut o16);
        some(4, 16, &z16, &w16, 4, 8, &mut o16);
        butterfly(&e8, &o16, 8, 0, 8, &mut y);
        round(&y, 0, 8, half, shift, 8 * l, &mut r0);
        round(&y, 8, 8, half, shift, 8 * l, &mut r1);
    }
    spread::<8, 8>(&r0, 0, 16, r);
    spread::<8, 8>(&r1, 8, 16, r);
}

// 4 rows of 16 numbers, the first 16 of them live.
pub fn along_16_16_4(m: &[i16], apart: usize, many: usize, half: i32, shift: u32, r: &mut [i32])
    requires { Rowed 16 4 apart half shift m.now × (length r.old ≡ 64) }
    ensures { r.new ≡ block 16 4 (λ j l. shifted half shift (rows_sum 16 16 4 apart m.now j l)) }
{
    let mut r0 = [0i32; 32];
    let mut r1 = [0i32; 32];
    for l in 0..4 {
        let mut a = [0i16; 16];
        let i0 = l;
        take(&m[i0..], 4, 0, 8, &mut a);
        let i8 = 1 * apart + l;
        take(&m[i8..], 4, 8, 8, &mut a);
        let mut b2 = [0i16; 2];
        deal(&a, 0, 8, 2, &mut b2);
        let t2 = FIRST_2_2;
        let mut e2 = [0i32; 2];
        some(1, 4, &b2, &t2, 0, 2, &mut e2);
        lift(half, 2, &mut e2);
        let mut e4 = [0i32; 4];
        let mut z4 = [0i16; 2];
        deal(&a, 4, 8, 2, &mut z4);
        let w4 = ODD_4_2;
        let mut o4 = [0i32; 2];
        some(1, 4, &z4, &w4, 0, 2, &mut o4);
        butterfly(&e2, &o4, 2, 0, 2, &mut e4);
        let mut e8 = [0i32; 8];
        let mut z8 = [0i16; 4];
        deal(&a, 2, 4, 4, &mut z8);
        let w8 = ODD_8_4;
        let mut o8 = [0i32; 4];
        some(2, 8, &z8, &w8, 0, 4, &mut o8);
        butterfly(&e4, &o8, 4, 0, 4, &mut e8);
        let mut y = [0i32; 16];
        let mut z16 = [0i16; 8];
        deal(&a, 1, 2, 8, &mut z16);
        let w16 = ODD_16_8;
        let mut o16 = [0i32; 8];
        some(4, 16, &z16, &w16, 0, 4, &mut o16);
        some(4, 16, &z16, &w16, 4, 8, &mut o16);
        butterfly(&e8, &o16, 8, 0, 8, &mut y);
        round(&y, 0, 8, half, shift, 8 * l, &mut r0);
        round(&y, 8, 8, half, shift, 8 * l, &mut r1);
    }
    spread::<8, 4>(&r0, 0, 16, r);
    spread::<8, 4>(&r1, 8, 16, r);
}
