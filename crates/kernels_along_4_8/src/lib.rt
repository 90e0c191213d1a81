// Internal: kernels for rows of 4 and 8 points. Made by crates/kernel_levels/make; do not edit.
// down_N_L_C works C columns of N points, along_N_L_C works C rows; the first L inputs of each are live. Read one, with
// kernel_levels/specs/Kernels for what it takes and leaves: all are the same statements with other literals.
#![tactic(auto)]

ghost use Rattle.std.specs.Prelude.{◌≡◌, length};
ghost use Rattle.algebra.specs.Lists.{block};
ghost use Rattle.product.specs.Product.{shifted};
ghost use Rattle.kernel_levels.specs.Kernels.{Rowed, rows_sum};

use kernel_steps::{butterfly, deal, lift, round, some, spread, take};

const FIRST_2_2: [i16; 4] = [64, 64, 64, -64];

const ODD_4_2: [i16; 4] = [83, 36, 36, -83];

const ODD_8_2: [i16; 8] = [89, 75, 75, -18, 50, -89, 18, -50];

const ODD_8_4: [i16; 16] = [
    89, // rows 1 and 3 of 8
    75, 75, -18, 50, -89, 18, -50, 50, // rows 5 and 7 of 8
    18, -89, -50, 18, 75, 75, -89,
];

// 8 rows of 4 numbers, the first 4 of them live.
pub fn along_4_4_8(m: &[i16], apart: usize, many: usize, half: i32, shift: u32, r: &mut [i32])
    requires { Rowed 4 8 apart half shift m.now × ((length r.old ≡ 32) × (many ≡ 8)) }
    ensures { r.new ≡ block 4 8 (λ j l. shifted half shift (rows_sum 4 4 8 apart m.now j l)) }
{
    let mut r0 = [0i32; 32];
    for l in 0..many {
        let mut a = [0i16; 4];
        let i0 = l;
        take(&m[i0..], 8, 0, 4, &mut a);
        let mut b2 = [0i16; 2];
        deal(&a, 0, 2, 2, &mut b2);
        let t2 = FIRST_2_2;
        let mut e2 = [0i32; 2];
        some(1, 4, &b2, &t2, 0, 2, &mut e2);
        lift(half, 2, &mut e2);
        let mut y = [0i32; 4];
        let mut z4 = [0i16; 2];
        deal(&a, 1, 2, 2, &mut z4);
        let w4 = ODD_4_2;
        let mut o4 = [0i32; 2];
        some(1, 4, &z4, &w4, 0, 2, &mut o4);
        butterfly(&e2, &o4, 2, 0, 2, &mut y);
        round(&y, 0, 4, half, shift, 4 * l, &mut r0);
    }
    spread::<4, 8>(&r0, 0, 4, r);
}

// 8 rows of 8 numbers, the first 4 of them live.
pub fn along_8_4_8(m: &[i16], apart: usize, many: usize, half: i32, shift: u32, r: &mut [i32])
    requires { Rowed 4 8 apart half shift m.now × (length r.old ≡ 64) }
    ensures { r.new ≡ block 8 8 (λ j l. shifted half shift (rows_sum 8 4 8 apart m.now j l)) }
{
    let mut r0 = [0i32; 64];
    for l in 0..8 {
        let mut a = [0i16; 4];
        let i0 = l;
        take(&m[i0..], 8, 0, 4, &mut a);
        let mut b2 = [0i16; 2];
        deal(&a, 0, 4, 1, &mut b2);
        let t2 = FIRST_2_2;
        let mut e2 = [0i32; 2];
        some(1, 4, &b2, &t2, 0, 2, &mut e2);
        lift(half, 2, &mut e2);
        let mut e4 = [0i32; 4];
        let mut z4 = [0i16; 2];
        deal(&a, 2, 4, 1, &mut z4);
        let w4 = ODD_4_2;
        let mut o4 = [0i32; 2];
        some(1, 4, &z4, &w4, 0, 2, &mut o4);
        butterfly(&e2, &o4, 2, 0, 2, &mut e4);
        let mut y = [0i32; 8];
        let mut z8 = [0i16; 2];
        deal(&a, 1, 2, 2, &mut z8);
        let w8 = ODD_8_2;
        let mut o8 = [0i32; 4];
        some(1, 8, &z8, &w8, 0, 4, &mut o8);
        butterfly(&e4, &o8, 4, 0, 4, &mut y);
        round(&y, 0, 8, half, shift, 8 * l, &mut r0);
    }
    spread::<8, 8>(&r0, 0, 8, r);
}

// 8 rows of 8 numbers, the first 8 of them live.
pub fn along_8_8_8(m: &[i16], apart: usize, many: usize, half: i32, shift: u32, r: &mut [i32])
    requires { Rowed 8 8 apart half shift m.now × (length r.old ≡ 64) }
    ensures { r.new ≡ block 8 8 (λ j l. shifted half shift (rows_sum 8 8 8 apart m.now j l)) }
{
    let mut r0 = [0i32; 64];
    for l in 0..8 {
        let mut a = [0i16; 8];
        let i0 = l;
        take(&m[i0..], 8, 0, 8, &mut a);
        let mut b2 = [0i16; 2];
        deal(&a, 0, 4, 2, &mut b2);
        let t2 = FIRST_2_2;
        let mut e2 = [0i32; 2];
        some(1, 4, &b2, &t2, 0, 2, &mut e2);
        lift(half, 2, &mut e2);
        let mut e4 = [0i32; 4];
        let mut z4 = [0i16; 2];
        deal(&a, 2, 4, 2, &mut z4);
        let w4 = ODD_4_2;
        let mut o4 = [0i32; 2];
        some(1, 4, &z4, &w4, 0, 2, &mut o4);
        butterfly(&e2, &o4, 2, 0, 2, &mut e4);
        let mut y = [0i32; 8];
        let mut z8 = [0i16; 4];
        deal(&a, 1, 2, 4, &mut z8);
        let w8 = ODD_8_4;
        let mut o8 = [0i32; 4];
        some(2, 8, &z8, &w8, 0, 4, &mut o8);
        butterfly(&e4, &o8, 4, 0, 4, &mut y);
        round(&y, 0, 8, half, shift, 8 * l, &mut r0);
    }
    spread::<8, 8>(&r0, 0, 8, r);
}

// 4 rows of 8 numbers, the first 8 of them live.
pub fn along_8_8_4(m: &[i16], apart: usize, many: usize, half: i32, shift: u32, r: &mut [i32])
    requires { Rowed 8 4 apart half shift m.now × (length r.old ≡ 32) }
    ensures { r.new ≡ block 8 4 (λ j l. shifted half shift (rows_sum 8 8 4 apart m.now j l)) }
{
    let mut r0 = [0i32; 32];
    for l in 0..4 {
        let mut a = [0i16; 8];
        let i0 = l;
        take(&m[i0..], 4, 0, 8, &mut a);
        let mut b2 = [0i16; 2];
        deal(&a, 0, 4, 2, &mut b2);
        let t2 = FIRST_2_2;
        let mut e2 = [0i32; 2];
        some(1, 4, &b2, &t2, 0, 2, &mut e2);
        lift(half, 2, &mut e2);
        let mut e4 = [0i32; 4];
        let mut z4 = [0i16; 2];
        deal(&a, 2, 4, 2, &mut z4);
        let w4 = ODD_4_2;
        let mut o4 = [0i32; 2];
        some(1, 4, &z4, &w4, 0, 2, &mut o4);
        butterfly(&e2, &o4, 2, 0, 2, &mut e4);
        let mut y = [0i32; 8];
        let mut z8 = [0i16; 4];
        deal(&a, 1, 2, 4, &mut z8);
        let w8 = ODD_8_4;
        let mut o8 = [0i32; 4];
        some(2, 8, &z8, &w8, 0, 4, &mut o8);
        butterfly(&e4, &o8, 4, 0, 4, &mut y);
        round(&y, 0, 8, half, shift, 8 * l, &mut r0);
    }
    spread::<8, 4>(&r0, 0, 8, r);
}
