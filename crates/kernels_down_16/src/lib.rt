// Internal: kernels for columns of 16 points. Made by crates/kernel_levels/make; do not edit.
// down_N_L_C works C columns of N points, along_N_L_C works C rows; the first L inputs of each are live. Read one, with
// kernel_levels/specs/Kernels for what it takes and leaves: all are the same statements with other literals.
#![tactic(auto)]

ghost use Rattle.std.specs.Prelude.{◌≡◌, length};
ghost use Rattle.meaning.specs.Plan.{short_range};
ghost use Rattle.meaning.specs.Inverse.{middle};
ghost use Rattle.kernel_levels.specs.Kernels.{Strip, strip_sum, Turned};

use kernel_steps::{butterfly, deal, lift, mirror, put, some, strip};

const FIRST_2_2: [i16; 4] = [64, 64, 64, -64];

const ODD_8_2: [i16; 8] = [89, 75, 75, -18, 50, -89, 18, -50];

const ODD_16_2: [i16; 16] = [
    90, // rows 1 and 3 of 16
    87, 87, 57, 80, 9, 70, -43, 57, -80, 43, -90, 25, -70, 9, -25,
];

const ODD_4_2: [i16; 4] = [83, 36, 36, -83];

const ODD_8_4: [i16; 16] = [
    89, // rows 1 and 3 of 8
    75, 75, -18, 50, -89, 18, -50, 50, // rows 5 and 7 of 8
    18, -89, -50, 18, 75, 75, -89,
];

const ODD_16_8: [i16; 64] = [
    90, // rows 1 and 3 of 16
    87, 87, 57, 80, 9, 70, -43, 57, -80, 43, -90, 25, -70, 9, -25, 80, // rows 5 and 7 of 16
    70, 9, -43, -70, -87, -87, 9, -25, 90, 57, 25, 90, -80, 43, -57, 57, // rows 9 and 11 of 16
    43, -80, -90, -25, 57, 90, 25, -9, -87, -87, 70, 43, 9, 70, -80, 25, // rows 13 and 15 of 16
    9, -70, -25, 90, 43, -80, -57, 43, 70, 9, -80, -57, 87, 87, -90,
];

// 8 columns of 16 rows, the first 4 of them live.
pub fn down_16_4_8(c: &[i16], w: usize, x0: usize, rows: usize, many: usize, m: &mut [i16])
    requires { Strip 4 8 w x0 rows c.now × (length m.old ≡ 128) }
    ensures { Turned 8 8 16 (λ x y. middle short_range (strip_sum 16 w x0 rows c.now x y)) m.new }
{
    let mut b = [0i16; 32];
    strip::<8>(c, w, x0, rows, &mut b);
    for x in 0..8 {
        let mut a = [0i16; 4];
        deal(&b, x, 8, 4, &mut a);
        let mut b2 = [0i16; 2];
        deal(&a, 0, 8, 1, &mut b2);
        let t2 = FIRST_2_2;
        let mut e2 = [0i32; 2];
        some(1, 4, &b2, &t2, 0, 2, &mut e2);
        lift(64, 2, &mut e2);
        let mut e4 = [0i32; 4];
        mirror(&e2, 2, 0, 2, &mut e4);
        let mut e8 = [0i32; 8];
        let mut z8 = [0i16; 2];
        deal(&a, 2, 4, 1, &mut z8);
        let w8 = ODD_8_2;
        let mut o8 = [0i32; 4];
        some(1, 8, &z8, &w8, 0, 4, &mut o8);
        butterfly(&e4, &o8, 4, 0, 4, &mut e8);
        let mut y = [0i32; 16];
        let mut z16 = [0i16; 2];
        deal(&a, 1, 2, 2, &mut z16);
        let w16 = ODD_16_2;
        let mut o16 = [0i32; 8];
        some(1, 16, &z16, &w16, 0, 4, &mut o16);
        some(1, 16, &z16, &w16, 4, 8, &mut o16);
        butterfly(&e8, &o16, 8, 0, 8, &mut y);
        put(&y, 0, 8, 8 * x, m);
        put(&y, 8, 8, 64 + 8 * x, m);
    }
}

// 8 columns of 16 rows, the first 16 of them live.
pub fn down_16_16_8(c: &[i16], w: usize, x0: usize, rows: usize, many: usize, m: &mut [i16])
    requires { Strip 16 8 w x0 rows c.now × (length m.old ≡ 128) }
    ensures { Turned 8 8 16 (λ x y. middle short_range (strip_sum 16 w x0 rows c.now x y)) m.new }
{
    let mut b = [0i16; 128];
    strip::<8>(c, w, x0, rows, &mut b);
    for x in 0..8 {
        let mut a = [0i16; 16];
        deal(&b, x, 8, 16, &mut a);
        let mut b2 = [0i16; 2];
        deal(&a, 0, 8, 2, &mut b2);
        let t2 = FIRST_2_2;
        let mut e2 = [0i32; 2];
        some(1, 4, &b2, &t2, 0, 2, &mut e2);
        lift(64, 2, &mut e2);
        let mut e4 = [0i32; 4];
        let mut z4 = [0i16; 2];
        deal(&a, 4, 8, 2, &mut z4);
        let w4 = ODD_4_2;
        let mut o4 = [0i32; 2];
        some(1, 4, &z4, &w4, 0, 2, &mut o4);
        butterfly(&e2, &o4, 2, 0, 2, &mut e4);
        let mut e8 = [0i32; 8];
        let mut z8 = [0i16; 4];
        deal(&a, 2, 4, 4, &mut z8);
        let w8 = ODD_8_4;
        let mut o8 = [0i32; 4];
        some(2, 8, &z8, &w8, 0, 4, &mut o8);
        butterfly(&e4, &o8, 4, 0, 4, &mut e8);
        let mut y = [0i32; 16];
        let mut z16 = [0i16; 8];
        deal(&a, 1, 2, 8, &mut z16);
        let w16 = ODD_16_8;
        let mut o16 = [0i32; 8];
        some(4, 16, &z16, &w16, 0, 4, &mut o16);
        some(4, 16, &z16, &w16, 4, 8, &mut o16);
        butterfly(&e8, &o16, 8, 0, 8, &mut y);
        put(&y, 0, 8, 8 * x, m);
        put(&y, 8, 8, 64 + 8 * x, m);
    }
}

// 4 columns of 16 rows, the first 16 of them live.
pub fn down_16_16_4(c: &[i16], w: usize, x0: usize, rows: usize, many: usize, m: &mut [i16])
    requires { Strip 16 4 w x0 rows c.now × (length m.old ≡ 64) }
    ensures { Turned 8 4 16 (λ x y. middle short_range (strip_sum 16 w x0 rows c.now x y)) m.new }
{
    let mut b = [0i16; 64];
    strip::<4>(c, w, x0, rows, &mut b);
    for x in 0..4 {
        let mut a = [0i16; 16];
        deal(&b, x, 4, 16, &mut a);
        let mut b2 = [0i16; 2];
        deal(&a, 0, 8, 2, &mut b2);
        let t2 = FIRST_2_2;
        let mut e2 = [0i32; 2];
        some(1, 4, &b2, &t2, 0, 2, &mut e2);
        lift(64, 2, &mut e2);
        let mut e4 = [0i32; 4];
        let mut z4 = [0i16; 2];
        deal(&a, 4, 8, 2, &mut z4);
        let w4 = ODD_4_2;
        let mut o4 = [0i32; 2];
        some(1, 4, &z4, &w4, 0, 2, &mut o4);
        butterfly(&e2, &o4, 2, 0, 2, &mut e4);
        let mut e8 = [0i32; 8];
        let mut z8 = [0i16; 4];
        deal(&a, 2, 4, 4, &mut z8);
        let w8 = ODD_8_4;
        let mut o8 = [0i32; 4];
        some(2, 8, &z8, &w8, 0, 4, &mut o8);
        butterfly(&e4, &o8, 4, 0, 4, &mut e8);
        let mut y = [0i32; 16];
        let mut z16 = [0i16; 8];
        deal(&a, 1, 2, 8, &mut z16);
        let w16 = ODD_16_8;
        let mut o16 = [0i32; 8];
        some(4, 16, &z16, &w16, 0, 4, &mut o16);
        some(4, 16, &z16, &w16, 4, 8, &mut o16);
        butterfly(&e8, &o16, 8, 0, 8, &mut y);
        put(&y, 0, 8, 8 * x, m);
        put(&y, 8, 8, 32 + 8 * x, m);
    }
}
