// Internal: kernels for columns of 4 and 8 points. Made by crates/kernel_levels/make; do not edit.
// down_N_L_C works C columns of N points, along_N_L_C works C rows; the first L inputs of each are live. Read one, with
// kernel_levels/specs/Kernels for what it takes and leaves: all are the same statements with other literals.
#![tactic(auto)]

ghost use Rattle.std.specs.Prelude.{◌≡◌, length};
ghost use Rattle.meaning.specs.Plan.{short_range};
ghost use Rattle.meaning.specs.Inverse.{middle};
ghost use Rattle.kernel_levels.specs.Kernels.{Strip, strip_sum, Turned};

use kernel_steps::{butterfly, deal, lift, put, some, strip};

const FIRST_2_2: [i16; 4] = [64, 64, 64, -64];

const ODD_4_2: [i16; 4] = [83, 36, 36, -83];

const ODD_8_2: [i16; 8] = [89, 75, 75, -18, 50, -89, 18, -50];

const ODD_8_4: [i16; 16] = [
    89, // rows 1 and 3 of 8
    75, 75, -18, 50, -89, 18, -50, 50, // rows 5 and 7 of 8
    18, -89, -50, 18, 75, 75, -89,
];

// 8 columns of 4 rows, the first 4 of them live.
pub fn down_4_4_8(c: &[i16], w: usize, x0: usize, rows: usize, many: usize, m: &mut [i16])
    requires { Strip 4 8 w x0 rows c.now × ((length m.old ≡ 32) × (many ≡ 8)) }
    ensures { Turned 4 8 4 (λ x y. middle short_range (strip_sum 4 w x0 rows c.now x y)) m.new }
{
    let mut b = [0i16; 32];
    strip::<8>(c, w, x0, rows, &mut b);
    for x in 0..many {
        let mut a = [0i16; 4];
        deal(&b, x, 8, 4, &mut a);
        let mut b2 = [0i16; 2];
        deal(&a, 0, 2, 2, &mut b2);
        let t2 = FIRST_2_2;
        let mut e2 = [0i32; 2];
        some(1, 4, &b2, &t2, 0, 2, &mut e2);
        lift(64, 2, &mut e2);
        let mut y = [0i32; 4];
        let mut z4 = [0i16; 2];
        deal(&a, 1, 2, 2, &mut z4);
        let w4 = ODD_4_2;
        let mut o4 = [0i32; 2];
        some(1, 4, &z4, &w4, 0, 2, &mut o4);
        butterfly(&e2, &o4, 2, 0, 2, &mut y);
        put(&y, 0, 4, 4 * x, m);
    }
}

// 8 columns of 8 rows, the first 4 of them live.
pub fn down_8_4_8(c: &[i16], w: usize, x0: usize, rows: usize, many: usize, m: &mut [i16])
    requires { Strip 4 8 w x0 rows c.now × (length m.old ≡ 64) }
    ensures { Turned 8 8 8 (λ x y. middle short_range (strip_sum 8 w x0 rows c.now x y)) m.new }
{
    let mut b = [0i16; 32];
    strip::<8>(c, w, x0, rows, &mut b);
    for x in 0..8 {
        let mut a = [0i16; 4];
        deal(&b, x, 8, 4, &mut a);
        let mut b2 = [0i16; 2];
        deal(&a, 0, 4, 1, &mut b2);
        let t2 = FIRST_2_2;
        let mut e2 = [0i32; 2];
        some(1, 4, &b2, &t2, 0, 2, &mut e2);
        lift(64, 2, &mut e2);
        let mut e4 = [0i32; 4];
        let mut z4 = [0i16; 2];
        deal(&a, 2, 4, 1, &mut z4);
        let w4 = ODD_4_2;
        let mut o4 = [0i32; 2];
        some(1, 4, &z4, &w4, 0, 2, &mut o4);
        butterfly(&e2, &o4, 2, 0, 2, &mut e4);
        let mut y = [0i32; 8];
        let mut z8 = [0i16; 2];
        deal(&a, 1, 2, 2, &mut z8);
        let w8 = ODD_8_2;
        let mut o8 = [0i32; 4];
        some(1, 8, &z8, &w8, 0, 4, &mut o8);
        butterfly(&e4, &o8, 4, 0, 4, &mut y);
        put(&y, 0, 8, 8 * x, m);
    }
}

// 8 columns of 8 rows, the first 8 of them live.
pub fn down_8_8_8(c: &[i16], w: usize, x0: usize, rows: usize, many: usize, m: &mut [i16])
    requires { Strip 8 8 w x0 rows c.now × (length m.old ≡ 64) }
    ensures { Turned 8 8 8 (λ x y. middle short_range (strip_sum 8 w x0 rows c.now x y)) m.new }
{
    let mut b = [0i16; 64];
    strip::<8>(c, w, x0, rows, &mut b);
    for x in 0..8 {
        let mut a = [0i16; 8];
        deal(&b, x, 8, 8, &mut a);
        let mut b2 = [0i16; 2];
        deal(&a, 0, 4, 2, &mut b2);
        let t2 = FIRST_2_2;
        let mut e2 = [0i32; 2];
        some(1, 4, &b2, &t2, 0, 2, &mut e2);
        lift(64, 2, &mut e2);
        let mut e4 = [0i32; 4];
        let mut z4 = [0i16; 2];
        deal(&a, 2, 4, 2, &mut z4);
        let w4 = ODD_4_2;
        let mut o4 = [0i32; 2];
        some(1, 4, &z4, &w4, 0, 2, &mut o4);
        butterfly(&e2, &o4, 2, 0, 2, &mut e4);
        let mut y = [0i32; 8];
        let mut z8 = [0i16; 4];
        deal(&a, 1, 2, 4, &mut z8);
        let w8 = ODD_8_4;
        let mut o8 = [0i32; 4];
        some(2, 8, &z8, &w8, 0, 4, &mut o8);
        butterfly(&e4, &o8, 4, 0, 4, &mut y);
        put(&y, 0, 8, 8 * x, m);
    }
}

// 4 columns of 8 rows, the first 8 of them live.
pub fn down_8_8_4(c: &[i16], w: usize, x0: usize, rows: usize, many: usize, m: &mut [i16])
    requires { Strip 8 4 w x0 rows c.now × (length m.old ≡ 32) }
    ensures { Turned 8 4 8 (λ x y. middle short_range (strip_sum 8 w x0 rows c.now x y)) m.new }
{
    let mut b = [0i16; 32];
    strip::<4>(c, w, x0, rows, &mut b);
    for x in 0..4 {
        let mut a = [0i16; 8];
        deal(&b, x, 4, 8, &mut a);
        let mut b2 = [0i16; 2];
        deal(&a, 0, 4, 2, &mut b2);
        let t2 = FIRST_2_2;
        let mut e2 = [0i32; 2];
        some(1, 4, &b2, &t2, 0, 2, &mut e2);
        lift(64, 2, &mut e2);
        let mut e4 = [0i32; 4];
        let mut z4 = [0i16; 2];
        deal(&a, 2, 4, 2, &mut z4);
        let w4 = ODD_4_2;
        let mut o4 = [0i32; 2];
        some(1, 4, &z4, &w4, 0, 2, &mut o4);
        butterfly(&e2, &o4, 2, 0, 2, &mut e4);
        let mut y = [0i32; 8];
        let mut z8 = [0i16; 4];
        deal(&a, 1, 2, 4, &mut z8);
        let w8 = ODD_8_4;
        let mut o8 = [0i32; 4];
        some(2, 8, &z8, &w8, 0, 4, &mut o8);
        butterfly(&e4, &o8, 4, 0, 4, &mut y);
        put(&y, 0, 8, 8 * x, m);
    }
}
