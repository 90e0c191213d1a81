// Internal: the matrices of LFNST of 16 columns as data; a caller hands over which of the eight. Made by crates/lfnst_tables/make; do not edit.
// The weights of inputs 2k and 2k + 1 in output j stand side by side at 2 * j + k * 32. proofs/ has the rule over each matrix, by
// one computed test.
#![tactic(auto)]

ghost use Rattle.std.specs.Prelude.{◌≡◌, ◌*◌, ◌<◌, length, ◌*ℤ◌};
ghost use Rattle.algebra.specs.Sum.{sum};
ghost use Rattle.algebra.specs.Lists.{at};
ghost use Rattle.meaning.specs.Plan.{range_of};
ghost use Rattle.meaning.specs.Inverse.{middle};
ghost use Rattle.product.specs.Product.{Laid};
ghost use Rattle.kernel_steps.specs.Written.{WroteFrom};
ghost use Rattle.lfnst_tables.specs.Lfnst.{entry};
ghost use Rattle.lfnst_tables.specs.Line.{GivenInputs};

use lfnst_tables::lines::line_16;

// set 0, index 1.
const OF_0: [i16; 256] = [
    108, // inputs 0 and 1, set 0, index 1
    -40, -44, -97, -15, 56, 1, 12, -44, -11, 19, 29, 7, -12, -1, -3, -11, 18, 6, 18, 2, -15, -1,
    -3, 0, -1, -1, -3, -1, 2, 0, 1, 25, // inputs 2 and 3, set 0, index 1
    -32, -31, -39, -1, -92, 7, 51, 100, -6, -16, -16, -29, 36, 1, -8, -54, 3, 21, 22, 14, 18, -4,
    -15, -7, 4, 2, 1, 4, -5, 0, 2, 8, // inputs 4 and 5, set 0, index 1
    -25, -9, 5, 33, 16, -8, -3, -16, -38, -102, 14, 36, 11, 23, -3, -4, -97, 38, 7, -27, 26, -5, 1,
    5, 55, 16, -10, -8, -19, -6, 3, 8, // inputs 6 and 7, set 0, index 1
    2, 9, 34, 16, -5, 1, 1, 37, -7, 36, 24, 94, -25, -38, -3, -7, 8, 3, 99, -47, -28, 11, -29, -6,
    6, -13, -43, -17, 21, 10, 11, -16, // inputs 8 and 9, set 0, index 1
    -9, -27, -10, -39, -34, -109, 4, 6, -9, 10, -5, 16, -29, 24, 5, 3, -33, 19, -26, 10, -96, 24,
    33, -4, 14, -7, 4, -2, 39, -3, -14, -13, // inputs 10 and 11, set 0, index 1
    8, 1, -7, 4, -5, -9, -15, -30, 7, -17, -30, -3, -28, -64, -87, -35, 31, 11, 4, 17, 4, 19, 33,
    -86, 61, 6, -5, 36, -17, 14, 22, -2, // inputs 12 and 13, set 0, index 1
    4, 13, 9, -6, 11, -4, 31, -2, 4, 28, 9, -13, 16, -14, 19, -3, 12, 37, 33, -15, 32, -3, 94, -2,
    12, 107, 0, -36, 34, -24, -45, 2, // inputs 14 and 15, set 0, index 1
    0, -2, -2, 8, 0, -16, -10, 8, -1, 5, -7, 28, -3, -17, -35, 6, -1, -7, -7, 18, -2, -45, -32, 40,
    -6, 36, -33, 97, -16, -8, -112,
];

// set 0, index 2.
const OF_1: [i16; 256] = [
    119, // inputs 0 and 1, set 0, index 2
    -27, -30, -101, -22, 31, -3, 17, -23, -47, -2, 2, 3, 22, 2, 3, -16, 19, 3, 30, 6, -7, 0, -9,
    -3, 5, 2, 3, 1, -5, 0, -1, 0, // inputs 2 and 3, set 0, index 2
    23, 58, 4, 22, 66, -15, -11, -102, 22, 2, 89, 38, -2, 2, -26, 10, 13, -13, -8, -5, -38, 4, -1,
    14, -9, -1, -20, -9, -2, 0, 8, -19, // inputs 4 and 5, set 0, index 2
    -10, -5, -1, -89, -1, 2, 6, -26, 23, 76, 25, -11, 87, -17, -7, 20, -74, 13, 4, 18, 39, -4, -5,
    1, 0, -15, -1, 3, -20, 5, -1, -17, // inputs 6 and 7, set 0, index 2
    1, -28, -24, 12, -23, -8, 1, -32, 17, 14, -7, -53, 52, -6, 9, -68, 50, -67, -92, 17, -15, 29,
    27, 2, -15, 6, -10, 25, -6, 4, 3, -6, // inputs 8 and 9, set 0, index 2
    9, -17, 5, -2, 35, -111, 0, 7, 6, -17, 21, 8, -9, -42, 34, 9, 44, 18, -3, 16, 102, 25, 11, -4,
    -7, 2, 13, -1, 11, 11, -20, 4, // inputs 10 and 11, set 0, index 2
    -6, -5, -4, -5, -9, -10, -39, 15, 1, 19, 22, -2, 0, 6, 102, 6, -19, -12, 19, -13, -32, 6, 30,
    95, -16, 69, -14, -29, -8, -24, -23, 4, // inputs 12 and 13, set 0, index 2
    -4, -4, -7, 7, 0, 8, -24, 4, -7, -13, 0, -18, -25, 5, 3, 0, -3, 0, -30, 21, 8, 22, -76, 58,
    -34, -88, 4, -54, -80, 28, -26, 0, // inputs 14 and 15, set 0, index 2
    0, 6, 0, 0, -1, 30, 5, -6, -1, 1, -7, -13, 1, -23, -34, 1, -2, 20, 3, -2, -6, 80, 19, -44, 5,
    37, -38, -68, 11, 1, -115,
];

// set 1, index 1.
const OF_2: [i16; 256] = [
    -111, // inputs 0 and 1, set 1, index 1
    -47, 39, -27, 4, 15, 3, -1, 44, -92, 11, 43, -12, 20, -1, -2, 7, 20, -16, 39, -5, -16, 2, -5,
    3, 10, -1, -5, 4, -13, 2, 2, -35, // inputs 2 and 3, set 1, index 1
    13, -23, 93, 4, -27, 4, -4, -17, -48, -72, 13, 32, -34, 6, 4, -59, -52, 18, 11, 50, 1, -6, 10,
    0, 3, 40, 16, 0, -3, -13, 1, -11, // inputs 4 and 5, set 1, index 1
    0, -27, -35, 1, 32, 2, -2, -47, 26, -4, 60, -36, -3, 10, -17, -2, -82, -85, 1, 14, -30, 29, 0,
    -20, -37, -2, 21, 57, 3, 4, 12, -17, // inputs 6 and 7, set 1, index 1
    4, -46, -10, -92, -23, 14, 4, 7, 16, -10, 58, -39, -17, 29, 26, -17, 30, 27, 21, -28, 67, 17,
    2, 1, -13, -15, 59, -13, 13, 17, -40, 5, // inputs 8 and 9, set 1, index 1
    -4, -20, -1, 32, 38, -5, -18, 8, -7, -3, -42, -46, -63, -7, -6, -4, 33, 2, 34, -15, -23, 24,
    15, 100, -65, 44, 33, 0, -20, 5, 2, -2, // inputs 10 and 11, set 1, index 1
    5, -10, 13, 35, 18, -19, 34, 5, 11, 8, -4, -44, 18, 14, 18, -25, 5, 25, 58, 58, -3, 17, 42, 7,
    -2, -84, -10, -16, 85, -18, 38, -5, // inputs 12 and 13, set 1, index 1
    0, -7, 4, -34, -2, -83, -60, 2, 5, -1, 9, -4, 42, -73, 34, 4, 5, 20, -14, 15, 9, -12, 80, 4,
    -5, -3, 13, 44, -38, 12, 37, -1, // inputs 14 and 15, set 1, index 1
    -1, 2, 0, 7, -12, -57, 23, 3, 1, -7, -4, 9, 17, 68, -53, -9, -3, 6, 4, -49, -21, -20, 72, 6,
    -4, -4, -8, 36, -3, -64, -83,
];

// set 1, index 2.
const OF_3: [i16; 256] = [
    88, // inputs 0 and 1, set 1, index 2
    -58, -55, -20, 6, 27, -3, -2, -66, -27, 27, 75, 9, -29, -2, 0, 11, 47, 11, -42, -13, -11, 1,
    11, -2, -9, -7, -3, 1, 19, 2, -4, -51, // inputs 2 and 3, set 1, index 2
    -27, 23, -76, -22, 49, 5, -2, -63, 40, 3, 14, 37, 9, -5, -17, 1, -56, 64, 36, -35, -25, -4, 6,
    29, 14, -31, 3, -11, -6, 13, 8, 19, // inputs 4 and 5, set 1, index 2
    29, -4, 50, -36, 13, 22, -10, 52, 1, 7, 34, 36, -59, -23, 1, 28, -51, -17, 4, -64, -16, 15, 30,
    -5, 52, -44, -33, 48, 24, 9, -5, -12, // inputs 6 and 7, set 1, index 2
    19, -21, 38, -74, -10, 43, -5, -13, 28, 39, 66, 18, 0, -5, -5, -58, -4, -35, 19, 27, -30, -5,
    -26, 19, -40, 26, 28, 6, -60, -5, 37, -6, // inputs 8 and 9, set 1, index 2
    -13, 27, -28, 18, -45, -5, -39, -37, 0, -18, -5, 12, -39, -25, 69, -44, -23, -10, 16, -38, -12,
    37, -18, -66, -50, 45, -31, 40, 24, -7, 13, -1, // inputs 10 and 11, set 1, index 2
    -8, 8, -22, 24, -17, -51, 33, -15, -18, -9, -45, 44, -57, 10, -27, -28, 0, -70, -31, -12, -30,
    -39, 29, 24, -2, -18, -13, -4, -53, 51, 49, 1, // inputs 12 and 13, set 1, index 2
    4, 12, 5, 32, 24, 51, 60, -8, -5, 8, -14, -2, -23, -31, 38, -22, 9, 4, 8, 46, -34, -39, -59,
    -49, 24, -67, 47, 14, 42, 17, 28, -1, // inputs 14 and 15, set 1, index 2
    -3, -5, -7, -20, -22, -34, -34, 4, -5, 4, -11, -15, -36, -46, -69, 18, -1, 31, -3, 42, -25, 10,
    -73, 10, 5, 27, 4, 49, 4, 78, -49,
];

// set 2, index 1.
const OF_4: [i16; 256] = [
    -112, // inputs 0 and 1, set 2, index 1
    29, 47, -7, -2, 1, 2, -1, -34, -108, 13, 40, 2, 2, 0, 0, 15, -45, -7, 13, 1, 4, 0, -1, 8, 8,
    -3, -5, -1, 1, 0, 0, -36, // inputs 2 and 3, set 2, index 1
    28, -87, -5, 69, 2, -10, -2, -17, -29, -33, 13, 26, -2, -2, 0, 7, 103, 14, -36, -11, -4, 2, 1,
    6, 48, 8, -16, -7, -4, 0, 1, -12, // inputs 4 and 5, set 2, index 1
    18, -24, 53, 15, 69, -3, -74, 26, 14, 80, 24, -61, 28, 9, -30, 15, -6, 54, -7, -36, -11, 2, 12,
    0, -5, -4, -7, 6, -6, -2, 8, 5, // inputs 6 and 7, set 2, index 1
    -13, -1, -32, 2, 18, 0, -2, -26, 15, 6, 34, 0, -27, 1, 7, 45, -25, -9, -80, -1, 47, 0, -1,
    -113, -16, 28, -50, 8, 28, -1, 2, -4, // inputs 8 and 9, set 2, index 1
    15, -13, 33, -10, 63, 19, 89, 18, 8, 46, 15, 60, 25, -48, 40, 16, -4, 33, -8, 60, -15, -48, -8,
    1, -2, 0, -6, 5, -9, -2, -7, -8, // inputs 10 and 11, set 2, index 1
    -2, -24, -6, -27, -24, 15, 13, 12, -1, 41, -8, 26, 37, -29, -22, -17, 3, -50, 18, -39, -51, 27,
    22, 0, -23, 35, -95, -67, 17, 26, 17, -3, // inputs 12 and 13, set 2, index 1
    2, -7, 6, -16, 10, -21, -3, 10, -5, 24, -16, 46, -31, 75, 12, 8, 7, 20, 24, 38, 41, 72, -16, 1,
    -16, 2, -41, 1, -89, 7, 49, 4, // inputs 14 and 15, set 2, index 1
    0, 8, 1, 21, 4, 40, 11, -4, -2, -11, -4, -28, -13, -57, -34, 5, 3, 14, 7, 31, 20, 70, 47, 7,
    -6, 18, -19, 32, -42, 52, -101,
];

// set 2, index 2.
const OF_5: [i16; 256] = [
    -99, // inputs 0 and 1, set 2, index 2
    58, 39, 42, -1, -33, 2, 3, 65, 33, -20, -63, -5, 23, 0, -1, -15, -55, -2, 32, 5, 3, -1, -5, 0,
    21, 3, -2, -1, -8, 0, 3, -15, // inputs 2 and 3, set 2, index 2
    46, 71, 5, -44, 4, 5, -6, -58, 71, -29, -12, 25, -15, 3, 5, 62, 52, -7, -38, -4, 13, -4, -2,
    -19, -63, 4, 23, 0, 3, 1, -3, -14, // inputs 4 and 5, set 2, index 2
    -3, -54, 3, -29, 69, 29, -42, 25, -11, -9, -50, 61, -26, -29, 26, 27, 24, 44, 63, -48, -19, 5,
    -5, -27, -18, -21, -22, 12, 12, 7, 0, 17, // inputs 6 and 7, set 2, index 2
    15, 16, 54, -2, -8, 1, 6, 38, 6, 18, 60, -12, -26, 0, -8, 62, -30, 1, 17, -14, -38, 5, 22, 89,
    -43, -42, -45, 8, 42, -2, -7, -6, // inputs 8 and 9, set 2, index 2
    -2, -17, -1, -55, -9, -28, -79, 9, 7, 30, 11, -8, 48, 58, 44, 4, -13, 34, -34, 41, -55, -52, 6,
    -16, 12, -36, 23, -20, 20, 16, -11, 7, // inputs 10 and 11, set 2, index 2
    -5, 29, -24, 14, -53, -6, 15, 12, -3, 53, -15, 10, -61, -11, 26, 14, 6, 59, 30, -15, -16, -3,
    23, 5, 13, 71, 56, -54, 44, 13, -35, 4, // inputs 12 and 13, set 2, index 2
    -2, 8, -11, 21, -25, 52, -4, -1, -4, -1, -21, -5, -53, 29, 2, -7, -5, -17, -26, -44, -64, -84,
    19, 8, -8, 20, -19, 31, -73, 39, 39, -3, // inputs 14 and 15, set 2, index 2
    1, -5, 1, -23, 7, -57, 18, -2, 1, -4, 2, -24, 16, -75, 47, 1, 2, 3, 5, 9, 24, -25, 67, 6, 3,
    15, 9, 41, 25, 61, 88,
];

// set 3, index 1.
const OF_6: [i16; 256] = [
    -114, // inputs 0 and 1, set 3, index 1
    -19, 37, -41, 3, 19, 2, -2, -22, 85, -23, -60, 14, -11, 0, 7, 21, 17, -17, 31, -5, -34, 2, 2,
    5, -11, 2, 19, -4, 2, -1, -8, 36, // inputs 2 and 3, set 3, index 1
    -27, -25, -80, 18, 44, -2, -3, -42, -58, -53, 1, 35, -29, 5, 19, 46, -41, -60, 18, -25, -12,
    19, -7, 8, 12, 21, -17, -33, 7, -1, -6, -11, // inputs 4 and 5, set 3, index 1
    15, -21, 47, 37, 10, -10, -6, 44, -16, -4, -44, 47, 42, -12, 10, -37, -80, -41, 25, 58, -40,
    18, 21, 10, -23, -46, -2, -16, 3, 31, -14, 13, // inputs 6 and 7, set 3, index 1
    16, 25, 11, 79, -26, -39, 13, -13, -13, 10, -74, 31, -20, -4, -1, 49, 5, 45, -6, 12, 29, -8,
    -47, 3, 26, -1, -49, 43, 54, 7, 2, -8, // inputs 8 and 9, set 3, index 1
    -6, -34, -30, -26, -42, 7, -12, -26, -3, -19, 5, 29, 57, -37, -52, 1, -2, 22, 37, 46, -12, -9,
    6, -81, 74, 37, 10, 14, 6, 20, -15, 5, // inputs 10 and 11, set 3, index 1
    -5, 9, -23, -6, -23, 42, 36, -15, 3, -18, 22, -9, 36, 26, 40, 15, 27, 58, -4, 14, -16, 43, 56,
    23, -25, -10, -46, -37, 56, 75, -24, 1, // inputs 12 and 13, set 3, index 1
    -3, 3, -2, 23, -21, 73, -52, 8, 1, 5, -10, 34, -17, 46, 44, -12, -19, 2, -20, 35, 30, -38, 45,
    26, 27, 52, 61, 2, 49, -31, 21, -2, // inputs 14 and 15, set 3, index 1
    -5, -7, -12, -33, -18, -56, -12, -4, 8, -6, 22, 21, 38, 63, 36, 15, -5, 31, -15, 32, -51, -22,
    -63, -10, -5, -26, 0, -52, 15, -38, 73,
];

// set 3, index 2.
const OF_7: [i16; 256] = [
    -102, // inputs 0 and 1, set 3, index 2
    12, 22, 93, 7, -27, 2, -6, 66, -27, -25, -64, -6, 36, -1, 6, -15, 13, 14, 5, 1, -23, -1, 0, 2,
    -2, -2, 6, 1, 5, 0, -3, -59, // inputs 2 and 3, set 3, index 2
    -33, -24, 23, 17, -36, 1, 11, -62, -21, -2, 50, -3, 35, 2, -16, 83, -23, -12, -78, -17, 16, -2,
    19, -24, 22, 14, 15, 7, -30, -2, -5, 0, // inputs 4 and 5, set 3, index 2
    28, -38, 38, -81, 8, 30, -9, 27, 62, 5, 32, 51, -13, -32, 2, 24, 51, 36, -32, -16, 15, 12, 5,
    -24, -66, -8, 28, 9, 0, 1, -1, 11, // inputs 6 and 7, set 3, index 2
    -13, -35, 23, 21, 22, -17, -36, 30, -12, -18, 64, 31, 39, 18, 25, -11, -19, -36, 23, -80, -36,
    12, 9, 16, -30, 49, -58, 13, 33, -32, -7, -9, // inputs 8 and 9, set 3, index 2
    -6, -20, 24, -55, -38, -83, 23, 3, -8, -2, 40, 1, -49, 62, 0, 8, -7, 2, 9, 27, -25, -28, -44,
    7, 23, 15, 39, -11, 70, 5, -3, 12, // inputs 10 and 11, set 3, index 2
    2, 17, -9, 17, 8, 0, 45, 32, 7, 27, -8, 21, 27, 2, 35, 67, -9, 11, -31, -6, -17, -10, -87, 89,
    -23, -22, -22, -12, -19, 16, 44, -1, // inputs 12 and 13, set 3, index 2
    5, -9, -12, 28, -24, -24, -17, -1, 13, -10, -34, 49, -32, -30, -16, -8, 14, -7, -67, 40, -7, 1,
    9, 4, 7, 33, -74, 65, 49, 67, 1, 2, // inputs 14 and 15, set 3, index 2
    -1, -6, 1, 11, -14, 45, 36, 3, -1, -10, 2, 33, -20, 55, 69, 8, 0, -5, 0, 59, -15, 4, 72, 7, 3,
    -4, 4, 44, 5, -66, 65,
];

// the first half of set 0, index 1.
const FEW_0: [i16; 128] = [
    108, // inputs 0 and 1, the first half of set 0, index 1
    -40, -44, -97, -15, 56, 1, 12, -44, -11, 19, 29, 7, -12, -1, -3, -11, 18, 6, 18, 2, -15, -1,
    -3, 0, -1, -1, -3, -1, 2, 0, 1, 25, // inputs 2 and 3, the first half of set 0, index 1
    -32, -31, -39, -1, -92, 7, 51, 100, -6, -16, -16, -29, 36, 1, -8, -54, 3, 21, 22, 14, 18, -4,
    -15, -7, 4, 2, 1, 4, -5, 0, 2, 8, // inputs 4 and 5, the first half of set 0, index 1
    -25, -9, 5, 33, 16, -8, -3, -16, -38, -102, 14, 36, 11, 23, -3, -4, -97, 38, 7, -27, 26, -5, 1,
    5, 55, 16, -10, -8, -19, -6, 3, 8, // inputs 6 and 7, the first half of set 0, index 1
    2, 9, 34, 16, -5, 1, 1, 37, -7, 36, 24, 94, -25, -38, -3, -7, 8, 3, 99, -47, -28, 11, -29, -6,
    6, -13, -43, -17, 21, 10, 11,
];

// the first half of set 0, index 2.
const FEW_1: [i16; 128] = [
    119, // inputs 0 and 1, the first half of set 0, index 2
    -27, -30, -101, -22, 31, -3, 17, -23, -47, -2, 2, 3, 22, 2, 3, -16, 19, 3, 30, 6, -7, 0, -9,
    -3, 5, 2, 3, 1, -5, 0, -1, 0, // inputs 2 and 3, the first half of set 0, index 2
    23, 58, 4, 22, 66, -15, -11, -102, 22, 2, 89, 38, -2, 2, -26, 10, 13, -13, -8, -5, -38, 4, -1,
    14, -9, -1, -20, -9, -2, 0, 8, -19, // inputs 4 and 5, the first half of set 0, index 2
    -10, -5, -1, -89, -1, 2, 6, -26, 23, 76, 25, -11, 87, -17, -7, 20, -74, 13, 4, 18, 39, -4, -5,
    1, 0, -15, -1, 3, -20, 5, -1, -17, // inputs 6 and 7, the first half of set 0, index 2
    1, -28, -24, 12, -23, -8, 1, -32, 17, 14, -7, -53, 52, -6, 9, -68, 50, -67, -92, 17, -15, 29,
    27, 2, -15, 6, -10, 25, -6, 4, 3,
];

// the first half of set 1, index 1.
const FEW_2: [i16; 128] = [
    -111, // inputs 0 and 1, the first half of set 1, index 1
    -47, 39, -27, 4, 15, 3, -1, 44, -92, 11, 43, -12, 20, -1, -2, 7, 20, -16, 39, -5, -16, 2, -5,
    3, 10, -1, -5, 4, -13, 2, 2, -35, // inputs 2 and 3, the first half of set 1, index 1
    13, -23, 93, 4, -27, 4, -4, -17, -48, -72, 13, 32, -34, 6, 4, -59, -52, 18, 11, 50, 1, -6, 10,
    0, 3, 40, 16, 0, -3, -13, 1, -11, // inputs 4 and 5, the first half of set 1, index 1
    0, -27, -35, 1, 32, 2, -2, -47, 26, -4, 60, -36, -3, 10, -17, -2, -82, -85, 1, 14, -30, 29, 0,
    -20, -37, -2, 21, 57, 3, 4, 12, -17, // inputs 6 and 7, the first half of set 1, index 1
    4, -46, -10, -92, -23, 14, 4, 7, 16, -10, 58, -39, -17, 29, 26, -17, 30, 27, 21, -28, 67, 17,
    2, 1, -13, -15, 59, -13, 13, 17, -40,
];

// the first half of set 1, index 2.
const FEW_3: [i16; 128] = [
    88, // inputs 0 and 1, the first half of set 1, index 2
    -58, -55, -20, 6, 27, -3, -2, -66, -27, 27, 75, 9, -29, -2, 0, 11, 47, 11, -42, -13, -11, 1,
    11, -2, -9, -7, -3, 1, 19, 2, -4, -51, // inputs 2 and 3, the first half of set 1, index 2
    -27, 23, -76, -22, 49, 5, -2, -63, 40, 3, 14, 37, 9, -5, -17, 1, -56, 64, 36, -35, -25, -4, 6,
    29, 14, -31, 3, -11, -6, 13, 8, 19, // inputs 4 and 5, the first half of set 1, index 2
    29, -4, 50, -36, 13, 22, -10, 52, 1, 7, 34, 36, -59, -23, 1, 28, -51, -17, 4, -64, -16, 15, 30,
    -5, 52, -44, -33, 48, 24, 9, -5, -12, // inputs 6 and 7, the first half of set 1, index 2
    19, -21, 38, -74, -10, 43, -5, -13, 28, 39, 66, 18, 0, -5, -5, -58, -4, -35, 19, 27, -30, -5,
    -26, 19, -40, 26, 28, 6, -60, -5, 37,
];

// the first half of set 2, index 1.
const FEW_4: [i16; 128] = [
    -112, // inputs 0 and 1, the first half of set 2, index 1
    29, 47, -7, -2, 1, 2, -1, -34, -108, 13, 40, 2, 2, 0, 0, 15, -45, -7, 13, 1, 4, 0, -1, 8, 8,
    -3, -5, -1, 1, 0, 0, -36, // inputs 2 and 3, the first half of set 2, index 1
    28, -87, -5, 69, 2, -10, -2, -17, -29, -33, 13, 26, -2, -2, 0, 7, 103, 14, -36, -11, -4, 2, 1,
    6, 48, 8, -16, -7, -4, 0, 1, -12, // inputs 4 and 5, the first half of set 2, index 1
    18, -24, 53, 15, 69, -3, -74, 26, 14, 80, 24, -61, 28, 9, -30, 15, -6, 54, -7, -36, -11, 2, 12,
    0, -5, -4, -7, 6, -6, -2, 8, 5, // inputs 6 and 7, the first half of set 2, index 1
    -13, -1, -32, 2, 18, 0, -2, -26, 15, 6, 34, 0, -27, 1, 7, 45, -25, -9, -80, -1, 47, 0, -1,
    -113, -16, 28, -50, 8, 28, -1, 2,
];

// the first half of set 2, index 2.
const FEW_5: [i16; 128] = [
    -99, // inputs 0 and 1, the first half of set 2, index 2
    58, 39, 42, -1, -33, 2, 3, 65, 33, -20, -63, -5, 23, 0, -1, -15, -55, -2, 32, 5, 3, -1, -5, 0,
    21, 3, -2, -1, -8, 0, 3, -15, // inputs 2 and 3, the first half of set 2, index 2
    46, 71, 5, -44, 4, 5, -6, -58, 71, -29, -12, 25, -15, 3, 5, 62, 52, -7, -38, -4, 13, -4, -2,
    -19, -63, 4, 23, 0, 3, 1, -3, -14, // inputs 4 and 5, the first half of set 2, index 2
    -3, -54, 3, -29, 69, 29, -42, 25, -11, -9, -50, 61, -26, -29, 26, 27, 24, 44, 63, -48, -19, 5,
    -5, -27, -18, -21, -22, 12, 12, 7, 0, 17, // inputs 6 and 7, the first half of set 2, index 2
    15, 16, 54, -2, -8, 1, 6, 38, 6, 18, 60, -12, -26, 0, -8, 62, -30, 1, 17, -14, -38, 5, 22, 89,
    -43, -42, -45, 8, 42, -2, -7,
];

// the first half of set 3, index 1.
const FEW_6: [i16; 128] = [
    -114, // inputs 0 and 1, the first half of set 3, index 1
    -19, 37, -41, 3, 19, 2, -2, -22, 85, -23, -60, 14, -11, 0, 7, 21, 17, -17, 31, -5, -34, 2, 2,
    5, -11, 2, 19, -4, 2, -1, -8, 36, // inputs 2 and 3, the first half of set 3, index 1
    -27, -25, -80, 18, 44, -2, -3, -42, -58, -53, 1, 35, -29, 5, 19, 46, -41, -60, 18, -25, -12,
    19, -7, 8, 12, 21, -17, -33, 7, -1, -6, -11, // inputs 4 and 5, the first half of set 3, index 1
    15, -21, 47, 37, 10, -10, -6, 44, -16, -4, -44, 47, 42, -12, 10, -37, -80, -41, 25, 58, -40,
    18, 21, 10, -23, -46, -2, -16, 3, 31, -14, 13, // inputs 6 and 7, the first half of set 3, index 1
    16, 25, 11, 79, -26, -39, 13, -13, -13, 10, -74, 31, -20, -4, -1, 49, 5, 45, -6, 12, 29, -8,
    -47, 3, 26, -1, -49, 43, 54, 7, 2,
];

// the first half of set 3, index 2.
const FEW_7: [i16; 128] = [
    -102, // inputs 0 and 1, the first half of set 3, index 2
    12, 22, 93, 7, -27, 2, -6, 66, -27, -25, -64, -6, 36, -1, 6, -15, 13, 14, 5, 1, -23, -1, 0, 2,
    -2, -2, 6, 1, 5, 0, -3, -59, // inputs 2 and 3, the first half of set 3, index 2
    -33, -24, 23, 17, -36, 1, 11, -62, -21, -2, 50, -3, 35, 2, -16, 83, -23, -12, -78, -17, 16, -2,
    19, -24, 22, 14, 15, 7, -30, -2, -5, 0, // inputs 4 and 5, the first half of set 3, index 2
    28, -38, 38, -81, 8, 30, -9, 27, 62, 5, 32, 51, -13, -32, 2, 24, 51, 36, -32, -16, 15, 12, 5,
    -24, -66, -8, 28, 9, 0, 1, -1, 11, // inputs 6 and 7, the first half of set 3, index 2
    -13, -35, 23, 21, 22, -17, -36, 30, -12, -18, 64, 31, 39, 18, 25, -11, -19, -36, 23, -80, -36,
    12, 9, 16, -30, 49, -58, 13, 33, -32, -7,
];

// Written into a lent room: a table that is handed out by value would stand on the stack twice.
pub fn put(matrix: usize, t: &mut [i16; 256])
    requires { matrix < 8 }
    ensures { (length t.new ≡ 256) × Laid 16 8 2 32 (entry 16 matrix) t.new }
{
    if matrix == 0 {
        *t = OF_0;
        return;
    }
    if matrix == 1 {
        *t = OF_1;
        return;
    }
    if matrix == 2 {
        *t = OF_2;
        return;
    }
    if matrix == 3 {
        *t = OF_3;
        return;
    }
    if matrix == 4 {
        *t = OF_4;
        return;
    }
    if matrix == 5 {
        *t = OF_5;
        return;
    }
    if matrix == 6 {
        *t = OF_6;
        return;
    }
    *t = OF_7;
}

fn few_0(pairs: usize, a: &[i16; 16], v: &mut [i32])
    requires { (pairs ≡ 4) × GivenInputs 16 pairs a.now v.old }
    ensures { WroteFrom 0 16 v.new v.old (λ j. middle (range_of 15) (sum (2 * pairs) (λ i. at a.now i *ℤ entry 16 0 i j))) }
{
    let t = FEW_0;
    line_16(&t, pairs, a, v);
}

fn few_1(pairs: usize, a: &[i16; 16], v: &mut [i32])
    requires { (pairs ≡ 4) × GivenInputs 16 pairs a.now v.old }
    ensures { WroteFrom 0 16 v.new v.old (λ j. middle (range_of 15) (sum (2 * pairs) (λ i. at a.now i *ℤ entry 16 1 i j))) }
{
    let t = FEW_1;
    line_16(&t, pairs, a, v);
}

fn few_2(pairs: usize, a: &[i16; 16], v: &mut [i32])
    requires { (pairs ≡ 4) × GivenInputs 16 pairs a.now v.old }
    ensures { WroteFrom 0 16 v.new v.old (λ j. middle (range_of 15) (sum (2 * pairs) (λ i. at a.now i *ℤ entry 16 2 i j))) }
{
    let t = FEW_2;
    line_16(&t, pairs, a, v);
}

fn few_3(pairs: usize, a: &[i16; 16], v: &mut [i32])
    requires { (pairs ≡ 4) × GivenInputs 16 pairs a.now v.old }
    ensures { WroteFrom 0 16 v.new v.old (λ j. middle (range_of 15) (sum (2 * pairs) (λ i. at a.now i *ℤ entry 16 3 i j))) }
{
    let t = FEW_3;
    line_16(&t, pairs, a, v);
}

fn few_4(pairs: usize, a: &[i16; 16], v: &mut [i32])
    requires { (pairs ≡ 4) × GivenInputs 16 pairs a.now v.old }
    ensures { WroteFrom 0 16 v.new v.old (λ j. middle (range_of 15) (sum (2 * pairs) (λ i. at a.now i *ℤ entry 16 4 i j))) }
{
    let t = FEW_4;
    line_16(&t, pairs, a, v);
}

fn few_5(pairs: usize, a: &[i16; 16], v: &mut [i32])
    requires { (pairs ≡ 4) × GivenInputs 16 pairs a.now v.old }
    ensures { WroteFrom 0 16 v.new v.old (λ j. middle (range_of 15) (sum (2 * pairs) (λ i. at a.now i *ℤ entry 16 5 i j))) }
{
    let t = FEW_5;
    line_16(&t, pairs, a, v);
}

fn few_6(pairs: usize, a: &[i16; 16], v: &mut [i32])
    requires { (pairs ≡ 4) × GivenInputs 16 pairs a.now v.old }
    ensures { WroteFrom 0 16 v.new v.old (λ j. middle (range_of 15) (sum (2 * pairs) (λ i. at a.now i *ℤ entry 16 6 i j))) }
{
    let t = FEW_6;
    line_16(&t, pairs, a, v);
}

fn few_7(pairs: usize, a: &[i16; 16], v: &mut [i32])
    requires { (pairs ≡ 4) × GivenInputs 16 pairs a.now v.old }
    ensures { WroteFrom 0 16 v.new v.old (λ j. middle (range_of 15) (sum (2 * pairs) (λ i. at a.now i *ℤ entry 16 7 i j))) }
{
    let t = FEW_7;
    line_16(&t, pairs, a, v);
}

fn all_0(pairs: usize, a: &[i16; 16], v: &mut [i32])
    requires { (pairs ≡ 8) × GivenInputs 16 pairs a.now v.old }
    ensures { WroteFrom 0 16 v.new v.old (λ j. middle (range_of 15) (sum (2 * pairs) (λ i. at a.now i *ℤ entry 16 0 i j))) }
{
    let t = OF_0;
    line_16(&t, pairs, a, v);
}

fn all_1(pairs: usize, a: &[i16; 16], v: &mut [i32])
    requires { (pairs ≡ 8) × GivenInputs 16 pairs a.now v.old }
    ensures { WroteFrom 0 16 v.new v.old (λ j. middle (range_of 15) (sum (2 * pairs) (λ i. at a.now i *ℤ entry 16 1 i j))) }
{
    let t = OF_1;
    line_16(&t, pairs, a, v);
}

fn all_2(pairs: usize, a: &[i16; 16], v: &mut [i32])
    requires { (pairs ≡ 8) × GivenInputs 16 pairs a.now v.old }
    ensures { WroteFrom 0 16 v.new v.old (λ j. middle (range_of 15) (sum (2 * pairs) (λ i. at a.now i *ℤ entry 16 2 i j))) }
{
    let t = OF_2;
    line_16(&t, pairs, a, v);
}

fn all_3(pairs: usize, a: &[i16; 16], v: &mut [i32])
    requires { (pairs ≡ 8) × GivenInputs 16 pairs a.now v.old }
    ensures { WroteFrom 0 16 v.new v.old (λ j. middle (range_of 15) (sum (2 * pairs) (λ i. at a.now i *ℤ entry 16 3 i j))) }
{
    let t = OF_3;
    line_16(&t, pairs, a, v);
}

fn all_4(pairs: usize, a: &[i16; 16], v: &mut [i32])
    requires { (pairs ≡ 8) × GivenInputs 16 pairs a.now v.old }
    ensures { WroteFrom 0 16 v.new v.old (λ j. middle (range_of 15) (sum (2 * pairs) (λ i. at a.now i *ℤ entry 16 4 i j))) }
{
    let t = OF_4;
    line_16(&t, pairs, a, v);
}

fn all_5(pairs: usize, a: &[i16; 16], v: &mut [i32])
    requires { (pairs ≡ 8) × GivenInputs 16 pairs a.now v.old }
    ensures { WroteFrom 0 16 v.new v.old (λ j. middle (range_of 15) (sum (2 * pairs) (λ i. at a.now i *ℤ entry 16 5 i j))) }
{
    let t = OF_5;
    line_16(&t, pairs, a, v);
}

fn all_6(pairs: usize, a: &[i16; 16], v: &mut [i32])
    requires { (pairs ≡ 8) × GivenInputs 16 pairs a.now v.old }
    ensures { WroteFrom 0 16 v.new v.old (λ j. middle (range_of 15) (sum (2 * pairs) (λ i. at a.now i *ℤ entry 16 6 i j))) }
{
    let t = OF_6;
    line_16(&t, pairs, a, v);
}

fn all_7(pairs: usize, a: &[i16; 16], v: &mut [i32])
    requires { (pairs ≡ 8) × GivenInputs 16 pairs a.now v.old }
    ensures { WroteFrom 0 16 v.new v.old (λ j. middle (range_of 15) (sum (2 * pairs) (λ i. at a.now i *ℤ entry 16 7 i j))) }
{
    let t = OF_7;
    line_16(&t, pairs, a, v);
}

// The values by a matrix, of its first 4 pairs of inputs or of all 8. A table stands in the function that reads it, and is as long as it
// is read: it is laid out on the stack each time.
pub fn times(matrix: usize, pairs: usize, a: &[i16; 16], v: &mut [i32])
    requires { (matrix < 8) × GivenInputs 16 pairs a.now v.old }
    ensures { WroteFrom 0 16 v.new v.old (λ j. middle (range_of 15) (sum (2 * pairs) (λ i. at a.now i *ℤ entry 16 matrix i j))) }
{
    let which = matrix + 2 * pairs - 8;
    if which == 0 {
        few_0(pairs, a, v);
        return;
    }
    if which == 1 {
        few_1(pairs, a, v);
        return;
    }
    if which == 2 {
        few_2(pairs, a, v);
        return;
    }
    if which == 3 {
        few_3(pairs, a, v);
        return;
    }
    if which == 4 {
        few_4(pairs, a, v);
        return;
    }
    if which == 5 {
        few_5(pairs, a, v);
        return;
    }
    if which == 6 {
        few_6(pairs, a, v);
        return;
    }
    if which == 7 {
        few_7(pairs, a, v);
        return;
    }
    if which == 8 {
        all_0(pairs, a, v);
        return;
    }
    if which == 9 {
        all_1(pairs, a, v);
        return;
    }
    if which == 10 {
        all_2(pairs, a, v);
        return;
    }
    if which == 11 {
        all_3(pairs, a, v);
        return;
    }
    if which == 12 {
        all_4(pairs, a, v);
        return;
    }
    if which == 13 {
        all_5(pairs, a, v);
        return;
    }
    if which == 14 {
        all_6(pairs, a, v);
        return;
    }
    all_7(pairs, a, v);
}
