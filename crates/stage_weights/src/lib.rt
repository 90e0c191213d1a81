// Internal: the weights of a stage of a block, in a room that every size shares, so that the code of a stage stands once; lines of
// 32 points take them too. It asks that the size was tested. A room of 128 does for small blocks and for small parts of large ones;
// one of 1024 has all. Read specs/Stage; of proofs/, Rooms.
#![tactic(auto)]

ghost use Rattle.std.specs.Prelude.{◌≡◌, true, ◌≤◌, min, length};
ghost use Rattle.meaning.specs.Shape.{is_size};
ghost use Rattle.stage_weights.specs.Stage.{Front, Weights};

use tables::zipped::{put_32, zipped_4, zipped_8, zipped_16};

// As many numbers of t as there is room for. Their number is a literal at each call, so that they are copied from where the
// constants stand: of one that is not known the table is laid out on the stack first (docs/DECISIONS.md).
pub fn front(t: &[i16], most: usize, u: &mut [i16])
    requires { most ≡ min (length t.now) (length u.old) }
    ensures { Front (length u.old) u.new t.now }
{
    for k in 0..most {
        u[k] = t[k];
    }
}

// The weights of up to 8 points, for which every room is large enough.
pub fn few(kind: u32, forward: bool, n: usize, u: &mut [i16])
    requires { ((is_size n ≡ true) × (n ≤ 8)) × (64 ≤ length u.old) }
    ensures { (length u.new ≡ length u.old) × Weights (length u.old) n forward kind n u.new }
{
    if n == 4 {
        front(&zipped_4(kind, forward), 16, u);
    } else {
        front(&zipped_8(kind, forward), 64, u);
    }
}

pub fn put_128(kind: u32, forward: bool, n: usize, u: &mut [i16; 128])
    requires { (is_size n ≡ true) × (length u.old ≡ 128) }
    ensures { (length u.new ≡ 128) × Weights 128 n forward kind n u.new }
{
    if 16 < n {
        let mut t = [0i16; 1024];
        put_32(kind, forward, &mut t);
        front(&t, 128, u);
    } else if n == 16 {
        front(&zipped_16(kind, forward), 128, u);
    } else {
        few(kind, forward, n, u);
    }
}

pub fn put_1024(kind: u32, forward: bool, n: usize, u: &mut [i16; 1024])
    requires { (is_size n ≡ true) × (length u.old ≡ 1024) }
    ensures { (length u.new ≡ 1024) × Weights 1024 n forward kind n u.new }
{
    if 16 < n {
        put_32(kind, forward, u);
    } else if n == 16 {
        front(&zipped_16(kind, forward), 256, u);
    } else {
        few(kind, forward, n, u);
    }
}
