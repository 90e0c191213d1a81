// Signed numbers and their bits. `as` is refused for a number that does not fit; `!` asks nothing.
ghost use Rattle.std.specs.Prelude.{◌≡◌, ◌*ℤ◌};
ghost use Rattle.wrapping.specs.Wrapped.{wrap, signed_of};

fn bits(p: i32) -> u32
    ensures { result ≡ wrap p }
{
    if p < 0 {
        return u32::MAX - (!p) as u32;
    }
    p as u32
}

// The signed number of bits.
pub fn signed(u: u32) -> i32
    ensures { result ≡ signed_of u }
{
    if u < 2147483648 {
        return u as i32;
    }
    !((u32::MAX - u) as i32)
}

// The exact product, as the adder takes it.
pub fn product(w: i16, v: i16) -> u32
    ensures { result ≡ wrap (w *ℤ v) }
{
    bits(w as i32 * v as i32)
}
