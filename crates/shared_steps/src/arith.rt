// Sums and products in 32 bits, exact. Only these functions reason about casts.
ghost use Rattle.std.specs.Prelude.{◌≡◌, ◌≤◌, ◌+ℤ◌, ◌*ℤ◌, neg_ℤ, nat_abs};
ghost use Rattle.meaning.specs.Weights.{signed};

// a + w * v, v an input or up to 13 of them folded to one number
pub fn mac(a: i32, w: i32, v: i32) -> i32
    requires { (nat_abs a ≤ 1000000000) × ((nat_abs w ≤ 90) × (nat_abs v ≤ 425984)) }
    ensures { result ≡ a +ℤ w *ℤ v }
{
    a + w * v
}

pub fn plus(a: i32, b: i32) -> i32
    requires { (nat_abs a ≤ 1000000000) × (nat_abs b ≤ 1000000000) }
    ensures { result ≡ a +ℤ b }
{
    a + b
}

// Two inputs, or one and the negative of another: 16 bits would not hold every sum.
pub fn two_inputs(first: i32, second: i32) -> i32
    requires { (nat_abs first ≤ 32768) × (nat_abs second ≤ 32768) }
    ensures { result ≡ first +ℤ second }
{
    first + second
}

pub fn negated(a: i32) -> i32
    requires { nat_abs a ≤ 1000000000 }
    ensures { result ≡ neg_ℤ a }
{
    -a
}

pub fn sign(less: bool, a: i32) -> i32
    requires { nat_abs a ≤ 1000000000 }
    ensures { result ≡ signed less a }
{
    if less { negated(a) } else { a }
}

// An input with its sign changed where asked: in 32 bits, where -32768 has a negative too.
pub fn sign_of_input(less: bool, input: i16) -> i32
    ensures { (result ≡ signed less input) × (nat_abs result ≤ 32768) }
{
    if less {
        -i32::from(input)
    } else {
        i32::from(input)
    }
}
