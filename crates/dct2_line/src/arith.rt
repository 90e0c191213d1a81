// Sums in 32 bits.
ghost use Rattle.std.specs.Prelude.{◌≡◌, ◌≤◌, ◌+ℤ◌, ◌-ℤ◌, ◌*ℤ◌, nat_abs};

pub fn minus(a: i32, b: i32) -> i32
    requires { (nat_abs a ≤ 1000000000) × (nat_abs b ≤ 1000000000) }
    ensures { result ≡ a -ℤ b }
{
    a - b
}

// a + w * v
pub fn times(a: i32, w: i16, v: i32) -> i32
    requires { (nat_abs a ≤ 1000000000) × ((nat_abs w ≤ 90) × (nat_abs v ≤ 1048576)) }
    ensures { result ≡ a +ℤ w *ℤ v }
{
    a + (w as i32) * v
}

// w * a + v * b
pub fn both(w: i16, a: i32, v: i16, b: i32) -> i32
    requires { ((nat_abs w ≤ 90) × (nat_abs a ≤ 1048576)) × ((nat_abs v ≤ 90) × (nat_abs b ≤ 1048576)) }
    ensures { result ≡ w *ℤ a +ℤ v *ℤ b }
{
    (w as i32) * a + (v as i32) * b
}
