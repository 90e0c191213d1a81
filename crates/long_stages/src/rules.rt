// R, the range and the last shift (docs/DECISIONS.md has where the rules come from).
ghost use Rattle.std.specs.Prelude.{◌≡◌, ◌+◌, ◌^◌, ◌≤◌, ◌-◌, pos, negsuc};
ghost use Rattle.meaning.specs.Plan.{reach};

// "max(15, min(20, d + 6))" with the switch on, and 15 with it off.
pub fn reach_of(extended: bool, d: u32) -> u32
    ensures { result ≡ reach extended d }
{
    if extended { d.clamp(9, 14) + 6 } else { 15 }
}

// s = 5 + R - d, which is 20 - d with the switch off.
pub fn last_shift(extended: bool, d: u32) -> u32
    requires { d ≤ 16 }
    ensures { result ≡ 5 + reach extended d - d }
{
    5 + reach_of(extended, d) - d
}

// The ends of the range: -2^R and 2^R - 1.
pub fn low_end(reach: u32) -> i32
    requires { reach ≤ 20 }
    ensures { result ≡ negsuc (2 ^ reach - 1) }
{
    -(1 << reach)
}

pub fn high_end(reach: u32) -> i32
    requires { reach ≤ 20 }
    ensures { result ≡ pos (2 ^ reach - 1) }
{
    (1 << reach) - 1
}
