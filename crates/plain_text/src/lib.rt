// Internal: what an argument spells, for the programs that take numbers.
#![tactic(auto)]

ghost use Rattle.std.specs.Prelude.{◌<◌, IfSome};

// The number that digits spell, below 100,000, which is more than a file has fields or a block has places; none where a byte is no
// digit, and for no bytes.
pub fn number_of(text: &[u8]) -> Option<usize>
    ensures { IfSome result (λ n. n < 100000) }
{
    if text.is_empty() {
        return None;
    }
    let mut n = 0;
    for byte in text {
        if !byte.is_ascii_digit() {
            return None;
        }
        if n < 10000 {
            n = n * 10 + usize::from(*byte - b'0');
        }
    }
    Some(n)
}
