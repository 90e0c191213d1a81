// Numbers from bytes.
ghost use Rattle.std.specs.Prelude.{◌≡◌, ◌+◌, ◌*◌, length};
ghost use Rattle.file_numbers.specs.Numbers.{signed16, numbers};

fn number(high: u8, low: u8) -> i16
    ensures { result ≡ signed16 (high * 256 + low) }
{
    i16::from_be_bytes([high, low])
}

// Fills `out` with the numbers of `body`.
pub fn read_numbers(body: &[u8], out: &mut [i16])
    requires { length body.now ≡ length out.old + length out.old }
    ensures { out.new ≡ numbers body.now }
{
    for (i, value) in out.iter_mut().enumerate() {
        *value = number(body[2 * i], body[2 * i + 1]);
    }
}

// The same, for numbers of 32 bits.
pub fn read_wide_numbers(body: &[u8], out: &mut [i32])
    requires { length body.now ≡ length out.old + length out.old }
    ensures { out.new ≡ numbers body.now }
{
    for (i, value) in out.iter_mut().enumerate() {
        *value = i32::from(number(body[2 * i], body[2 * i + 1]));
    }
}
