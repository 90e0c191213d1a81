// The lines that a run prints, put into a buffer at a place. Each function returns the place after what it put.
ghost use Rattle.std.specs.Prelude.{[], ◌∷◌, ◌+◌, ◌*◌, ◌<◌, ◌≤◌, ◌^◌, pos, length};
ghost use Rattle.file_text.specs.Text.{digits, decimal, spaced, inverse_text, forward_text, refusal_text};
ghost use Rattle.file_text.specs.Wrote.{Wrote};

pub fn put(byte: u8, out: &mut [u8], at: usize) -> usize
    requires { at < length out.old }
    ensures { Wrote (byte ∷ []) 1 at out.old out.new result }
{
    out[at] = byte;
    at + 1
}

fn put_digits(n: u32, k: usize, out: &mut [u8], at: usize) -> usize
    requires { (n < 10 ^ (k + 1)) × (at + k < length out.old) }
    ensures { Wrote (digits k n) (k + 1) at out.old out.new result }
{
    if n < 10 {
        return put(b'0' + n as u8, out, at);
    }
    let next = put_digits(n / 10, k - 1, out, at);
    put(b'0' + (n % 10) as u8, out, next)
}

pub fn put_decimal(n: u32, out: &mut [u8], at: usize) -> usize
    requires { at + 10 ≤ length out.old }
    ensures { Wrote (decimal n) 10 at out.old out.new result }
{
    put_digits(n, 9, out, at)
}

// A space and a number.
fn put_natural(n: u32, out: &mut [u8], at: usize) -> usize
    requires { at + 11 ≤ length out.old }
    ensures { Wrote (spaced (pos n ∷ [])) 11 at out.old out.new result }
{
    let next = put(b' ', out, at);
    put_decimal(n, out, next)
}

// A space and a number.
fn put_integer(z: i32, out: &mut [u8], at: usize) -> usize
    requires { at + 12 ≤ length out.old }
    ensures { Wrote (spaced (z ∷ [])) 12 at out.old out.new result }
{
    let space = put(b' ', out, at);
    let size = z.unsigned_abs();
    if z < 0 {
        let minus = put(b'-', out, space);
        return put_decimal(size, out, minus);
    }
    put_decimal(size, out, space)
}

fn put_residuals(zs: &[i32], out: &mut [u8], at: usize) -> usize
    requires { at + 12 * length zs.now ≤ length out.old }
    ensures { Wrote (spaced zs.now) (12 * length zs.now) at out.old out.new result }
{
    let mut end = at;
    for z in zs {
        end = put_integer(*z, out, end);
    }
    end
}

fn put_coefficients(zs: &[i16], out: &mut [u8], at: usize) -> usize
    requires { at + 12 * length zs.now ≤ length out.old }
    ensures { Wrote (spaced zs.now) (12 * length zs.now) at out.old out.new result }
{
    let mut end = at;
    for z in zs {
        end = put_integer(i32::from(*z), out, end);
    }
    end
}

// A letter and two numbers.
fn put_lead(letter: u8, a: u32, b: u32, out: &mut [u8], at: usize) -> usize
    requires { at + 23 ≤ length out.old }
    ensures { Wrote (letter ∷ spaced (pos a ∷ pos b ∷ [])) 23 at out.old out.new result }
{
    let first = put(letter, out, at);
    let second = put_natural(a, out, first);
    put_natural(b, out, second)
}

pub fn put_inverse(
    w: u32,
    h: u32,
    rails: u32,
    residuals: &[i32],
    out: &mut [u8],
    at: usize,
) -> usize
    requires { at + (35 + 12 * length residuals.now) ≤ length out.old }
    ensures { Wrote (inverse_text w h rails residuals.now) (35 + 12 * length residuals.now) at out.old out.new result }
{
    let lead = put_lead(b'I', w, h, out, at);
    let first = put_natural(rails, out, lead);
    let end = put_residuals(residuals, out, first);
    put(b'\n', out, end)
}

pub fn put_forward(w: u32, h: u32, coefficients: &[i16], out: &mut [u8], at: usize) -> usize
    requires { at + (24 + 12 * length coefficients.now) ≤ length out.old }
    ensures { Wrote (forward_text w h coefficients.now) (24 + 12 * length coefficients.now) at out.old out.new result }
{
    let lead = put_lead(b'F', w, h, out, at);
    let end = put_coefficients(coefficients, out, lead);
    put(b'\n', out, end)
}

pub fn put_refusal(number: u32, offset: u32, out: &mut [u8], at: usize) -> usize
    requires { at + 24 ≤ length out.old }
    ensures { Wrote (refusal_text number offset) 24 at out.old out.new result }
{
    let end = put_lead(b'R', number, offset, out, at);
    put(b'\n', out, end)
}
