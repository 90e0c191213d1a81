// "each sample being the residual plus 32768, high byte first".
ghost use Rattle.std.specs.Prelude.{◌≡◌, false, [], ◌∷◌, ◌+◌, ◌*◌, ◌≤◌, ◌<◌, length};
ghost use Rattle.meaning.specs.Plan.{short_range};
ghost use Rattle.meaning.specs.Long.{beyond};
ghost use Rattle.file_text.specs.Wrote.{Wrote};
ghost use Rattle.picture_samples.specs.Samples.{any_beyond, sample_of, samples};

use file_text::text::put;

fn is_beyond(z: i32) -> bool
    ensures { result ≡ beyond short_range z }
{
    z < -32768 || z > 32767
}

pub fn any_beyond(residuals: &[i32]) -> bool
    ensures { result ≡ any_beyond residuals.now }
{
    residuals.iter().any(|&z| is_beyond(z))
}

// "the residual plus 32768".
fn sample_of(z: i32) -> u32
    requires { beyond short_range z ≡ false }
    ensures { (result ≡ sample_of z) × (result < 65536) }
{
    (z + 32768) as u32
}

// "high byte first".
fn put_sample(z: i32, file: &mut [u8], at: usize) -> usize
    requires { (beyond short_range z ≡ false) × (at + 2 ≤ length file.old) }
    ensures { Wrote (samples (z ∷ [])) 2 at file.old file.new result }
{
    let sample = sample_of(z);
    let next = put((sample / 256) as u8, file, at);
    put((sample % 256) as u8, file, next)
}

pub fn put_samples(residuals: &[i32], file: &mut [u8], at: usize) -> usize
    requires { (any_beyond residuals.now ≡ false) × (at + 2 * length residuals.now ≤ length file.old) }
    ensures { Wrote (samples residuals.now) (2 * length residuals.now) at file.old file.new result }
{
    let mut p = at;
    for &z in residuals {
        p = put_sample(z, file, p);
    }
    p
}
