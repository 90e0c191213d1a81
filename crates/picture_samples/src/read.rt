// Samples read back.
ghost use Rattle.std.specs.Prelude.{◌≡◌, ◌+◌, ◌*◌, length};
ghost use Rattle.picture_samples.specs.Samples.{residual_of, residuals};

fn residual(high: u8, low: u8) -> i32
    ensures { result ≡ residual_of (high * 256 + low) }
{
    let sample = (high as u32) * 256 + low as u32;
    sample as i32 - 32768
}

// Fills `out` with the residuals of the samples.
pub fn read_samples(samples: &[u8], out: &mut [i32])
    requires { length samples.now ≡ 2 * length out.old }
    ensures { out.new ≡ residuals samples.now }
{
    for i in 0..out.len() {
        out[i] = residual(samples[2 * i], samples[2 * i + 1]);
    }
}
