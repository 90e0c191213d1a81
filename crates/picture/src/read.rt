// "read such a file back".
ghost use Rattle.std.specs.Prelude.{◌≡◌, List, ℤ};
ghost use Rattle.meaning.specs.Refusal.{refusal_number};
ghost use Rattle.picture.specs.Outcomes.{read_outcome};

use meaning::Refusal;
use picture_header::{header_of, is_picture};
use picture_samples::read::read_samples;

/// What reading hands back: the number of the refusal or 0, and the width and height of the header, 0 where it is none (24).
#[repr(C)]
#[derive(Clone, Copy)]
pub struct Picture {
    pub number: u32,
    pub width: u32,
    pub height: u32,
}

fn refused(refusal: Refusal, width: u32, height: u32) -> Picture
    ensures { result ≡ record { number = refusal_number refusal; width = width; height = height } }
{
    Picture {
        number: refusal.number(),
        width,
        height,
    }
}

/// Reads a picture into a block of residuals, row by row. Any bytes and lengths.
pub fn read(file: &[u8], residuals: &mut [i32]) -> Picture
    ensures { ◌≡◌ {A = Picture × List ℤ} (result, residuals.new) (read_outcome file.now residuals.old) }
{
    let found = header_of(file);
    let start = found.start;
    let header = found.header;
    if !is_picture(header) {
        return refused(Refusal::Header, 0, 0);
    }
    let width = header.width;
    let height = header.height;
    let count = width as usize * height as usize;
    if file.len() - start != 2 * count {
        return refused(Refusal::Samples, width, height);
    }
    if residuals.len() != count {
        return refused(Refusal::Output, width, height);
    }
    read_samples(&file[start..], residuals);
    Picture {
        number: 0,
        width,
        height,
    }
}
