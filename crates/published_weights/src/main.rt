// Compares the library's weights with published ones that are written out here, and prints for each source how many agree; then
// what document 004 measures of a matrix. docs/DECISIONS.md, "Published weights", says where each number came from.
#![tactic(auto)]

mod letters;
mod norms;
mod numbers;

ghost use Rattle.std.specs.Prelude.{◌≤◌, ◌<◌, length};

use file_input::left_out::LeftOut;
use numbers::agreeing;
use std::io;

fn report(out: &impl Print, source: &str, agreed: usize, of: usize) -> io::Result<()> {
    println!(out; "{source}: {agreed} of {of}")
}

fn compare(out: &impl Print, source: &str, kind: u32, n: u32, published: &[i32]) -> io::Result<()>
    requires { (0 < n) × (length published.now ≤ 1024) }
{
    let agreed = agreeing(kind, n, false, n, published);
    report(out, source, agreed, published.len())
}

// The first `columns` weights of each odd row of kind 0.
fn compare_odd(
    out: &impl Print,
    source: &str,
    n: u32,
    columns: u32,
    published: &[i32],
) -> io::Result<()>
    requires { (0 < columns) × (length published.now ≤ 1024) }
{
    let agreed = agreeing(0, n, true, columns, published);
    report(out, source, agreed, published.len())
}

fn document_01(out: &impl Print) -> io::Result<()> {
    compare(
        out,
        "document 01, first row of 4 points",
        1,
        4,
        &numbers::FIRST_4,
    )?;
    compare(
        out,
        "document 01, first row of 8 points",
        1,
        8,
        &numbers::FIRST_8,
    )?;
    compare(
        out,
        "document 01, first row of 16 points",
        1,
        16,
        &numbers::FIRST_16,
    )?;
    compare(
        out,
        "document 01, first row of 32 points",
        1,
        32,
        &numbers::FIRST_32,
    )?;
    compare(
        out,
        "document 01, item 3, DCT-VIII of 4 points",
        2,
        4,
        &numbers::ITEM_3,
    )
}

fn decoder_dst(out: &impl Print) -> io::Result<()> {
    compare(
        out,
        "FFmpeg 7.1.5, first row of DST-VII of 4 points",
        1,
        4,
        &numbers::FIRST_4,
    )?;
    compare(
        out,
        "FFmpeg 7.1.5, first row of DST-VII of 8 points",
        1,
        8,
        &numbers::FIRST_8,
    )?;
    compare(
        out,
        "FFmpeg 7.1.5, first row of DST-VII of 16 points",
        1,
        16,
        &numbers::FIRST_16,
    )?;
    compare(
        out,
        "FFmpeg 7.1.5, first row of DST-VII of 32 points",
        1,
        32,
        &numbers::DECODER_32,
    )
}

fn decoder_dct(out: &impl Print) -> io::Result<()> {
    compare(
        out,
        "FFmpeg 7.1.5, first row of DCT-VIII of 4 points",
        2,
        4,
        &numbers::DECODER_DCT_4,
    )?;
    compare(
        out,
        "FFmpeg 7.1.5, first row of DCT-VIII of 8 points",
        2,
        8,
        &numbers::DECODER_DCT_8,
    )?;
    compare(
        out,
        "FFmpeg 7.1.5, first row of DCT-VIII of 16 points",
        2,
        16,
        &numbers::DECODER_DCT_16,
    )?;
    compare(
        out,
        "FFmpeg 7.1.5, first row of DCT-VIII of 32 points",
        2,
        32,
        &numbers::DECODER_DCT_32,
    )
}

fn matrices(out: &impl Print) -> io::Result<()> {
    compare(
        out,
        "FFmpeg 7.1.5, DCT-II of 4 points",
        0,
        4,
        &numbers::DCT_4,
    )?;
    compare(
        out,
        "FFmpeg 7.1.5, DCT-II of 8 points",
        0,
        8,
        &numbers::DCT_8,
    )?;
    compare_odd(
        out,
        "FFmpeg 7.1.5, DCT-II of 16 points, first half of the odd rows",
        16,
        8,
        &numbers::DCT_16,
    )
}

fn odd_rows(out: &impl Print) -> io::Result<()> {
    compare_odd(
        out,
        "FFmpeg 7.1.5, DCT-II of 4 points, odd rows' first weights",
        4,
        1,
        &numbers::ODD_4,
    )?;
    compare_odd(
        out,
        "FFmpeg 7.1.5, DCT-II of 8 points, odd rows' first weights",
        8,
        1,
        &numbers::ODD_8,
    )?;
    compare_odd(
        out,
        "FFmpeg 7.1.5, DCT-II of 16 points, odd rows' first weights",
        16,
        1,
        &numbers::ODD_16,
    )?;
    compare_odd(
        out,
        "FFmpeg 7.1.5, DCT-II of 32 points, odd rows' first weights",
        32,
        1,
        &numbers::ODD_32,
    )
}

fn document_004(out: &impl Print) -> io::Result<()> {
    compare(
        out,
        "document 004, equation 8, first row of DST-VII of 16 points",
        1,
        16,
        &numbers::FIRST_16,
    )?;
    compare(
        out,
        "document 004, equation 9, first row of DCT-VIII of 16 points",
        2,
        16,
        &numbers::DECODER_DCT_16,
    )?;
    report(
        out,
        "document 004, table III, letters of nine rows of 16 points",
        letters::table_iii(),
        135,
    )
}

fn all(out: &impl Print) -> io::Result<()> {
    document_01(out)?;
    decoder_dst(out)?;
    decoder_dct(out)?;
    matrices(out)?;
    odd_rows(out)?;
    document_004(out)?;
    let source = "document 000, equation 1, letters of all rows of 16 points";
    report(out, source, letters::equation_1(), 256)?;
    norms::table_ii(out)
}

// What cannot be written is left out, and what comes behind it is tried.
fn main(rt: HostRuntime) {
    let _ = all(&LeftOut(&rt));
}
