// 4 by 4 blocks by value, and the same lent: both answers and both blocks of each call.
use crate::numbers::widened;
use crate::print::Spaced;
use meaning::Answer;
use std::io;

fn lines(even: i16, odd: i16) -> [[i16; 4]; 4] {
    [
        [even, odd, even, odd],
        [odd, even, odd, even],
        [even, odd, even, odd],
        [odd, odd, even, even],
    ]
}

// What a call was given and handed back.
fn outcome(
    out: &impl Print,
    lead: &str,
    given: [u32; 3],
    answer: Answer,
    block: [i32; 16],
) -> io::Result<()> {
    let [horizontal, vertical, depth] = given;
    let Answer {
        number,
        place,
        rails,
    } = answer;
    print!(out; "{lead} {horizontal} {vertical} {depth}")?;
    print!(out; " {number} {place} {rails}{}", Spaced(&block))
}

fn inverse(out: &impl Print, even: i16, odd: i16, given: [u32; 3]) -> io::Result<()> {
    let both = small_block::inverse_both(lines(even, odd), given[0], given[1], given[2]);
    outcome(
        out,
        "by value: inverse",
        given,
        both.by_value,
        both.by_value_block,
    )?;
    outcome(out, " lent", given, both.lent, both.lent_block)?;
    out.println("")
}

fn forward(out: &impl Print, even: i16, odd: i16, given: [u32; 3]) -> io::Result<()> {
    let both = small_block::forward_both(lines(even, odd), given[0], given[1], given[2]);
    outcome(
        out,
        "by value: forward",
        given,
        both.by_value,
        widened(both.by_value_block),
    )?;
    outcome(out, " lent", given, both.lent, widened(both.lent_block))?;
    out.println("")
}

fn each(out: &impl Print, given: [u32; 3]) -> io::Result<()> {
    inverse(out, 32767, -32768, given)?;
    inverse(out, -32768, -32768, given)?;
    inverse(out, 64, -3, given)?;
    forward(out, 255, -255, given)?;
    forward(out, 4095, -4095, given)?;
    forward(out, -256, 255, given)
}

fn pairs(out: &impl Print, depth: u32) -> io::Result<()> {
    for k in 0..9 {
        each(out, [k / 3, k % 3, depth])?;
    }
    Ok(())
}

// Every pair of kinds at two depths, and one refusal each of 3, 4 and 5: kinds, horizontal first, and depth.
pub fn all(out: &impl Print) -> io::Result<()> {
    pairs(out, 8)?;
    pairs(out, 12)?;
    each(out, [4, 3, 7])?;
    each(out, [1, 3, 7])?;
    each(out, [1, 2, 13])
}
