// The 16-point DST-VII matrix by the letters of documents 000 and 004: sign, letter, sign, letter, ..
ghost use Rattle.std.specs.Prelude.{◌≤◌, length};

use line::weight;

// Document 004, equation 8: the values of a to p.
const VALUES: [i16; 16] = [
    8, 17, 25, 33, 40, 48, 55, 62, 68, 73, 77, 81, 85, 87, 88, 88,
];

const COLUMNS: [u32; 16] = [0, 1, 2, 3, 4, 5, 6, 7, 8, 9, 10, 11, 12, 13, 14, 15];

// Document 004, equations 15: the columns of its sums.
const SUMS: [u32; 15] = [0, 9, 11, 1, 8, 12, 2, 7, 13, 3, 6, 14, 4, 5, 15];

// Document 000, equation 1, by its rows, with the letter o where its text has the figure 0 for it.
const EQUATION_1: [(u32, &str); 16] = [
    (0, " a b c d e f g h i j k l m n o p"),
    (1, " c f i l o o l i f c 0-c-f-i-l-o"),
    (2, " e j o m h c-b-g-l-p-k-f-a d i n"),
    (3, " g n l e-b-i-p-j-c d k o h a-f-m"),
    (4, " i o f-c-l-l-c f o i 0-i-o-f c l"),
    (5, " k k 0-k-k 0 k k 0-k-k 0 k k 0-k"),
    (6, " m g-f-n-a l h-e-o-b k i-d-p-c j"),
    (7, " o c-l-f i i-f-l c o 0-o-c l f-i"),
    (8, " p-a-o b n-c-m d l-e-k f j-g-i h"),
    (9, " n-e-i j d-o a m-f-h k c-p b l-g"),
    (10, " l-i-c o-f-f o-c-i l 0-l i c-o f"),
    (11, " j-m c g-p f d-n i a-k l-b-h o-e"),
    (12, " h-p i-a-g o-j b f-n k-c-e m-l d"),
    (13, " f-l o-i c c-i o-l f 0-f l-o i-c"),
    (14, " d-h l-p m-i e-a-c g-k o-n j-f b"),
    (15, " b-d f-h j-l n-p o-m k-i g-e c-a"),
];

// Document 004, table III: nine rows, five sums of two letters that are a third.
const TABLE_III: [(u32, &str); 9] = [
    (2, " e-p-f j-l-a o-g d m-b i h c n"),
    (3, " g d o n-c h l-j a e-p-f-b-i-m"),
    (6, " m-b i g-o-d-f-e-p-n h-c-a l j"),
    (8, " p-e f-a l j-o d-g b-m-i n-c h"),
    (9, " n-h c-e-f-p-i m b j a l d-o-g"),
    (11, " j a l-m i-b c-n-h g d o-p f-e"),
    (12, " h-n-c-p f-e i b m-a-j-l-g o d"),
    (14, " d g o-h-c-n l-a j-p e-f m-i b"),
    (15, " b-m-i-d o g f-p-e-h n c j-l-a"),
];

// The weight that a sign and a letter stand for, and 0 for the figure 0.
fn named(sign: u8, letter: u8) -> i32 {
    match letter {
        b'a'..=b'p' => {
            let w = i32::from(VALUES[usize::from(letter - b'a')]);
            if sign == b'-' { -w } else { w }
        }
        _ => 0,
    }
}

// How many letters of row i stand for the library's weights, where letter k is that of column columns[k].
fn agreeing(i: u32, columns: &[u32], text: &str) -> usize
    ensures { result ≤ length columns.now }
{
    let (letters, _) = text.as_bytes().as_chunks::<2>();
    columns
        .iter()
        .zip(letters)
        .filter(|(column, [sign, letter])| weight(1, 16, i, **column) == named(*sign, *letter))
        .count()
}

fn agreeing_rows(rows: &[(u32, &str)], columns: &[u32]) -> usize
    requires { (length rows.now ≤ 16) × (length columns.now ≤ 16) }
{
    let mut good = 0;
    for (i, text) in rows {
        good += agreeing(*i, columns, text);
    }
    good
}

pub fn equation_1() -> usize {
    agreeing_rows(&EQUATION_1, &COLUMNS)
}

pub fn table_iii() -> usize {
    agreeing_rows(&TABLE_III, &SUMS)
}
