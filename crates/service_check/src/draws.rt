// Arguments at random: mostly such as fit, and some far out.
use oracle_text::job::Job;
use oracle_text::page::Page as Sheet;
use oracle_text::random::{below, xorshift};

// Numbers that fit nothing, and some that only just do.
fn wild(x: u32) -> usize {
    match below(x, 8) {
        0 => 18446744073709551615,
        1 => 18446744073709551614,
        2 => 9223372036854775808,
        3 => 4294967296,
        4 => 256,
        5 => 41,
        6 => 40,
        _ => 39,
    }
}

// A number of the `n` from `least` on, and now and then a wild one.
pub fn pick(x: u32, least: usize, n: usize) -> usize {
    if below(x, 16) == 0 {
        wild(x / 16)
    } else {
        std::num::wrapping_add_usize(least, below(x / 16, n))
    }
}

// A mark, most often chosen.
pub fn pick_mark(x: u32) -> usize {
    match below(x, 8) {
        0 | 1 => 0,
        2 | 3 | 4 => 1,
        5 | 6 => 2,
        _ => pick(x / 8, 0, 5),
    }
}

pub fn pick_state(x: u32) -> usize {
    if below(x, 4) == 0 {
        pick(x / 4, 0, 4)
    } else {
        below(x / 4, 2)
    }
}

// The length that is lent of a buffer: nothing, a byte less than `n`, `n`, a byte more, or all.
pub fn pick_length(x: u32, n: usize, most: usize) -> usize {
    match below(x, 16) {
        0 => 0,
        1 => std::num::wrapping_sub_usize(n, 1),
        2 => std::num::wrapping_add_usize(n, 1),
        3 | 4 | 5 => most,
        _ => n,
    }
}

// The length that is lent of a record, a row and a column, and the generator's number afterwards.
#[derive(Clone, Copy)]
pub struct Spot {
    pub n: usize,
    pub row: usize,
    pub column: usize,
    pub next: u32,
}

// A spot of the job, or of the row and the column behind its last ones.
pub fn pick_spot(seed: u32, job: &Job) -> Spot {
    let a = xorshift(seed);
    let b = xorshift(a);
    let c = xorshift(b);
    let n = pick_length(a, 32768, 32800);
    let row = pick(b, 0, job.rows() + 1);
    let column = pick(c, 0, job.columns() + 1);
    let next = xorshift(c);
    Spot {
        n,
        row,
        column,
        next,
    }
}

const LETTERS: [u8; 16] = *b" ()0123456789\nac";

// One of the bytes that texts are made of.
fn letter(x: u32) -> u8 {
    let k = below(x, 16);
    if k < 16 { LETTERS[k] } else { 0 }
}

// The text, cut, lengthened or changed in a byte, or left alone.
pub fn alter(sheet: &mut Sheet, x: u32) {
    let n = sheet.text().len();
    match below(x, 8) {
        0 => sheet.truncate(below(x / 8, n)),
        1 => sheet.push(letter(x / 8)),
        2 | 3 => sheet.put(below(x / 8, n), letter(x / 65536)),
        _ => {}
    }
}
