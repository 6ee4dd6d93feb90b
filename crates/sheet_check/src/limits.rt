// The jobs and sheets that are turned away, byte by byte.
ghost use Rattle.std.specs.Prelude.{◌<◌};

use crate::tile::over;
use oracle_text::job::{Job, Mark, Side};
use verdict::bytes::wide;

// The byte of a plane of the sheet at row r, column c; 0 where there is none.
pub fn at(sheet: &[u8], plane: usize, r: usize, c: usize) -> usize
    ensures { result < 256 }
{
    if plane < 6 {
        if r < 40 {
            if c < 40 {
                let i = 1600 * plane + 40 * r + c;
                if i < sheet.len() {
                    return wide(sheet[i]);
                }
            }
        }
    }
    0
}

// The wires of a load byte that run the positive way.
pub fn forth(b: usize) -> usize
    ensures { result < 32 }
{
    if b < 32 { b } else { 0 }
}

// Those that run the other way.
pub fn back(b: usize) -> usize
    requires { b < 256 }
    ensures { result < 257 }
{
    over(b, 32)
}

// The job is one of which sheets are judged.
pub fn job_fits(job: &Job) -> bool {
    job.side() == 2 && job.count_marked(Mark::Missing) == 0
}

// One less; 40, which no tile has, for 0.
fn before(x: usize) -> usize {
    if x > 0 { x - 1 } else { 40 }
}

// How many wires may leave the tile by its side; none where it is not of the array.
fn leaving(job: &Job, r: usize, c: usize, side: Side) -> usize {
    if job.is_tile(r, c) {
        job.room(r, c, side)
    } else {
        0
    }
}

// A load byte of at most so many wires the positive way, and so many the other.
fn load_fits(b: usize, most: usize, other: usize) -> bool {
    b < 64 && b != 32 && forth(b) <= most && over(b, 32) <= other
}

// The leg of the pin that the plane has a mark of leads to a tile of the array.
fn leads_in(job: &Job, plane: usize, r: usize, c: usize) -> bool {
    match plane {
        2 => job.is_tile(before(r), c),
        3 => job.is_tile(r, c),
        4 => job.is_tile(r, before(c)),
        _ => job.is_tile(before(r), before(c)),
    }
}

// The byte may stand in the plane at row r, column c: a wire over a side starts in a tile of the array, and a mark at a chosen pin.
fn byte_fits(job: &Job, b: usize, plane: usize, r: usize, c: usize) -> bool {
    if plane == 0 {
        return load_fits(
            b,
            leaving(job, r, c, Side::North),
            leaving(job, before(r), c, Side::South),
        );
    }
    if plane == 1 {
        return load_fits(
            b,
            leaving(job, r, before(c), Side::East),
            leaving(job, r, c, Side::West),
        );
    }
    b == 0 || (b == 1 && is_chosen(job, r, c) && leads_in(job, plane, r, c))
}

fn is_chosen(job: &Job, r: usize, c: usize) -> bool {
    if r < 40 {
        if c < 40 {
            return job.mark(40 * r + c) == Mark::Chosen;
        }
    }
    false
}

// A chosen pin has one mark, or none on the rim.
fn pin_fits(job: &Job, sheet: &[u8], r: usize, c: usize) -> bool {
    let marks = at(sheet, 2, r, c) + at(sheet, 3, r, c) + at(sheet, 4, r, c) + at(sheet, 5, r, c);
    !is_chosen(job, r, c) || marks == 1 || (marks == 0 && job.is_rim(r, c))
}

// Every pin has the marks that it should.
fn pins_fit(job: &Job, sheet: &[u8]) -> bool {
    let mut p = 0;
    while p < 1600 {
        if !pin_fits(job, sheet, p / 40, p % 40) {
            return false;
        }
        p += 1;
    }
    true
}

// Every byte may stand where it stands.
fn bytes_fit(job: &Job, sheet: &[u8]) -> bool {
    let mut i = 0;
    while i < sheet.len() {
        let r = i % 1600 / 40;
        let c = i % 40;
        if !byte_fits(job, wide(sheet[i]), i / 1600, r, c) {
            return false;
        }
        i += 1;
    }
    true
}

// The sheet is one that is judged.
pub fn sheet_fits(job: &Job, sheet: &[u8]) -> bool {
    sheet.len() == 9600 && bytes_fit(job, sheet) && pins_fit(job, sheet)
}
