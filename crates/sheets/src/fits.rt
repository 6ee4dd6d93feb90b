// Which jobs and sheets are turned away.
ghost use Rattle.std.specs.Prelude.{◌≡◌, not, ◌≤◌, ◌<◌, length};
ghost use Rattle.sums.specs.Counting.{when};
ghost use Rattle.sums.specs.Tests.{below};
ghost use Rattle.model.specs.Job.{is_missing};
ghost use Rattle.model.specs.Record.{job_of};
ghost use Rattle.model.specs.Sheet.{sheet_job, load_within, sides_within, none_inward, marks_within, is_marked, sheet_cell_fits, sheet_fits};

use crate::tile::byte;
use channel::limits::side_most;
use channel::{columns, is_chosen, is_missing, is_tile, orthogonal, rows};

// Whether no pin of the row is missing.
fn row_whole(rec: &[u8], r: usize) -> bool
    requires { 32768 ≤ length rec.now }
    ensures { result ≡ below 40 (λ c. not (is_missing (job_of rec.now) r c)) }
{
    (0..40).all(|c| !is_missing(rec, r, c))
}

// Whether O is 2 and no pin is missing.
pub fn job_fits(rec: &[u8]) -> bool
    requires { 32768 ≤ length rec.now }
    ensures { result ≡ sheet_job (job_of rec.now) }
{
    (orthogonal(rec) == 2) & (0..40).all(|r| row_whole(rec, r))
}

// Whether the byte is a load of at most so many wires.
fn load_within(b: usize, most: usize) -> bool
    requires { most < 32 }
    ensures { result ≡ load_within most b }
{
    (b <= most) | ((32 < b) & (b <= 32 + most))
}

// n where the test holds, else 0.
fn held(test: bool, n: usize) -> usize
    ensures { (result ≡ when test n) × (result ≤ n) }
{
    if test { n } else { 0 }
}

// Whether the loads of the cell's north side and west side are within their limits.
fn sides_within(rec: &[u8], sheet: &[u8], r: usize, c: usize) -> bool
    requires { (32768 ≤ length rec.now) × (length sheet.now ≡ 9600) × (r < 40) × (c < 40) × ((job_of rec.now).O ≡ 2) }
    ensures { result ≡ sides_within (job_of rec.now) sheet.now r c }
{
    let x = 41 + 40 * r + c;
    let h = rows(rec);
    let v = columns(rec);
    let north = held((r < h) & (c + 1 < v), side_most(rec, 0, x));
    let west = held((r + 1 < h) & (c < v), side_most(rec, 1, x));
    load_within(byte(sheet, 0, r, c), north) & load_within(byte(sheet, 1, r, c), west)
}

// Whether none of them comes from the outside: over the north side of the first row or what lies behind the last, over the west side of the first column or
// what lies behind the last.
fn none_inward(rec: &[u8], sheet: &[u8], r: usize, c: usize) -> bool
    requires { (32768 ≤ length rec.now) × (length sheet.now ≡ 9600) × (r < 40) × (c < 40) }
    ensures { result ≡ none_inward (job_of rec.now) sheet.now r c }
{
    let tile = is_tile(rec, r, c);
    let north = byte(sheet, 0, r, c);
    let west = byte(sheet, 1, r, c);
    let from_south = !tile & ((0 < north) & (north < 32));
    let from_north = (r == 0) & (32 < north);
    let from_west = (c == 0) & ((0 < west) & (west < 32));
    let from_east = !tile & (32 < west);
    !from_south & (!from_north & (!from_west & !from_east))
}

// Whether the marks of the pin are on legs that lead into the array, and none where it is not chosen.
fn marks_within(rec: &[u8], sheet: &[u8], r: usize, c: usize) -> bool
    requires { (32768 ≤ length rec.now) × (length sheet.now ≡ 9600) × (r < 40) × (c < 40) }
    ensures { result ≡ marks_within (job_of rec.now) sheet.now r c }
{
    let chosen = is_chosen(rec, r, c);
    let h = rows(rec);
    let v = columns(rec);
    let up = (0 < r) & (r < h);
    let down = r + 1 < h;
    let left = (0 < c) & (c < v);
    let right = c + 1 < v;
    let n = byte(sheet, 2, r, c) <= held(chosen & (up & right), 1);
    let e = byte(sheet, 3, r, c) <= held(chosen & (down & right), 1);
    let s = byte(sheet, 4, r, c) <= held(chosen & (down & left), 1);
    let w = byte(sheet, 5, r, c) <= held(chosen & (up & left), 1);
    n & (e & (s & w))
}

// Whether the pin, where it is chosen, has one mark, or none on the rim.
fn is_marked(rec: &[u8], sheet: &[u8], r: usize, c: usize) -> bool
    requires { (32768 ≤ length rec.now) × (length sheet.now ≡ 9600) × (r < 40) × (c < 40) }
    ensures { result ≡ is_marked (job_of rec.now) sheet.now r c }
{
    let rim = (r == 0) | ((r + 1 == rows(rec)) | ((c == 0) | (c + 1 == columns(rec))));
    let marks = byte(sheet, 2, r, c)
        + byte(sheet, 3, r, c)
        + byte(sheet, 4, r, c)
        + byte(sheet, 5, r, c);
    !is_chosen(rec, r, c) | ((marks == 1) | (rim & (marks == 0)))
}

// Whether the bytes of the cell are in order.
fn cell_fits(rec: &[u8], sheet: &[u8], r: usize, c: usize) -> bool
    requires { (32768 ≤ length rec.now) × (length sheet.now ≡ 9600) × (r < 40) × (c < 40) × ((job_of rec.now).O ≡ 2) }
    ensures { result ≡ sheet_cell_fits (job_of rec.now) sheet.now r c }
{
    let sides = sides_within(rec, sheet, r, c) & none_inward(rec, sheet, r, c);
    let marks = marks_within(rec, sheet, r, c) & is_marked(rec, sheet, r, c);
    sides & marks
}

// Whether those of the row are.
fn row_fits(rec: &[u8], sheet: &[u8], r: usize) -> bool
    requires { (32768 ≤ length rec.now) × (length sheet.now ≡ 9600) × (r < 40) × ((job_of rec.now).O ≡ 2) }
    ensures { result ≡ below 40 (sheet_cell_fits (job_of rec.now) sheet.now r) }
{
    (0..40).all(|c| cell_fits(rec, sheet, r, c))
}

// Whether the sheet is of the published length and all its bytes are in order.
pub fn fits(rec: &[u8], sheet: &[u8]) -> bool
    requires { (32768 ≤ length rec.now) × ((job_of rec.now).O ≡ 2) }
    ensures { result ≡ sheet_fits (job_of rec.now) sheet.now }
{
    if sheet.len() != 9600 {
        return false;
    }
    (0..40).all(|r| row_fits(rec, sheet, r))
}
