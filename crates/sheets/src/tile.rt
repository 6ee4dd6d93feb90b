// What a tile carries: the table of 1,296 entries, and the test of a tile by the bytes of a sheet. An amount that enters a place is written 2 more than it is: 0 to 5
// for −2 to 3.
ghost use Rattle.std.specs.Prelude.{◌≡◌, ◌≢◌, not, ◌||◌, ◌+◌, ◌≤◌, ◌<◌, length};
ghost use Rattle.model.specs.Job.{is_tile};
ghost use Rattle.model.specs.Record.{job_of, forth_part, back_part};
ghost use Rattle.model.specs.Sheet.{Entry, sheet_cell};
ghost use Rattle.sheets.specs.Passage.{least_d};
ghost use Rattle.sheets.specs.Tiles.{by_out, by_in, open_test, shut_test, tile_test, Ready};

use crate::table::LEAST;
use channel::header::wide;
use channel::limits::centre_most;
use channel::{is_open, is_tile};

// The least D of 2, 3, 4 that carries the amounts entering n, e, s and w, else 5.
pub fn entry(n: usize, e: usize, s: usize, w: usize) -> u8
    requires { (n < 6) × (e < 6) × (s < 6) × (w < 6) }
    ensures value { result ≡ least_d n e s w }
    ensures exact { Entry n e s w result }
{
    LEAST[n * 216 + e * 36 + s * 6 + w]
}

// The byte of a plane of the sheet at a cell.
pub fn byte(sheet: &[u8], p: usize, r: usize, c: usize) -> usize
    requires { (length sheet.now ≡ 9600) × (p < 6) × (r < 40) × (c < 40) }
    ensures { (result ≡ sheet_cell sheet.now p r c) × (result < 256) }
{
    wide(sheet[1600 * p + 40 * r + c])
}

// The amount that enters by a side whose positive way leads out of the tile, and by a mark.
fn by_out(b: usize, m: usize) -> usize
    requires { (b < 64) × (b ≢ 32) × (forth_part b + back_part b ≤ 2) × (m ≤ 1) }
    ensures { (result ≡ by_out b m) × (result < 6) }
{
    if b < 32 { 2 + m - b } else { m + b - 30 }
}

// The amount that enters by a side whose positive way leads into it, and by a mark.
fn by_in(b: usize, m: usize) -> usize
    requires { (b < 64) × (b ≢ 32) × (forth_part b + back_part b ≤ 2) × (m ≤ 1) }
    ensures { (result ≡ by_in b m) × (result < 6) }
{
    if b < 32 { 2 + m + b } else { 34 + m - b }
}

// Whether the D of the tile (r, c), where it is open, carries what the sheet brings.
fn open_carries(rec: &[u8], sheet: &[u8], r: usize, c: usize) -> bool
    requires in_bounds { (32768 ≤ length rec.now) × (length sheet.now ≡ 9600) × (r < 39) × (c < 39) }
    requires ready { Ready (job_of rec.now) sheet.now }
    ensures { result ≡ open_test (job_of rec.now) sheet.now r c }
{
    let n = by_out(byte(sheet, 0, r, c), byte(sheet, 3, r, c));
    let e = by_out(byte(sheet, 1, r, c + 1), byte(sheet, 4, r, c + 1));
    let s = by_in(byte(sheet, 0, r + 1, c), byte(sheet, 5, r + 1, c + 1));
    let w = by_in(byte(sheet, 1, r, c), byte(sheet, 2, r + 1, c));
    let least = wide(entry(n, e, s, w));
    least <= 2 + centre_most(rec, 41 + 40 * r + c)
}

// Whether the sheet has nothing on the sides of the tile (r, c) and on the legs that lead into it.
fn is_bare(sheet: &[u8], r: usize, c: usize) -> bool
    requires { (length sheet.now ≡ 9600) × (r < 39) × (c < 39) }
    ensures { result ≡ shut_test sheet.now r c }
{
    let n = byte(sheet, 0, r, c) + byte(sheet, 3, r, c);
    let e = byte(sheet, 1, r, c + 1) + byte(sheet, 4, r, c + 1);
    let s = byte(sheet, 0, r + 1, c) + byte(sheet, 5, r + 1, c + 1);
    let w = byte(sheet, 1, r, c) + byte(sheet, 2, r + 1, c);
    n + e + s + w == 0
}

// Whether (r, c) is no tile, or one that carries what the sheet brings.
pub fn passes(rec: &[u8], sheet: &[u8], r: usize, c: usize) -> bool
    requires { (32768 ≤ length rec.now) × Ready (job_of rec.now) sheet.now }
    ensures { result ≡ (not (is_tile (job_of rec.now) r c) || tile_test (job_of rec.now) sheet.now r c) }
{
    if !is_tile(rec, r, c) {
        return true;
    }
    if is_open(rec, r, c) {
        return open_carries(rec, sheet, r, c);
    }
    is_bare(sheet, r, c)
}
