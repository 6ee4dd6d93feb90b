// The second implementation's verdict of a sheet, and the operation's, each as a number.
ghost use Rattle.std.specs.Prelude.{◌<◌};

use crate::limits::{at, back, forth, job_fits, sheet_fits};
use crate::tile::{least_passage, over};
use answers::Verdict;
use oracle_text::job::Job;

// A verdict: the number of the first failing tile, 40 r + c; or that it is carried; or the number of the refusal behind REFUSED.
pub const CARRIED: usize = 1600;

pub const REFUSED: usize = 2000;

// What enters a place, 2 more than it is: the wires that come by the side and by a mark, less those that go by the side.
fn entering(come: usize, go: usize, mark: usize) -> usize
    requires { (come < 257) × (mark < 256) }
    ensures { result < 600 }
{
    over(2 + come + mark, go)
}

// The least that the centre of the tile passes.
fn passed(sheet: &[u8], r: usize, c: usize) -> usize
    requires { (r < 40) × (c < 40) }
    ensures { result < 10000 }
{
    let below = r + 1;
    let beside = c + 1;
    let north = at(sheet, 0, r, c);
    let east = at(sheet, 1, r, beside);
    let south = at(sheet, 0, below, c);
    let west = at(sheet, 1, r, c);
    let n = entering(back(north), forth(north), at(sheet, 3, r, c));
    let e = entering(back(east), forth(east), at(sheet, 4, r, beside));
    let s = entering(forth(south), back(south), at(sheet, 5, below, beside));
    let w = entering(forth(west), back(west), at(sheet, 2, below, c));
    least_passage(n, e, s, w)
}

// The sheet has nothing on the sides of the tile and on the legs that lead into it.
fn is_bare(sheet: &[u8], r: usize, c: usize) -> bool
    requires { (r < 40) × (c < 40) }
{
    let sides = at(sheet, 0, r, c) == 0
        && at(sheet, 0, r + 1, c) == 0
        && at(sheet, 1, r, c) == 0
        && at(sheet, 1, r, c + 1) == 0;
    let legs = at(sheet, 3, r, c) == 0
        && at(sheet, 4, r, c + 1) == 0
        && at(sheet, 5, r + 1, c + 1) == 0
        && at(sheet, 2, r + 1, c) == 0;
    sides && legs
}

// The tile carries what the sheet brings. An open one does if its centre passes it, D − 2 at most.
fn carries(job: &Job, sheet: &[u8], r: usize, c: usize) -> bool {
    if r < 40 {
        if c < 40 {
            if job.is_open(r, c) {
                return passed(sheet, r, c) + 2 <= job.figure(40 * r + c);
            }
            return is_bare(sheet, r, c);
        }
    }
    true
}

// The first failing tile, or that there is none.
fn first_failing(job: &Job, sheet: &[u8]) -> usize {
    let mut p = 0;
    while p < 1600 {
        if job.is_tile(p / 40, p % 40) && !carries(job, sheet, p / 40, p % 40) {
            return p;
        }
        p += 1;
    }
    CARRIED
}

// The verdict of the second implementation on a sound record of the job.
pub fn judged(job: &Job, sheet: &[u8]) -> usize {
    if !job_fits(job) {
        return REFUSED + 14;
    }
    if !sheet_fits(job, sheet) {
        return REFUSED + 15;
    }
    first_failing(job, sheet)
}

// The operation's.
pub fn said(rec: &[u8], sheet: &[u8]) -> usize {
    match sheets::sheet(rec, sheet) {
        Ok(Verdict::Carried) => CARRIED,
        Ok(Verdict::Fails { row, column }) => {
            if row < 40 {
                if column < 40 {
                    return 40 * row + column;
                }
            }
            9999
        }
        Err(refusal) => std::num::wrapping_add_usize(REFUSED, refusal.number()),
    }
}
