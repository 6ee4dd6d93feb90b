// What document 01 has the operations answer, of a job that the oracle keeps and buffers of these lengths. The record itself is legal.
ghost use Rattle.std.specs.Prelude.{◌<◌};

use compare::said::{
    ADDED, ALL_WIRED, DONE, LACKS, LISTS, REFUSED, SHORT, Said, WRONG_TEXT, WROTE, say,
};
use oracle_text::job::{Array, Job, Mark};
use oracle_text::text::Refused;
use oracle_text::trial::Percents;

fn in_range(x: usize, least: usize, most: usize) -> bool {
    x >= least && x <= most
}

fn caps_fit(o: usize, d: usize, e: usize) -> bool {
    if o >= 1 {
        if o <= 8 {
            return in_range(d, o, 2 * o) && e <= d;
        }
    }
    false
}

pub fn expect_new(n: usize, array: Array) -> Said {
    if n < 32768 {
        return say(REFUSED, 1);
    }
    if !in_range(array.rows, 2, 40) || !in_range(array.columns, 2, 40) {
        return say(REFUSED, 2);
    }
    if !caps_fit(array.side, array.diagonal, array.extra) {
        return say(REFUSED, 3);
    }
    say(DONE, 0)
}

// Of a text on which the oracle's reading ends so.
pub fn expect_read(n: usize, read: Result<(), Refused>) -> Said {
    if n < 32768 {
        return say(REFUSED, 1);
    }
    match read {
        Ok(()) => say(DONE, 0),
        Err(refused) => say(WRONG_TEXT, refused.at),
    }
}

pub fn expect_mark(job: &Job, n: usize, row: usize, column: usize, value: usize) -> Said {
    if n < 32768 {
        return say(REFUSED, 1);
    }
    if !job.is_pin(row, column) {
        return say(REFUSED, 4);
    }
    if value > 2 {
        return say(REFUSED, 5);
    }
    say(DONE, 0)
}

pub fn expect_close(job: &Job, n: usize, row: usize, column: usize, value: usize) -> Said {
    if n < 32768 {
        return say(REFUSED, 1);
    }
    if !job.is_tile(row, column) {
        return say(REFUSED, 4);
    }
    if value > 1 {
        return say(REFUSED, 5);
    }
    say(DONE, 0)
}

pub fn expect_diagonal(job: &Job, n: usize, row: usize, column: usize, d: usize) -> Said {
    if n < 32768 {
        return say(REFUSED, 1);
    }
    if !job.is_tile(row, column) {
        return say(REFUSED, 4);
    }
    if d != job.diagonal() && !job.may_own(d) {
        return say(REFUSED, 3);
    }
    say(DONE, 0)
}

pub fn expect_extra(job: &Job, n: usize, e: usize) -> Said {
    if n < 32768 {
        return say(REFUSED, 1);
    }
    if e > job.extra() {
        return say(REFUSED, 3);
    }
    say(DONE, 0)
}

pub fn expect_lay(
    job: &Job,
    n: usize,
    row: usize,
    column: usize,
    side: usize,
    count: usize,
) -> Said {
    if n < 32768 {
        return say(REFUSED, 1);
    }
    if !job.is_tile(row, column) {
        return say(REFUSED, 4);
    }
    if side > 3 {
        return say(REFUSED, 5);
    }
    if count > job.side() {
        return say(REFUSED, 11);
    }
    say(DONE, 0)
}

// The cell 40 r + c; 1,600, which is none, where one of the two is too large.
pub fn cell(row: usize, column: usize) -> usize
    ensures { result < 1601 }
{
    if row < 40 {
        if column < 40 {
            return 40 * row + column;
        }
    }
    1600
}

pub fn mark_at(job: &Job, row: usize, column: usize) -> Mark {
    job.mark(cell(row, column))
}

pub fn is_closed_at(job: &Job, row: usize, column: usize) -> bool {
    job.is_closed(cell(row, column))
}

// Of a record with this many wires, of a job that lacks this many.
pub fn expect_step(job: &Job, n: usize, m: usize, wires: usize, missed: usize) -> Said {
    if n < 32768 {
        return say(REFUSED, 1);
    }
    if m < 65536 {
        return say(REFUSED, 8);
    }
    if std::num::wrapping_add_usize(wires, missed) < job.count_marked(Mark::Chosen) {
        return say(ADDED, 0);
    }
    if missed == 0 {
        return say(ALL_WIRED, 0);
    }
    say(SHORT, 0)
}

pub fn expect_shortfall(n: usize, m: usize, l: usize, missed: usize) -> Said {
    if n < 32768 {
        return say(REFUSED, 1);
    }
    if m < 65536 {
        return say(REFUSED, 8);
    }
    if l < 32768 {
        return say(REFUSED, 7);
    }
    say(LACKS, missed)
}

pub fn expect_part(job: &Job, n: usize, row: usize, column: usize) -> Said {
    if n < 32768 {
        return say(REFUSED, 1);
    }
    if !job.is_pin(row, column) || mark_at(job, row, column) != Mark::Chosen {
        return say(REFUSED, 4);
    }
    say(LISTS, 0)
}

// Of a text of this length.
pub fn expect_write(n: usize, m: usize, length: usize) -> Said {
    if n < 32768 {
        return say(REFUSED, 1);
    }
    if m < length {
        return say(REFUSED, 7);
    }
    say(WROTE, length)
}

// The number, where it has 32 bits.
pub fn cut(number: usize) -> u32 {
    if number < 4294967296 {
        number as u32
    } else {
        0
    }
}

// Of a trial with D the same as O and an E that fits, on a record that is long enough.
pub fn expect_trial(array: Array, number: usize, p: Percents) -> Said {
    let anew = expect_new(32768, array);
    if anew.kind == REFUSED {
        return anew;
    }
    if cut(number) == 0 {
        return say(REFUSED, 12);
    }
    if p.chosen > 100 || p.missing > 100 || p.closed > 100 {
        return say(REFUSED, 13);
    }
    if p.missing > 100 - p.chosen {
        return say(REFUSED, 13);
    }
    say(DONE, 0)
}
