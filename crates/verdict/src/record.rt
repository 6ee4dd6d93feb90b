// Records in a buffer with a margin: the job that one holds, as the oracle's Job, its wires, and what a step has added to it.
ghost use Rattle.std.specs.Prelude.{◌<◌};

use crate::bytes::{Tally, all, rest, span};
use crate::legal::{is_direct, is_legal, is_wired};
use check::same;
use oracle_text::job::{Cell, Job};

// A record with 32 bytes more, which no operation touches.
pub type Record = [u8; 32800];

// What they hold.
pub const BEYOND: u8 = 165;

fn low(n: usize) -> u8 {
    (n % 256) as u8
}

// The first bytes of a record of the job.
fn numbers(job: &Job) -> [u8; 5] {
    [
        low(job.rows()),
        low(job.columns()),
        low(job.side()),
        low(job.diagonal()),
        low(job.extra()),
    ]
}

// The record holds this cell at `p`.
fn holds_cell(rec: &Record, cell: Cell, p: usize) -> bool {
    p < 1600
        && rec[768 + p] == cell.mark as u8
        && rec[2368 + p] == u8::from(cell.closed)
        && rec[27968 + p] == cell.eastward
        && rec[29568 + p] == cell.southward
        && rec[31168 + p] == cell.own
}

// The record holds the job, and the bytes that nothing uses are as they should be.
pub fn holds_job(rec: &Record, job: &Job) -> bool {
    same(span(rec, 0, 5), &numbers(job))
        && all(span(rec, 5, 763), 0)
        && (0..1600).all(|p| holds_cell(rec, job.cell(p), p))
        && all(rest(rec, 32768), BEYOND)
}

pub fn legal(rec: &Record) -> bool {
    is_legal(rec)
}

// The record holds the job without a wire.
pub fn holds_unwired(rec: &Record, job: &Job) -> bool {
    holds_job(rec, job) && all(span(rec, 3968, 24000), 0)
}

fn put_cell(rec: &mut Record, cell: Cell, p: usize) {
    if p < 1600 {
        rec[768 + p] = cell.mark as u8;
        rec[2368 + p] = u8::from(cell.closed);
        rec[27968 + p] = cell.eastward;
        rec[29568 + p] = cell.southward;
        rec[31168 + p] = cell.own;
    }
}

// The record becomes that of the job without a wire.
pub fn put_unwired(rec: &mut Record, job: &Job) {
    rec[..32768].fill(0);
    rec[..5].copy_from_slice(&numbers(job));
    for p in 0..1600 {
        put_cell(rec, job.cell(p), p);
    }
}

// How many pins have a wire.
pub fn count_wires(rec: &Record) -> usize
    ensures { result < 1601 }
{
    (0..1600).filter(|p| is_wired(rec, *p)).count()
}

// How many pins have a wire that leaves directly.
pub fn count_direct(rec: &Record) -> usize
    ensures { result < 1601 }
{
    (0..1600).filter(|p| is_direct(rec, *p)).count()
}

// Every pin that has a wire in the one record has one in the other.
fn stay_wired(before: &Record, rec: &Record) -> bool {
    (0..1600).all(|p| is_wired(rec, p) || !is_wired(before, p))
}

// The same pins have a wire in both records.
pub fn wired_alike(before: &Record, rec: &Record) -> bool {
    stay_wired(before, rec) && stay_wired(rec, before)
}

// A step has added a wire: the record is legal, one pin more has a wire, and those that had one have one.
pub fn hold_added(rt: &impl Print, tally: &mut Tally, before: &Record, rec: &Record, job: &Job) {
    tally.hold(rt, holds_job(rec, job), b"a step keeps the job");
    tally.hold(rt, legal(rec), b"a step leaves a legal record");
    let one_more = count_wires(rec) == count_wires(before) + 1;
    tally.hold(rt, one_more, b"a step adds one wire");
    tally.hold(rt, stay_wired(before, rec), b"a step keeps pins wired");
}
