// What a step leaves that says "all wired": the least length of the job, by the second implementation, and no byte changed where the record had it before.
use crate::listed::{Page, listed, shown};
use crate::said::{ALL_WIRED, Answer, is};
use check::same;
use judge::listing::check_listing;
use oracle_text::job::Job;
use verdict::bytes::{Tally, line};
use verdict::record::{Record, holds_job, legal, wired_alike};

// How often an "all wired" found the least length, and how often a greater one.
pub type Found = [u64; 2];

pub fn tell_found(rt: &impl Print, found: &Found) {
    line(rt, b"all wired that find the least length", found[0]);
    line(rt, b"all wired that find a greater length", found[1]);
}

// The length of the record's wires, by its listing; none where they are not legal, or not of every chosen pin.
pub fn length_of(rec: &[u8], job: &Job, page: &mut Page) -> Option<usize> {
    let n = listed(rec, page);
    check_listing(job, shown(page, n)).ok()
}

fn step(rec: &mut Record, scratch: &mut [u8; 65536]) -> Answer {
    Answer::from(service::step(rec, scratch))
}

fn is_same(a: &Record, b: &Record) -> bool {
    same(a, b)
}

// A step more says "all wired" and changes no byte.
fn hold_again(rt: &impl Print, tally: &mut Tally, rec: &Record) {
    let mut scratch = [7u8; 65536];
    let mut copy = *rec;
    let answer = step(&mut copy, &mut scratch);
    tally.hold(rt, is(answer, ALL_WIRED, 0), b"all wired again");
    tally.hold(rt, is_same(&copy, rec), b"all wired again moves nothing");
}

fn note(found: &mut Found, greater: bool) {
    if greater {
        found[1] = std::num::wrapping_add_u64(found[1], 1);
    } else {
        found[0] = std::num::wrapping_add_u64(found[0], 1);
    }
}

// The wires are longer than the least. A listing that is not legal counts as longer than any, and where there is no least length no wires are longer.
fn is_longer(was: Option<usize>, least: Option<usize>) -> bool {
    match (was, least) {
        (None, _) => true,
        (Some(_), None) => false,
        (Some(length), Some(fewest)) => length > fewest,
    }
}

// The wires of the record are listed legally, and have the least length.
pub fn is_least(rec: &[u8], job: &Job, least: Option<usize>, page: &mut Page) -> bool {
    let length = length_of(rec, job, page);
    length.is_some() && length == least
}

// The record had wires of the length `was`, and the least is this: they move only where that is less.
fn hold_still(
    rt: &impl Print,
    tally: &mut Tally,
    before: &Record,
    rec: &Record,
    was: Option<usize>,
    least: Option<usize>,
) {
    if was.is_some() && was == least {
        tally.hold(
            rt,
            same(before, rec),
            b"all wired at the least length moves nothing",
        );
    } else {
        tally.hold(
            rt,
            is_longer(was, least),
            b"no wires are below the least length",
        );
    }
}

// The record after a step that says "all wired", of a job with this least length.
pub fn hold_shortened(
    rt: &impl Print,
    tally: &mut Tally,
    found: &mut Found,
    before: &Record,
    rec: &Record,
    job: &Job,
    least: Option<usize>,
    page: &mut Page,
) {
    let was = length_of(before, job, page);
    tally.hold(rt, holds_job(rec, job), b"all wired keeps the job");
    tally.hold(rt, legal(rec), b"all wired leaves a legal record");
    tally.hold(rt, wired_alike(before, rec), b"all wired keeps pins wired");
    tally.hold(rt, was.is_some(), b"the wires before all wired");
    tally.hold(
        rt,
        is_least(rec, job, least, page),
        b"all wired leaves the least length",
    );
    hold_still(rt, tally, before, rec, was, least);
    hold_again(rt, tally, rec);
    note(found, is_longer(was, least));
}
