// Edits on records that are full of wires: random jobs, narrow and crowded ones and large jobs of load trials are read, all wires laid at once, and the jobs edited under
// them. Now and then a few steps follow, of which an "all wired" shortens the wires that an edit has left longer than they have to be, and after sixteen edits or more
// all wires that fit are laid again.
use crate::calls::hold_step;
use crate::edits::{call_close, call_diagonal, call_extra, call_lay, call_mark, hold_answer};
use crate::expect::expect_step;
use crate::kept::Kept;
use compare::listed::{Page, routed};
use compare::said::{ADDED, Answer, DONE, is};
use compare::shortened::{Found, is_least};
use oracle::near::shortfall;
use oracle_length::least::least_length;
use oracle_text::job::{Array, Job, Mark};
use oracle_text::page::Page as Sheet;
use oracle_text::random::{Generator, below, random_job, random_laid, xorshift};
use oracle_text::text::write_text;
use oracle_text::trial::{Percents, trial_job};
use verdict::bytes::{Tally, line};
use verdict::record::{BEYOND, Record, count_wires, legal};

// Where no wire lacks, those of the record have the least length.
fn hold_least(
    rt: &impl Print,
    tally: &mut Tally,
    rec: &Record,
    job: &Job,
    missed: usize,
    page: &mut Page,
) {
    if missed == 0 {
        tally.hold(
            rt,
            is_least(rec, job, least_length(job), page),
            b"the route after edits has the least length",
        );
    }
}

// All wires that fit are laid beside those that stand: as many lack as by the oracle.
fn refill(rt: &impl Print, tally: &mut Tally, rec: &mut Record, job: &Job, page: &mut Page) {
    let mut near = [0u8; 32768];
    let mut mine = [0u8; 32768];
    let missed = shortfall(job, &mut near);
    tally.hold(rt, legal(rec), b"the record after edits is legal");
    tally.hold(
        rt,
        routed(rec, &mut mine) == missed,
        b"the route after edits lacks",
    );
    let n = std::num::wrapping_add_usize(count_wires(rec), missed);
    tally.hold(
        rt,
        n == job.count_marked(Mark::Chosen),
        b"the route after edits has its wires",
    );
    hold_least(rt, tally, rec, job, missed, page);
}

// One step; says whether it has to add a wire.
fn step(
    rt: &impl Print,
    tally: &mut Tally,
    found: &mut Found,
    rec: &mut Record,
    job: &Job,
    page: &mut Page,
    missed: usize,
) -> bool {
    let mut scratch = [0u8; 65536];
    let before = *rec;
    let answer = Answer::from(service::step(rec, &mut scratch));
    let expected = expect_step(job, 32800, 65536, count_wires(&before), missed);
    hold_answer(rt, tally, answer, expected, b"step answers after edits");
    hold_step(rt, tally, found, &before, rec, job, expected.kind, page);
    expected.kind == ADDED
}

// Steps until one adds no wire, at most eight.
fn step_out(
    rt: &impl Print,
    tally: &mut Tally,
    found: &mut Found,
    rec: &mut Record,
    job: &Job,
    page: &mut Page,
) {
    let mut near = [0u8; 32768];
    let missed = shortfall(job, &mut near);
    let mut turns: u64 = 8;
    while turns > 0 && step(rt, tally, found, rec, job, page, missed) {
        turns -= 1;
    }
}

// An edit at random; gives the generator's number afterwards.
fn edit(
    rt: &impl Print,
    tally: &mut Tally,
    kept: &mut Kept,
    rec: &mut Record,
    job: &mut Job,
    seed: u32,
) -> u32 {
    let x = xorshift(seed);
    match below(x, 16) {
        0..=3 => call_mark(rt, tally, kept, rec, job, x),
        4..=7 => call_close(rt, tally, kept, rec, job, x),
        8..=11 => call_diagonal(rt, tally, kept, rec, job, x),
        12 => call_extra(rt, tally, kept, rec, job, x),
        _ => call_lay(rt, tally, kept, rec, job, x),
    }
}

// It is the last of `often`.
fn is_turn(k: usize, often: usize) -> bool {
    if often == 0 {
        return false;
    }
    k % often == std::num::wrapping_sub_usize(often, 1)
}

// The k-th edit. Steps follow every `often`, and the wires that fit every 4 `often`.
fn draw(
    rt: &impl Print,
    tally: &mut Tally,
    found: &mut Found,
    kept: &mut Kept,
    rec: &mut Record,
    job: &mut Job,
    page: &mut Page,
    often: usize,
    seed: u32,
    k: usize,
) -> u32 {
    let wrong = tally.wrong();
    let next = edit(rt, tally, kept, rec, job, seed);
    if is_turn(k, often) {
        step_out(rt, tally, found, rec, job, page);
    }
    if is_turn(k / 4, often) && k % 4 == 3 {
        refill(rt, tally, rec, job, page);
    }
    if tally.wrong() != wrong {
        line(rt, b"in the edit of a full record", k as u64);
    }
    next
}

fn draw_all(
    rt: &impl Print,
    tally: &mut Tally,
    found: &mut Found,
    kept: &mut Kept,
    rec: &mut Record,
    job: &mut Job,
    page: &mut Page,
    often: usize,
    seed: u32,
    n: usize,
) -> u32 {
    let mut x = seed;
    for k in 0..n {
        x = draw(rt, tally, found, kept, rec, job, page, often, x, k);
    }
    x
}

// Reads the job, lays its wires and makes n edits, with steps every `often`; gives the generator's number afterwards.
fn edit_full(
    rt: &impl Print,
    tally: &mut Tally,
    found: &mut Found,
    kept: &mut Kept,
    job: &mut Job,
    often: usize,
    seed: u32,
    n: usize,
) -> u32 {
    let mut page = [0u8; 1048576];
    let mut sheet = Sheet::EMPTY;
    let mut rec = [BEYOND; 32800];
    write_text(job, &mut sheet);
    tally.hold(
        rt,
        is(
            Answer::from(service::read_text(&mut rec, sheet.text())),
            DONE,
            0,
        ),
        b"the full job is read",
    );
    refill(rt, tally, &mut rec, job, &mut page);
    draw_all(
        rt, tally, found, kept, &mut rec, job, &mut page, often, seed, n,
    )
}

fn array(rows: usize, columns: usize, side: usize, diagonal: usize, extra: usize) -> Array {
    Array {
        rows,
        columns,
        side,
        diagonal,
        extra,
    }
}

fn percents(chosen: usize, missing: usize, closed: usize) -> Percents {
    Percents {
        chosen,
        missing,
        closed,
    }
}

// Edits of a job whose sides take one wire each, so that many wires pass missing pins.
fn edit_narrow(
    rt: &impl Print,
    tally: &mut Tally,
    found: &mut Found,
    kept: &mut Kept,
    seed: u32,
) -> u32 {
    let mut job = trial_job(array(14, 14, 1, 2, 2), seed, percents(30, 60, 0));
    edit_full(rt, tally, found, kept, &mut job, 4, seed, 8)
}

// Edits of a random job of at most 14 rows and columns, on some of whose sides wires are already laid, and of a narrow one.
fn edit_random(
    rt: &impl Print,
    tally: &mut Tally,
    found: &mut Found,
    kept: &mut Kept,
    seed: u32,
) -> u32 {
    let mut job = Job::BLANK;
    let mut generator = Generator::new(seed);
    random_job(&mut generator, 14, &mut job);
    random_laid(&mut generator, 100, &mut job);
    let z = edit_full(rt, tally, found, kept, &mut job, 4, generator.last, 48);
    edit_narrow(rt, tally, found, kept, z)
}

fn random_jobs(rt: &impl Print, tally: &mut Tally, found: &mut Found, kept: &mut Kept) {
    let mut seed = 521288629;
    for k in 0..60usize {
        seed = edit_random(rt, tally, found, kept, seed);
    }
}

// Edits of a job of 12 by 12 pins with few exits, in which wires go round what edits open.
fn edit_crowded(
    rt: &impl Print,
    tally: &mut Tally,
    found: &mut Found,
    kept: &mut Kept,
    seed: u32,
) -> u32 {
    let mut job = trial_job(array(12, 12, 2, 3, 1), seed, percents(25, 10, 10));
    edit_full(rt, tally, found, kept, &mut job, 2, seed, 48)
}

fn crowded_jobs(rt: &impl Print, tally: &mut Tally, found: &mut Found, kept: &mut Kept) {
    let mut seed = 88675123;
    for k in 0..24usize {
        seed = edit_crowded(rt, tally, found, kept, seed);
    }
}

// Random, narrow and crowded jobs; and jobs of 40 by 40 pins: with wide channels, short, and with wires that pass many missing pins. `found` counts what an "all wired" finds.
pub fn full(rt: &impl Print, tally: &mut Tally, found: &mut Found, kept: &mut Kept) {
    random_jobs(rt, tally, found, kept);
    crowded_jobs(rt, tally, found, kept);
    let mut wide = trial_job(array(40, 40, 8, 12, 4), 1, percents(60, 10, 0));
    let a = edit_full(rt, tally, found, kept, &mut wide, 40, 1, 240);
    let mut short = trial_job(array(40, 40, 3, 5, 2), 1, percents(30, 5, 5));
    let b = edit_full(rt, tally, found, kept, &mut short, 40, a, 240);
    let mut holed = trial_job(array(40, 40, 2, 4, 4), 1, percents(20, 75, 0));
    edit_full(rt, tally, found, kept, &mut holed, 40, b, 480);
}
