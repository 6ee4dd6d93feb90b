// The calls that make or edit a job: each is held to what it has to answer, and the record to the job afterwards.
use crate::draws::{alter, pick, pick_length, pick_mark, pick_spot, pick_state};
use crate::expect::{
    cell, cut, expect_close, expect_diagonal, expect_extra, expect_lay, expect_mark, expect_new,
    expect_read, expect_trial, is_closed_at, mark_at,
};
use crate::kept::{Kept, closing, giving, hold_kept, laying, lowering, marking};
use check::same;
use compare::lent::{close_on, diagonal_on, extra_on, lay_on, mark_on, new_on, read_on};
use compare::said::{Answer, DONE, Said, agree, coded};
use model::Capacities;
use oracle_text::job::{Array, Job, Mark, Side};
use oracle_text::page::Page as Sheet;
use oracle_text::random::{Generator, random_job, xorshift};
use oracle_text::text::{read_text, write_text};
use oracle_text::trial::{Percents, fill};
use service::Draws;
use verdict::bytes::Tally;
use verdict::record::{Record, holds_unwired, put_unwired};

pub fn hold_answer(
    rt: &impl Print,
    tally: &mut Tally,
    answer: Answer,
    expected: Said,
    what: &[u8],
) {
    tally.hold(rt, agree(coded(answer), expected), what);
}

// The bytes of the record are as they were.
pub fn hold_same(rt: &impl Print, tally: &mut Tally, before: &Record, rec: &Record) {
    tally.hold(rt, same(before, rec), b"a call that changes nothing");
}

// The job is a new one, with no wire, where the call is accepted.
fn hold_anew(
    rt: &impl Print,
    tally: &mut Tally,
    before: &Record,
    rec: &Record,
    job: &mut Job,
    other: &Job,
    accepted: bool,
) {
    if accepted {
        *job = *other;
        tally.hold(rt, holds_unwired(rec, job), b"a new job");
    } else {
        hold_same(rt, tally, before, rec);
    }
}

pub fn call_new(
    rt: &impl Print,
    tally: &mut Tally,
    rec: &mut Record,
    job: &mut Job,
    seed: u32,
) -> u32 {
    let a = xorshift(seed);
    let b = xorshift(a);
    let c = xorshift(b);
    let d = xorshift(c);
    let e = xorshift(d);
    let f = xorshift(e);
    let n = pick_length(a, 32768, 32800);
    let rows = pick(b, 2, 7);
    let columns = pick(c, 2, 7);
    let side = pick(d, 1, 4);
    let diagonal = pick(e, side, 4);
    let extra = pick(f, 0, 8);
    let before = *rec;
    let answer = new_on(rec, n, rows, columns, side, diagonal, extra);
    let array = Array {
        rows,
        columns,
        side,
        diagonal,
        extra,
    };
    let expected = expect_new(n, array);
    let other = Job::new(array);
    hold_answer(rt, tally, answer, expected, b"new answers");
    hold_anew(rt, tally, &before, rec, job, &other, expected.kind == DONE);
    f
}

pub fn call_read(
    rt: &impl Print,
    tally: &mut Tally,
    rec: &mut Record,
    job: &mut Job,
    seed: u32,
) -> u32 {
    let mut sheet = Sheet::EMPTY;
    let mut other = Job::BLANK;
    let mut generator = Generator::new(seed);
    random_job(&mut generator, 10, &mut other);
    let x = generator.last;
    let y = xorshift(x);
    write_text(&other, &mut sheet);
    alter(&mut sheet, x);
    let read = read_text(sheet.text(), &mut other);
    let n = pick_length(y, 32768, 32800);
    let before = *rec;
    let answer = read_on(rec, n, sheet.text());
    let expected = expect_read(n, read);
    hold_answer(rt, tally, answer, expected, b"read text answers");
    hold_anew(rt, tally, &before, rec, job, &other, expected.kind == DONE);
    y
}

pub fn call_mark(
    rt: &impl Print,
    tally: &mut Tally,
    kept: &mut Kept,
    rec: &mut Record,
    job: &mut Job,
    seed: u32,
) -> u32 {
    let at = pick_spot(seed, job);
    let value = pick_mark(at.next);
    let before = *rec;
    let answer = mark_on(rec, at.n, at.row, at.column, value);
    let expected = expect_mark(job, at.n, at.row, at.column, value);
    hold_answer(rt, tally, answer, expected, b"mark answers");
    let old = mark_at(job, at.row, at.column);
    match Mark::from_code(value) {
        Some(new) if expected.kind == DONE && old != new => {
            job.set_mark(cell(at.row, at.column), new);
            hold_kept(
                rt,
                tally,
                kept,
                &before,
                rec,
                job,
                marking(at.row, at.column, old, new),
            );
        }
        _ => hold_same(rt, tally, &before, rec),
    }
    at.next
}

pub fn call_close(
    rt: &impl Print,
    tally: &mut Tally,
    kept: &mut Kept,
    rec: &mut Record,
    job: &mut Job,
    seed: u32,
) -> u32 {
    let at = pick_spot(seed, job);
    let value = pick_state(at.next);
    let before = *rec;
    let answer = close_on(rec, at.n, at.row, at.column, value);
    let expected = expect_close(job, at.n, at.row, at.column, value);
    hold_answer(rt, tally, answer, expected, b"close answers");
    let closed = value == 1;
    if expected.kind == DONE && is_closed_at(job, at.row, at.column) != closed {
        job.set_closed(cell(at.row, at.column), closed);
        hold_kept(
            rt,
            tally,
            kept,
            &before,
            rec,
            job,
            closing(at.row, at.column, value),
        );
    } else {
        hold_same(rt, tally, &before, rec);
    }
    at.next
}

// The wires already laid on a side of a tile.
pub fn call_lay(
    rt: &impl Print,
    tally: &mut Tally,
    kept: &mut Kept,
    rec: &mut Record,
    job: &mut Job,
    seed: u32,
) -> u32 {
    let at = pick_spot(seed, job);
    let x = xorshift(at.next);
    let side = pick(x, 0, 4);
    let count = pick(xorshift(x), 0, job.side() + 2);
    let before = *rec;
    let answer = lay_on(rec, at.n, at.row, at.column, side, count);
    let expected = expect_lay(job, at.n, at.row, at.column, side, count);
    hold_answer(rt, tally, answer, expected, b"lay answers");
    let laid = Side::from_code(side).map(|side| (side, job.laid(at.row, at.column, side)));
    match laid {
        Some((side, old)) if expected.kind == DONE && old != count => {
            job.set_laid(at.row, at.column, side, count);
            hold_kept(
                rt,
                tally,
                kept,
                &before,
                rec,
                job,
                laying(job, at.row, at.column, side, old, count),
            );
        }
        _ => hold_same(rt, tally, &before, rec),
    }
    x
}

// The D of a tile: mostly from O to twice O.
pub fn call_diagonal(
    rt: &impl Print,
    tally: &mut Tally,
    kept: &mut Kept,
    rec: &mut Record,
    job: &mut Job,
    seed: u32,
) -> u32 {
    let at = pick_spot(seed, job);
    let x = xorshift(at.next);
    let o = job.side();
    let d = pick(x, o, o + 2);
    let before = *rec;
    let answer = diagonal_on(rec, at.n, at.row, at.column, d);
    let expected = expect_diagonal(job, at.n, at.row, at.column, d);
    hold_answer(rt, tally, answer, expected, b"diagonal answers");
    let p = cell(at.row, at.column);
    if expected.kind == DONE && job.figure(p) != d {
        let own = if d == job.diagonal() { None } else { Some(d) };
        job.set_own(p, own);
        hold_kept(
            rt,
            tally,
            kept,
            &before,
            rec,
            job,
            giving(at.row, at.column, own.unwrap_or(0)),
        );
    } else {
        hold_same(rt, tally, &before, rec);
    }
    x
}

// A lower E: now and then the same, or a greater one.
pub fn call_extra(
    rt: &impl Print,
    tally: &mut Tally,
    kept: &mut Kept,
    rec: &mut Record,
    job: &mut Job,
    seed: u32,
) -> u32 {
    let a = xorshift(seed);
    let b = xorshift(a);
    let old = job.extra();
    let n = pick_length(a, 32768, 32800);
    let e = pick(b, 0, old + 2);
    let before = *rec;
    let answer = extra_on(rec, n, e);
    let expected = expect_extra(job, n, e);
    hold_answer(rt, tally, answer, expected, b"extra answers");
    if expected.kind == DONE && e != old {
        job.set_extra(e);
        hold_kept(rt, tally, kept, &before, rec, job, lowering(e));
    } else {
        hold_same(rt, tally, &before, rec);
    }
    b
}

// A record as it was given while an E above D was accepted: its job without wires. No call makes one any more.
pub fn make_old(rec: &mut Record, job: &mut Job, seed: u32) -> u32 {
    let mut generator = Generator::new(seed);
    random_job(&mut generator, 8, job);
    job.set_extra(16);
    job.set_diagonal(job.side());
    put_unwired(rec, job);
    generator.last
}

// The percentages that are lent: such as fit, and now and then others.
fn pick_percents(x: u32) -> Percents {
    let a = xorshift(x);
    let b = xorshift(a);
    Percents {
        chosen: pick(x, 0, 80),
        missing: pick(a, 0, 30),
        closed: pick(b, 0, 102),
    }
}

pub fn call_trial(
    rt: &impl Print,
    tally: &mut Tally,
    rec: &mut Record,
    job: &mut Job,
    seed: u32,
) -> u32 {
    let a = xorshift(seed);
    let b = xorshift(a);
    let c = xorshift(b);
    let rows = pick(seed, 2, 7);
    let columns = pick(a, 2, 7);
    let side = pick(b, 1, 4);
    let number = pick(c, 1, 4294967295);
    let p = pick_percents(xorshift(c));
    let before = *rec;
    let capacities = Capacities {
        orthogonal: side,
        diagonal: side,
        extra: 1,
    };
    let draws = Draws {
        seed: number,
        chosen: p.chosen,
        missing: p.missing,
        closed: p.closed,
    };
    let answer = Answer::from(service::trial(
        rec,
        model::Array { rows, columns },
        capacities,
        draws,
    ));
    let array = Array {
        rows,
        columns,
        side,
        diagonal: side,
        extra: 1,
    };
    let expected = expect_trial(array, number, p);
    let mut other = Job::new(array);
    fill(&mut other, cut(number), p);
    hold_answer(rt, tally, answer, expected, b"trial answers");
    hold_anew(rt, tally, &before, rec, job, &other, expected.kind == DONE);
    xorshift(c)
}
