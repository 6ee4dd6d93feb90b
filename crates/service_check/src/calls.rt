// Random calls on one record, of all kinds, on buffers of all lengths. The job of the list is kept beside it in the oracle's terms, and says what each
// call has to answer; a call that is refused, or has nothing to change, leaves every byte as it is.
use crate::draws::{pick, pick_length, pick_spot};
use crate::edits::{
    call_close, call_diagonal, call_extra, call_lay, call_mark, call_new, call_read, call_trial,
    hold_answer, hold_same, make_old,
};
use crate::expect::{cell, expect_part, expect_shortfall, expect_step, expect_write};
use crate::kept::Kept;
use crate::lookup::put_expected;
use check::same;
use compare::lent::{list_on, new_on, shortfall_on, step_on, write_on};
use compare::listed::{Page, listed, only_wired, shown};
use compare::said::{ADDED, ALL_WIRED, Answer, DONE, LACKS, LISTS, REFUSED, Said, put_listed};
use compare::shortened::{Found, hold_shortened};
use judge::listing::check_listing;
use oracle::near::shortfall;
use oracle_length::least::least_length;
use oracle_text::job::{Array, Job};
use oracle_text::page::Page as Sheet;
use oracle_text::random::{below, xorshift};
use oracle_text::text::write_text;
use verdict::bytes::{Tally, all, begins, first, line, split_at};
use verdict::record::{BEYOND, Record, count_direct, count_wires, hold_added};

// The scratch is cleared by a call that is accepted, and else as it was.
fn hold_scratch(rt: &impl Print, tally: &mut Tally, scratch: &[u8; 65600], kind: usize) {
    let zeros = if kind == REFUSED { 0 } else { 65536 };
    tally.hold(rt, split_at(scratch, zeros, 0, 201), b"the scratch");
}

// The record after a step that answers so.
pub fn hold_step(
    rt: &impl Print,
    tally: &mut Tally,
    found: &mut Found,
    before: &Record,
    rec: &Record,
    job: &Job,
    kind: usize,
    page: &mut Page,
) {
    match kind {
        ADDED => hold_added(rt, tally, before, rec, job),
        ALL_WIRED => {
            hold_shortened(rt, tally, found, before, rec, job, least_length(job), page);
        }
        _ => hold_same(rt, tally, before, rec),
    }
}

fn call_step(
    rt: &impl Print,
    tally: &mut Tally,
    found: &mut Found,
    rec: &mut Record,
    job: &Job,
    page: &mut Page,
    seed: u32,
) -> u32 {
    let a = xorshift(seed);
    let b = xorshift(a);
    let n = pick_length(a, 32768, 32800);
    let m = pick_length(b, 65536, 65600);
    let mut scratch = [201u8; 65600];
    let mut near = [0u8; 32768];
    let missed = shortfall(job, &mut near);
    let before = *rec;
    let answer = step_on(rec, n, &mut scratch, m);
    let expected = expect_step(job, n, m, count_wires(&before), missed);
    hold_answer(rt, tally, answer, expected, b"step answers");
    hold_scratch(rt, tally, &scratch, expected.kind);
    hold_step(rt, tally, found, &before, rec, job, expected.kind, page);
    b
}

// The output has the near side where something is lacking, and is else as it was.
fn hold_near(
    rt: &impl Print,
    tally: &mut Tally,
    output: &[u8; 66000],
    near: &[u8; 32768],
    said: Said,
) {
    if said.kind == LACKS && said.number != 0 {
        tally.hold(rt, begins(output, near, 90), b"the near side");
    } else {
        tally.hold(rt, all(output, 90), b"the output is untouched");
    }
}

fn call_shortfall(rt: &impl Print, tally: &mut Tally, rec: &Record, job: &Job, seed: u32) -> u32 {
    let a = xorshift(seed);
    let b = xorshift(a);
    let c = xorshift(b);
    let n = pick_length(a, 32768, 32800);
    let m = pick_length(b, 65536, 65600);
    let l = pick_length(c, 32768, 66000);
    let mut scratch = [201u8; 65600];
    let mut output = [90u8; 66000];
    let mut near = [0u8; 32768];
    let missed = shortfall(job, &mut near);
    let answer = shortfall_on(first(rec, n), &mut scratch, m, &mut output, l);
    let expected = expect_shortfall(n, m, l, missed);
    hold_answer(rt, tally, answer, expected, b"shortfall answers");
    hold_scratch(rt, tally, &scratch, expected.kind);
    hold_near(rt, tally, &output, &near, expected);
    c
}

// The part that Part answers with is the one of the listing.
fn hold_part(
    rt: &impl Print,
    tally: &mut Tally,
    rec: &Record,
    page: &mut Page,
    answer: Answer,
    p: usize,
    index: usize,
) {
    let mut mine = Sheet::EMPTY;
    let mut wanted = Sheet::EMPTY;
    let n = listed(rec, page);
    put_listed(&mut mine, answer);
    put_expected(&mut wanted, rec, shown(page, n), p, index);
    tally.hold(rt, same(mine.text(), wanted.text()), b"the part");
}

fn call_part(
    rt: &impl Print,
    tally: &mut Tally,
    rec: &Record,
    job: &Job,
    page: &mut Page,
    seed: u32,
) -> u32 {
    let at = pick_spot(seed, job);
    let index = pick(at.next, 0, 9);
    let answer = Answer::from(service::part(first(rec, at.n), at.row, at.column, index));
    let expected = expect_part(job, at.n, at.row, at.column);
    hold_answer(rt, tally, answer, expected, b"part answers");
    if expected.kind == LISTS {
        hold_part(rt, tally, rec, page, answer, cell(at.row, at.column), index);
    }
    at.next
}

// The output has the text, and is untouched where the call is refused.
fn hold_text(rt: &impl Print, tally: &mut Tally, output: &[u8; 66000], text: &[u8], refused: bool) {
    if refused {
        tally.hold(rt, all(output, 90), b"the output is untouched");
    } else {
        tally.hold(rt, begins(output, text, 90), b"the text");
    }
}

fn call_write(rt: &impl Print, tally: &mut Tally, rec: &Record, job: &Job, seed: u32) -> u32 {
    let a = xorshift(seed);
    let b = xorshift(a);
    let mut sheet = Sheet::EMPTY;
    let mut output = [90u8; 66000];
    write_text(job, &mut sheet);
    let length = sheet.text().len();
    let n = pick_length(a, 32768, 32800);
    let m = pick_length(b, length, 66000);
    let answer = write_on(first(rec, n), &mut output, m);
    let expected = expect_write(n, m, length);
    hold_answer(rt, tally, answer, expected, b"write text answers");
    hold_text(rt, tally, &output, sheet.text(), expected.kind == REFUSED);
    b
}

// The listing of the wires, into an output of any length. `listed` gives the whole, which has to be legal.
fn call_listing(
    rt: &impl Print,
    tally: &mut Tally,
    rec: &Record,
    job: &Job,
    page: &mut Page,
    seed: u32,
) -> u32 {
    let a = xorshift(seed);
    let b = xorshift(a);
    let mut output = [90u8; 66000];
    let length = listed(rec, page);
    let checked = check_listing(&only_wired(rec, job), shown(page, length));
    tally.hold(rt, checked.is_ok(), b"the listing is legal");
    let n = pick_length(a, 32768, 32800);
    let m = pick_length(b, length, 66000);
    let answer = list_on(first(rec, n), &mut output, m);
    let expected = expect_write(n, m, length);
    hold_answer(rt, tally, answer, expected, b"listing answers");
    hold_text(
        rt,
        tally,
        &output,
        shown(page, length),
        expected.kind == REFUSED,
    );
    b
}

// A call of this kind.
fn call(
    rt: &impl Print,
    tally: &mut Tally,
    found: &mut Found,
    kept: &mut Kept,
    rec: &mut Record,
    job: &mut Job,
    page: &mut Page,
    seed: u32,
    kind: usize,
) -> u32 {
    match kind {
        0 => call_new(rt, tally, rec, job, seed),
        1 => call_read(rt, tally, rec, job, seed),
        2 => call_mark(rt, tally, kept, rec, job, seed),
        3 => call_close(rt, tally, kept, rec, job, seed),
        4 => call_step(rt, tally, found, rec, job, page, seed),
        5 => call_shortfall(rt, tally, rec, job, seed),
        6 => call_part(rt, tally, rec, job, page, seed),
        7 => call_write(rt, tally, rec, job, seed),
        9 => call_lay(rt, tally, kept, rec, job, seed),
        10 => call_trial(rt, tally, rec, job, seed),
        11 => call_diagonal(rt, tally, kept, rec, job, seed),
        12 => call_extra(rt, tally, kept, rec, job, seed),
        13 => make_old(rec, job, seed),
        _ => call_listing(rt, tally, rec, job, page, seed),
    }
}

// A kind at random: mostly a new job.
fn making(n: usize) -> usize {
    match n {
        0..=3 => 0,
        4..=17 => 1,
        18 | 19 => 13,
        20 | 21 => 2,
        22 => 11,
        23 => 3,
        24 => 9,
        25 => 10,
        26 => 4,
        27 => 5,
        28 => 6,
        29 | 30 => 7,
        _ => 8,
    }
}

// A kind at random: mostly an edit.
fn editing(n: usize) -> usize {
    match n {
        0..=7 => 2,
        8..=12 => 3,
        13..=17 => 9,
        18..=21 => 11,
        22 | 23 => 12,
        24..=26 => 4,
        27 => 5,
        28 | 29 => 6,
        30 => 7,
        _ => 8,
    }
}

// A kind at random: mostly no edit.
fn asking(n: usize) -> usize {
    match n {
        0 => 2,
        1 => 3,
        2 => 9,
        3..=17 => 4,
        18..=21 => 5,
        22..=27 => 6,
        28 | 29 => 7,
        _ => 8,
    }
}

// The kind of the k-th call. Of 128 calls the first make jobs, then wires are laid, and then the job is edited under them, with steps in between.
fn kind_of(x: u32, k: usize) -> usize {
    let n = below(x, 32);
    match k % 128 {
        0..=5 => making(n),
        6..=39 => asking(n),
        40..=111 => editing(n),
        _ => asking(n),
    }
}

// Counts the call: whether some wire of the record leaves its pin directly afterwards, or none.
fn note(direct: &mut [u64; 2], rec: &Record) {
    if count_direct(rec) > 0 {
        direct[0] = std::num::wrapping_add_u64(direct[0], 1);
    } else {
        direct[1] = std::num::wrapping_add_u64(direct[1], 1);
    }
}

// The k-th call; gives the generator's number afterwards.
fn draw(
    rt: &impl Print,
    tally: &mut Tally,
    found: &mut Found,
    direct: &mut [u64; 2],
    kept: &mut Kept,
    rec: &mut Record,
    job: &mut Job,
    page: &mut Page,
    seed: u32,
    k: usize,
) -> u32 {
    let x = xorshift(seed);
    let wrong = tally.wrong();
    let next = call(rt, tally, found, kept, rec, job, page, x, kind_of(x, k));
    if tally.wrong() != wrong {
        line(rt, b"in the random call", k as u64);
    }
    note(direct, rec);
    next
}

fn draw_all(
    rt: &impl Print,
    tally: &mut Tally,
    found: &mut Found,
    direct: &mut [u64; 2],
    kept: &mut Kept,
    rec: &mut Record,
    job: &mut Job,
    page: &mut Page,
) {
    let mut seed = 88675123;
    for k in 0..6000 {
        seed = draw(rt, tally, found, direct, kept, rec, job, page, seed, k);
    }
}

// A list of calls that starts with an accepted New. `direct` counts them: those after which some wire leaves its pin directly, and the others; `kept` the wires
// that edits leave and take out; `found` what an "all wired" finds.
pub fn calls(
    rt: &impl Print,
    tally: &mut Tally,
    found: &mut Found,
    direct: &mut [u64; 2],
    kept: &mut Kept,
) {
    let mut page = [0u8; 1048576];
    let mut rec = [BEYOND; 32800];
    let mut job = Job::new(Array {
        rows: 4,
        columns: 5,
        side: 2,
        diagonal: 3,
        extra: 1,
    });
    let answer = new_on(&mut rec, 32800, 4, 5, 2, 3, 1);
    tally.hold(rt, compare::said::is(answer, DONE, 0), b"the first new");
    draw_all(
        rt, tally, found, direct, kept, &mut rec, &mut job, &mut page,
    );
}
