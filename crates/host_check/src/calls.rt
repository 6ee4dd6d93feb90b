// Random calls on two equal records: each is made once as an operation and once as the exported function, with equal buffers. The word has to say what the
// operation answers, and the buffers have to be equal afterwards.
use crate::words::{Counts, count, says};
use check::same;
use compare::lent::list_on;
use compare::said::{Answer, lacks, wrote};
use model::{Array, Capacities};
use oracle_text::job::Job;
use oracle_text::page::Page as Sheet;
use oracle_text::random::{Generator, below, random_job, xorshift};
use oracle_text::text::write_text;
use service::Draws;
use talusdish::exports::{
    talusdish_close, talusdish_diagonal, talusdish_extra, talusdish_lay, talusdish_listing,
    talusdish_mark, talusdish_new, talusdish_part, talusdish_read_text, talusdish_shortfall,
    talusdish_step, talusdish_trial, talusdish_write_text,
};
use verdict::bytes::{Tally, line};
use verdict::record::{BEYOND, Record};

// A number of the `n` from `least` on, and now and then one that fits nothing; its last 32 bits may fit.
fn pick(x: u32, least: usize, n: usize) -> usize {
    match below(x, 24) {
        0 => 18446744073709551615,
        1 => 4294967298,
        2 => 41,
        _ => std::num::wrapping_add_usize(least, below(x / 32, n)),
    }
}

fn call_new(
    rt: &impl Print,
    tally: &mut Tally,
    rec: &mut [u8],
    twin: &mut [u8],
    seed: u32,
) -> Answer {
    let a = xorshift(seed);
    let b = xorshift(a);
    let c = xorshift(b);
    let d = xorshift(c);
    let rows = pick(seed, 2, 7);
    let columns = pick(a, 2, 7);
    let side = pick(b, 1, 4);
    let diagonal = pick(c, side, 4);
    let extra = pick(d, 0, 8);
    let array = Array { rows, columns };
    let capacities = Capacities {
        orthogonal: side,
        diagonal,
        extra,
    };
    let answer = Answer::from(service::new(rec, array, capacities));
    let word = talusdish_new(
        twin,
        rows as u64,
        columns as u64,
        side as u64,
        diagonal as u64,
        extra as u64,
    );
    tally.hold(rt, says(word, answer), b"the word of new");
    answer
}

// A text at random, now and then cut.
fn call_read(
    rt: &impl Print,
    tally: &mut Tally,
    rec: &mut [u8],
    twin: &mut [u8],
    seed: u32,
) -> Answer {
    let mut sheet = Sheet::EMPTY;
    let mut job = Job::BLANK;
    let mut generator = Generator::new(seed);
    random_job(&mut generator, 10, &mut job);
    write_text(&job, &mut sheet);
    if below(generator.last, 4) == 0 {
        sheet.truncate(below(generator.last / 4, sheet.text().len()));
    }
    let answer = Answer::from(service::read_text(rec, sheet.text()));
    let word = talusdish_read_text(twin, sheet.text());
    tally.hold(rt, says(word, answer), b"the word of read text");
    answer
}

fn call_mark(
    rt: &impl Print,
    tally: &mut Tally,
    rec: &mut [u8],
    twin: &mut [u8],
    seed: u32,
) -> Answer {
    let a = xorshift(seed);
    let b = xorshift(a);
    let row = pick(seed, 0, 7);
    let column = pick(a, 0, 7);
    let mark = pick(b, 0, 4);
    let answer = Answer::from(service::mark(rec, row, column, mark));
    let word = talusdish_mark(twin, row as u64, column as u64, mark as u64);
    tally.hold(rt, says(word, answer), b"the word of mark");
    answer
}

fn call_close(
    rt: &impl Print,
    tally: &mut Tally,
    rec: &mut [u8],
    twin: &mut [u8],
    seed: u32,
) -> Answer {
    let a = xorshift(seed);
    let b = xorshift(a);
    let row = pick(seed, 0, 7);
    let column = pick(a, 0, 7);
    let state = pick(b, 0, 3);
    let answer = Answer::from(service::close(rec, row, column, state));
    let word = talusdish_close(twin, row as u64, column as u64, state as u64);
    tally.hold(rt, says(word, answer), b"the word of close");
    answer
}

fn call_lay(
    rt: &impl Print,
    tally: &mut Tally,
    rec: &mut [u8],
    twin: &mut [u8],
    seed: u32,
) -> Answer {
    let a = xorshift(seed);
    let b = xorshift(a);
    let row = pick(seed, 0, 7);
    let column = pick(a, 0, 7);
    let side = pick(b, 0, 5);
    let count = pick(xorshift(b), 0, 4);
    let answer = Answer::from(service::lay(rec, row, column, side, count));
    let word = talusdish_lay(twin, row as u64, column as u64, side as u64, count as u64);
    tally.hold(rt, says(word, answer), b"the word of lay");
    answer
}

fn call_diagonal(
    rt: &impl Print,
    tally: &mut Tally,
    rec: &mut [u8],
    twin: &mut [u8],
    seed: u32,
) -> Answer {
    let a = xorshift(seed);
    let b = xorshift(a);
    let row = pick(seed, 0, 7);
    let column = pick(a, 0, 7);
    let d = pick(b, 0, 9);
    let answer = Answer::from(service::diagonal(rec, row, column, d));
    let word = talusdish_diagonal(twin, row as u64, column as u64, d as u64);
    tally.hold(rt, says(word, answer), b"the word of diagonal");
    answer
}

fn step_both(
    rt: &impl Print,
    tally: &mut Tally,
    rec: &mut [u8],
    twin: &mut [u8],
    scratch: &mut [u8],
    other: &mut [u8],
) -> Answer {
    let answer = Answer::from(service::step(rec, scratch));
    let word = talusdish_step(twin, other);
    tally.hold(rt, says(word, answer), b"the word of step");
    tally.hold(rt, same(scratch, other), b"the scratch of step");
    answer
}

// Now and then the scratch is a byte too short.
fn call_step(
    rt: &impl Print,
    tally: &mut Tally,
    rec: &mut [u8],
    twin: &mut [u8],
    seed: u32,
) -> Answer {
    if below(seed, 16) == 0 {
        let mut scratch = [201u8; 65535];
        let mut other = [201u8; 65535];
        return step_both(rt, tally, rec, twin, &mut scratch, &mut other);
    }
    let mut scratch = [201u8; 65600];
    let mut other = [201u8; 65600];
    step_both(rt, tally, rec, twin, &mut scratch, &mut other)
}

fn shortfall_both(
    rt: &impl Print,
    tally: &mut Tally,
    rec: &[u8],
    twin: &[u8],
    scratch: &mut [u8],
    other: &mut [u8],
    output: &mut [u8],
    target: &mut [u8],
) -> Answer {
    let answer = lacks(service::shortfall(rec, scratch, output));
    let word = talusdish_shortfall(twin, other, target);
    tally.hold(rt, says(word, answer), b"the word of shortfall");
    tally.hold(rt, same(scratch, other), b"the scratch of shortfall");
    tally.hold(rt, same(output, target), b"the output of shortfall");
    answer
}

// Now and then the scratch is a byte too short, or the output.
fn call_shortfall(
    rt: &impl Print,
    tally: &mut Tally,
    rec: &[u8],
    twin: &[u8],
    seed: u32,
) -> Answer {
    let mut scratch = [201u8; 65600];
    let mut other = [201u8; 65600];
    let mut output = [90u8; 32800];
    let mut target = [90u8; 32800];
    let mut short = [90u8; 32767];
    let mut brief = [90u8; 32767];
    match below(seed, 8) {
        0 => shortfall_both(
            rt,
            tally,
            rec,
            twin,
            &mut short,
            &mut brief,
            &mut output,
            &mut target,
        ),
        1 => shortfall_both(
            rt,
            tally,
            rec,
            twin,
            &mut scratch,
            &mut other,
            &mut short,
            &mut brief,
        ),
        _ => shortfall_both(
            rt,
            tally,
            rec,
            twin,
            &mut scratch,
            &mut other,
            &mut output,
            &mut target,
        ),
    }
}

fn call_part(rt: &impl Print, tally: &mut Tally, rec: &[u8], twin: &[u8], seed: u32) -> Answer {
    let a = xorshift(seed);
    let b = xorshift(a);
    let row = pick(seed, 0, 9);
    let column = pick(a, 0, 9);
    let index = pick(b, 0, 8);
    let answer = Answer::from(service::part(rec, row, column, index));
    let word = talusdish_part(twin, row as u64, column as u64, index as u64);
    tally.hold(rt, says(word, answer), b"the word of part");
    answer
}

fn write_both(
    rt: &impl Print,
    tally: &mut Tally,
    rec: &[u8],
    twin: &[u8],
    output: &mut [u8],
    target: &mut [u8],
) -> Answer {
    let answer = wrote(service::write_text(rec, output));
    let word = talusdish_write_text(twin, target);
    tally.hold(rt, says(word, answer), b"the word of write text");
    tally.hold(rt, same(output, target), b"the output of write text");
    answer
}

// Now and then the output is shorter than most texts.
fn call_write(rt: &impl Print, tally: &mut Tally, rec: &[u8], twin: &[u8], seed: u32) -> Answer {
    if below(seed, 4) == 0 {
        let mut output = [90u8; 100];
        let mut target = [90u8; 100];
        return write_both(rt, tally, rec, twin, &mut output, &mut target);
    }
    let mut output = [90u8; 50000];
    let mut target = [90u8; 50000];
    write_both(rt, tally, rec, twin, &mut output, &mut target)
}

// The exported function on the first `m` bytes of the output.
fn listing_on(rec: &[u8], output: &mut [u8], m: usize) -> u64 {
    if m <= output.len() {
        return talusdish_listing(rec, &mut output[..m]);
    }
    0
}

// The length of the listing; 0 where there is none.
fn listing_length(rec: &[u8]) -> usize {
    let mut whole = [0u8; 50000];
    service::list_wires(rec, &mut whole).unwrap_or(0)
}

// The output is empty, as long as the listing, a byte shorter, a byte longer, or all.
fn call_listing(rt: &impl Print, tally: &mut Tally, rec: &[u8], twin: &[u8], seed: u32) -> Answer {
    let mut output = [90u8; 50000];
    let mut target = [90u8; 50000];
    let n = listing_length(rec);
    let m = match below(seed, 8) {
        0 => 0,
        1 => std::num::wrapping_sub_usize(n, 1),
        2 => std::num::wrapping_add_usize(n, 1),
        3 => 50000,
        _ => n,
    };
    let answer = list_on(rec, &mut output, m);
    let word = listing_on(twin, &mut target, m);
    tally.hold(rt, says(word, answer), b"the word of listing");
    tally.hold(rt, same(&output, &target), b"the output of listing");
    answer
}

fn call_trial(
    rt: &impl Print,
    tally: &mut Tally,
    rec: &mut [u8],
    twin: &mut [u8],
    seed: u32,
) -> Answer {
    let a = xorshift(seed);
    let rows = pick(seed, 2, 7);
    let columns = pick(a, 2, 7);
    let number = pick(xorshift(a), 0, 100000);
    let chosen = pick(a / 2, 0, 80);
    let closed = pick(a / 4, 0, 102);
    let array = Array { rows, columns };
    let capacities = Capacities {
        orthogonal: 2,
        diagonal: 3,
        extra: 1,
    };
    let draws = Draws {
        seed: number,
        chosen,
        missing: 30,
        closed,
    };
    let answer = Answer::from(service::trial(rec, array, capacities, draws));
    let word = talusdish_trial(
        twin,
        rows as u64,
        columns as u64,
        2,
        3,
        1,
        number as u64,
        chosen as u64,
        30,
        closed as u64,
    );
    tally.hold(rt, says(word, answer), b"the word of trial");
    answer
}

// A call of this kind.
fn call_extra(
    rt: &impl Print,
    tally: &mut Tally,
    rec: &mut [u8],
    twin: &mut [u8],
    seed: u32,
) -> Answer {
    let e = pick(seed, 0, 4);
    let answer = Answer::from(service::extra(rec, e));
    let word = talusdish_extra(twin, e as u64);
    tally.hold(rt, says(word, answer), b"the word of extra");
    answer
}

fn call(
    rt: &impl Print,
    tally: &mut Tally,
    rec: &mut [u8],
    twin: &mut [u8],
    seed: u32,
    kind: usize,
) -> Answer {
    match kind {
        0 => call_new(rt, tally, rec, twin, seed),
        1 => call_read(rt, tally, rec, twin, seed),
        2 => call_mark(rt, tally, rec, twin, seed),
        3 => call_close(rt, tally, rec, twin, seed),
        4 => call_step(rt, tally, rec, twin, seed),
        5 => call_shortfall(rt, tally, rec, twin, seed),
        6 => call_part(rt, tally, rec, twin, seed),
        7 => call_write(rt, tally, rec, twin, seed),
        9 => call_lay(rt, tally, rec, twin, seed),
        10 => call_trial(rt, tally, rec, twin, seed),
        11 => call_diagonal(rt, tally, rec, twin, seed),
        12 => call_extra(rt, tally, rec, twin, seed),
        _ => call_listing(rt, tally, rec, twin, seed),
    }
}

// The call, and the records are equal afterwards.
fn call_both(
    rt: &impl Print,
    tally: &mut Tally,
    rec: &mut [u8],
    twin: &mut [u8],
    seed: u32,
    kind: usize,
) -> Answer {
    let answer = call(rt, tally, rec, twin, seed, kind);
    tally.hold(rt, same(rec, twin), b"the record");
    answer
}

// The call on the two records; now and then on two that are a byte too short, or damaged.
fn call_on(
    rt: &impl Print,
    tally: &mut Tally,
    rec: &mut Record,
    twin: &mut Record,
    seed: u32,
    kind: usize,
    x: usize,
) -> Answer {
    if x == 0 {
        let mut one = [7u8; 32767];
        let mut two = [7u8; 32767];
        return call_both(rt, tally, &mut one, &mut two, seed, kind);
    }
    if x == 1 {
        let mut one = [7u8; 32768];
        let mut two = [7u8; 32768];
        return call_both(rt, tally, &mut one, &mut two, seed, kind);
    }
    call_both(rt, tally, rec, twin, seed, kind)
}

// A kind at random: a new job, or an edit of it.
fn making(n: usize) -> usize {
    match n {
        0..=7 => 0,
        8..=11 => 1,
        12..=19 => 2,
        20..=25 => 3,
        26..=28 => 9,
        29 | 30 => 11,
        _ => 12,
    }
}

// A kind at random: no new job, and no edit.
fn asking(n: usize) -> usize {
    match n {
        0..=14 => 4,
        15..=16 => 5,
        17..=28 => 6,
        29 | 30 => 8,
        _ => 7,
    }
}

// A kind at random: mostly an edit of a job that has wires.
fn editing(n: usize) -> usize {
    match n {
        0..=6 => 2,
        7..=11 => 3,
        12..=14 => 9,
        15 | 16 => 11,
        17 => 12,
        18..=24 => 4,
        25..=29 => 6,
        30 => 8,
        _ => 5,
    }
}

// The kind of the k-th call. Of 256 calls the first seven make or edit a job, the eighth reads one, and of the others every fourth sixteen edit it.
fn kind_of(n: usize, k: usize) -> usize {
    match k % 256 {
        0..=6 => making(n),
        7 => 1,
        135 => 10,
        _ => { if k % 64 < 48 { asking(n) } else { editing(n) } }
    }
}

// The k-th call; gives the generator's number afterwards.
fn draw(
    rt: &impl Print,
    tally: &mut Tally,
    counts: &mut Counts,
    rec: &mut Record,
    twin: &mut Record,
    seed: u32,
    k: usize,
) -> u32 {
    let a = xorshift(seed);
    let b = xorshift(a);
    let wrong = tally.wrong();
    let kind = kind_of(below(a, 32), k);
    count(
        counts,
        call_on(rt, tally, rec, twin, b, kind, below(a / 32, 32)),
    );
    if tally.wrong() != wrong {
        line(rt, b"in the random call", k as u64);
    }
    xorshift(xorshift(xorshift(xorshift(xorshift(b)))))
}

// A list of calls, from a job at random on. `counts` has how often each kind of answer occurs.
pub fn calls(rt: &impl Print, tally: &mut Tally, counts: &mut Counts) {
    let mut rec = [BEYOND; 32800];
    let mut twin = [BEYOND; 32800];
    let mut seed = 362436069;
    for k in 0..16000 {
        seed = draw(rt, tally, counts, &mut rec, &mut twin, seed, k);
    }
}
