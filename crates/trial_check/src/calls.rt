// Random calls on one record: each is held to what it has to answer, and the record to the job of the trial, or to what it was where the call is refused.
use answers::Refusal;
use check::same;
use model::Capacities;
use oracle_text::job::Array;
use oracle_text::random::{below, xorshift};
use oracle_text::trial::{Percents, trial_job};
use trials::Draws;
use verdict::bytes::Tally;
use verdict::record::{BEYOND, Record, holds_unwired};

// The arguments of a call, and how many bytes of the record are lent.
#[derive(Clone, Copy)]
pub struct Asked {
    pub n: usize,
    pub rows: usize,
    pub columns: usize,
    pub o: usize,
    pub d: usize,
    pub e: usize,
    pub seed: usize,
    pub chosen: usize,
    pub missing: usize,
    pub closed: usize,
}

// Numbers that fit nothing, or only just.
fn wild(x: u32) -> usize {
    match below(x, 8) {
        0 => 18446744073709551615,
        1 => 18446744073709551516,
        2 => 4294967296,
        3 => 4294967295,
        4 => 101,
        5 => 100,
        6 => 41,
        _ => 0,
    }
}

// A number of the `n` from `least` on, and now and then a wild one.
fn pick(x: u32, least: usize, n: usize) -> usize {
    if below(x, 24) == 0 {
        wild(x / 32)
    } else {
        std::num::wrapping_add_usize(least, below(x / 32, n))
    }
}

// The length that is lent of the record.
fn pick_length(x: u32) -> usize {
    match below(x, 12) {
        0 => 0,
        1 => 32767,
        2 => 32800,
        _ => 32768,
    }
}

// The starting number: a draw, now and then a wild one.
fn pick_seed(x: u32) -> usize {
    if below(x, 12) == 0 {
        wild(x / 16)
    } else {
        x as usize
    }
}

fn draw(seed: u32) -> Asked {
    let a = xorshift(seed);
    let b = xorshift(a);
    let c = xorshift(b);
    let d = xorshift(c);
    let e = xorshift(d);
    let f = xorshift(e);
    let g = xorshift(f);
    let o = pick(c, 1, 4);
    let chosen = pick(e, 0, 70);
    Asked {
        n: pick_length(seed),
        rows: pick(a, 2, 39),
        columns: pick(b, 2, 39),
        o,
        d: pick(d, o, 2),
        e: pick(xorshift(d), 0, 4),
        seed: pick_seed(xorshift(g)),
        chosen,
        missing: pick(f, 0, 40),
        closed: pick(g, 0, 102),
    }
}

fn within(x: usize, least: usize, most: usize) -> bool {
    least <= x && x <= most
}

// Twice O, which is at most 8.
fn twice(o: usize) -> usize {
    if o <= 8 { 2 * o } else { 0 }
}

fn caps_fit(q: Asked) -> bool {
    within(q.o, 1, 8) && within(q.d, q.o, twice(q.o)) && q.e <= q.d
}

fn percents_fit(q: Asked) -> bool {
    if q.chosen <= 100 {
        if q.missing <= 100 {
            return q.chosen + q.missing <= 100 && q.closed <= 100;
        }
    }
    false
}

// The number of the refusal, 0 where the call is accepted.
fn refusal(q: Asked) -> usize {
    if q.n < 32768 {
        return 1;
    }
    if !within(q.rows, 2, 40) || !within(q.columns, 2, 40) {
        return 2;
    }
    if !caps_fit(q) {
        return 3;
    }
    if !within(q.seed, 1, 4294967295) {
        return 12;
    }
    if percents_fit(q) { 0 } else { 13 }
}

fn trial(rec: &mut [u8], q: Asked) -> Result<(), Refusal> {
    let array = model::Array {
        rows: q.rows,
        columns: q.columns,
    };
    let capacities = Capacities {
        orthogonal: q.o,
        diagonal: q.d,
        extra: q.e,
    };
    let draws = Draws {
        seed: q.seed,
        chosen: q.chosen,
        missing: q.missing,
        closed: q.closed,
    };
    trials::trial(rec, array, capacities, draws)
}

fn call(rec: &mut [u8], q: Asked) -> Result<(), Refusal> {
    if q.n <= rec.len() {
        return trial(&mut rec[..q.n], q);
    }
    Ok(())
}

// The record is that of the second implementation's job.
fn holds_trial(rec: &Record, q: Asked) -> bool {
    let percents = Percents {
        chosen: q.chosen,
        missing: q.missing,
        closed: q.closed,
    };
    let seed = if q.seed < 4294967296 {
        q.seed as u32
    } else {
        0
    };
    let array = Array {
        rows: q.rows,
        columns: q.columns,
        side: q.o,
        diagonal: q.d,
        extra: q.e,
    };
    let job = trial_job(array, seed, percents);
    holds_unwired(rec, &job)
}

fn hold_call(rt: &impl Print, tally: &mut Tally, rec: &mut Record, q: Asked) {
    let before = *rec;
    let wanted = refusal(q);
    let said = match call(rec, q) {
        Ok(()) => 0,
        Err(refusal) => refusal.number(),
    };
    tally.hold(rt, said == wanted, b"the answer");
    if wanted == 0 {
        tally.hold(rt, holds_trial(rec, q), b"the job");
    } else {
        tally.hold(rt, same(&before, rec), b"a refused call changes nothing");
    }
}

pub fn calls(rt: &impl Print, tally: &mut Tally) {
    let mut rec = [BEYOND; 32800];
    let mut seed = 521288629;
    for k in 0..2000usize {
        hold_call(rt, tally, &mut rec, draw(seed));
        seed = xorshift(xorshift(xorshift(xorshift(seed))));
    }
}
