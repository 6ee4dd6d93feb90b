// The vectors of data/: the text of each job, which Write text gives after the call with the arguments of its row, and which the second implementation's job has.
use answers::Refusal;
use check::same;
use files::load;
use model::Capacities;
use oracle_text::job::{Array, Job};
use oracle_text::page::Page;
use oracle_text::trial::{Percents, trial_job};
use std::rt::Files;
use trials::{Draws, trial};
use verdict::bytes::{Tally, first};

// Rows, columns, O, D, E, the starting number, and the percentages of chosen and missing pins and of closed tiles.
const ROWS: [usize; 180] = [
    7, 7, 7, 7, 2, 1, 0, 19, 100, 6, 6, 3, 5, 3, 4294967295, 0, 93, 29, 5, 3, 3, 4, 0, 2147483648,
    0, 48, 100, 8, 2, 5, 7, 2, 3776857596, 0, 11, 48, 7, 8, 2, 4, 0, 1468162959, 100, 0, 0, 8, 3,
    1, 2, 2, 1937046218, 62, 21, 47, 6, 7, 7, 12, 1, 3510496019, 100, 0, 0, 2, 5, 5, 7, 1,
    3889648625, 2, 80, 0, 2, 2, 8, 14, 11, 1916095370, 100, 0, 100, 8, 6, 7, 7, 6, 95062831, 26,
    21, 100, 7, 8, 4, 4, 0, 390614309, 0, 24, 100, 6, 2, 7, 13, 11, 3776855748, 100, 0, 100, 6, 2,
    7, 13, 1, 1565729431, 0, 32, 0, 2, 7, 8, 9, 0, 1076252835, 0, 2, 100, 11, 9, 7, 7, 5,
    1999646567, 0, 28, 100, 17, 20, 5, 9, 8, 243809664, 32, 30, 0, 13, 15, 3, 5, 3, 700658232, 100,
    0, 100, 17, 14, 1, 2, 1, 359072681, 89, 5, 100, 40, 2, 5, 6, 1, 3139464643, 0, 26, 0, 40, 40,
    8, 12, 6, 2991210949, 0, 65, 0,
];

// Argument i of row k.
fn argument(k: usize, i: usize) -> usize {
    if k < 20 {
        if i < 9 {
            return ROWS[9 * k + i];
        }
    }
    0
}

// Reads the vector with the number k, of two digits.
fn load_vector<'a>(rt: &(impl Files + Eprint), k: usize, buffer: &'a mut [u8; 262144]) -> &'a [u8] {
    let mut path = Page::EMPTY;
    path.word(b"trial");
    if k < 10 {
        path.push(b'0');
    }
    path.decimal(k);
    path.word(b".job");
    load(rt, path.text(), buffer)
}

// The record of row k.
fn made(k: usize, rec: &mut [u8]) -> Result<(), Refusal> {
    let array = model::Array {
        rows: argument(k, 0),
        columns: argument(k, 1),
    };
    let capacities = Capacities {
        orthogonal: argument(k, 2),
        diagonal: argument(k, 3),
        extra: argument(k, 4),
    };
    let draws = Draws {
        seed: argument(k, 5),
        chosen: argument(k, 6),
        missing: argument(k, 7),
        closed: argument(k, 8),
    };
    trial(rec, array, capacities, draws)
}

// The text of row k by the operations; gives its length.
fn written(k: usize, out: &mut [u8; 262144]) -> usize {
    let mut rec = [7u8; 32768];
    let Ok(()) = made(k, &mut rec) else {
        return 0;
    };
    let Ok(n) = making::write_text(&rec, out) else {
        return 0;
    };
    n
}

// The job of row k by the second implementation.
fn expected(k: usize) -> Job {
    let seed = argument(k, 5);
    let percents = Percents {
        chosen: argument(k, 6),
        missing: argument(k, 7),
        closed: argument(k, 8),
    };
    let array = Array {
        rows: argument(k, 0),
        columns: argument(k, 1),
        side: argument(k, 2),
        diagonal: argument(k, 3),
        extra: argument(k, 4),
    };
    trial_job(
        array,
        if seed < 4294967296 { seed as u32 } else { 0 },
        percents,
    )
}

fn vector(rt: &(impl Files + Print + Eprint), tally: &mut Tally, k: usize) {
    let mut text = [0u8; 262144];
    let mut mine = [0u8; 262144];
    let mut other = Page::EMPTY;
    let text = load_vector(rt, k, &mut text);
    let a = written(k, &mut mine);
    oracle_text::text::write_text(&expected(k), &mut other);
    tally.hold(rt, same(first(&mine, a), text), b"the text");
    tally.hold(
        rt,
        same(other.text(), text),
        b"the text of the second implementation",
    );
}

pub fn vectors(rt: &(impl Files + Print + Eprint), tally: &mut Tally) {
    for k in 0..20 {
        vector(rt, tally, k);
    }
}
