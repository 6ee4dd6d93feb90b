// Sheets of wired records, as they are and with bytes changed, each held to the second implementation's verdict, on the record and on one of the same pins where
// every D is 2.
ghost use Rattle.std.specs.Prelude.{◌<◌};

use crate::judge::{CARRIED, REFUSED, judged, said};
use answers::Stepped;
use oracle_text::job::{Array, Job};
use oracle_text::random::{Generator, below, random_laid, random_own, xorshift};
use oracle_text::trial::{Percents, trial_job};
use verdict::bytes::{Tally, first};
use verdict::record::{BEYOND, Record, put_unwired};

// A sheet, with one byte more.
type Sheet = [u8; 9601];

// The O of a job at random, mostly 2.
fn side_limit(x: u32, y: u32) -> usize
    ensures { result < 5 }
{
    if below(x, 12) != 0 {
        return 2;
    }
    let more = below(y, 3);
    if more < 3 { 1 + more } else { 2 }
}

// Its D, at least O.
fn figure_of(low: bool, x: u32, side: usize) -> usize
    requires { side < 5 }
{
    if low {
        return side;
    }
    let more = below(x, side + 1);
    if more < 5 { side + more } else { side }
}

// A job at random: mostly O is 2 and no pin is missing. Where `low` holds, it is the same but that every D is the least.
fn draw(seed: u32, low: bool) -> Job {
    let a = xorshift(seed);
    let b = xorshift(a);
    let c = xorshift(b);
    let d = xorshift(c);
    let side = side_limit(a, b);
    let figure = figure_of(low, c, side);
    let percents = Percents {
        chosen: 5 + below(d, 50),
        missing: if below(b, 12) == 0 { 3 } else { 0 },
        closed: below(d / 64, 15),
    };
    let array = Array {
        rows: 2 + below(a / 16, 7),
        columns: 2 + below(b / 16, 7),
        side,
        diagonal: figure,
        extra: below(c, 2),
    };
    let mut job = trial_job(array, d, percents);
    random_laid(&mut Generator::new(d), below(c / 16, 120), &mut job);
    if !low {
        random_own(&mut Generator::new(c), 300, &mut job);
    }
    job
}

// One wire more, if one fits; gives whether one did.
fn added(rec: &mut Record, scratch: &mut [u8; 65536]) -> bool {
    routing::step(rec, scratch) == Ok(Stepped::Added)
}

// Whether no pin is left to be wired.
fn all_wired(rec: &mut Record, scratch: &mut [u8; 65536]) -> bool {
    routing::step(rec, scratch) == Ok(Stepped::AllWired)
}

// Wires as many pins as have room; gives whether all chosen ones are wired.
fn wire(rec: &mut Record) -> bool {
    let mut scratch = [0u8; 65536];
    let mut turns = 100usize;
    while turns > 0 && added(rec, &mut scratch) {
        turns -= 1;
    }
    all_wired(rec, &mut scratch)
}

// Where the record has the byte of the sheet.
fn source(i: usize) -> usize {
    if i < 3200 {
        return 3968 + i;
    }
    if i < 9600 {
        return 16768 + i;
    }
    32767
}

// The sheet's byte of the record.
fn byte_of(rec: &Record, i: usize) -> u8 {
    let k = source(i);
    if k < 32768 { rec[k] } else { 0 }
}

// The side loads and the marks of a record.
fn sheet_of(rec: &Record) -> Sheet {
    let mut sheet = [0u8; 9601];
    for i in 0..9600 {
        sheet[i] = byte_of(rec, i);
    }
    sheet
}

// A load byte: mostly one of at most two wires.
fn load(x: u32) -> u8 {
    match below(x, 16) {
        0 | 1 | 2 => 0,
        3 | 4 | 5 => 1,
        6 | 7 => 2,
        8 | 9 | 10 => 33,
        11 | 12 => 34,
        13 => 3,
        14 => 32,
        _ => (x / 16 % 256) as u8,
    }
}

fn set(sheet: &mut Sheet, i: usize, v: u8) {
    if i < 9601 {
        sheet[i] = v;
    }
}

// One load changed, or one mark, or any byte; mostly of the north-west cells.
fn change(sheet: &mut Sheet, x: u32, y: u32) {
    let p = 40 * (x as usize / 16 % 9) + x as usize / 256 % 9;
    match below(x, 16) {
        0 => set(sheet, below(y, 9600), (y / 16384 % 256) as u8),
        1 | 2 | 3 => set(sheet, 3200 + 1600 * (y as usize % 4) + p, (y / 4 % 2) as u8),
        _ => set(sheet, 1600 * (y as usize % 2) + p, load(y / 2)),
    }
}

// How many bytes of the sheet are lent.
fn length(x: u32) -> usize {
    match below(x, 40) {
        0 => 9599,
        1 => 9601,
        2 => 0,
        _ => 9600,
    }
}

fn lent(sheet: &Sheet, n: usize) -> &[u8] {
    let all: &[u8] = sheet;
    first(all, n)
}

fn lent_record(rec: &Record, n: usize) -> &[u8] {
    let all: &[u8] = rec;
    first(all, n)
}

// The operation says what the second implementation says.
fn hold_said(rt: &impl Print, tally: &mut Tally, rec: &Record, job: &Job, sheet: &[u8]) {
    tally.hold(rt, said(rec, sheet) == judged(job, sheet), b"the verdict");
}

// The sheet with a byte changed, and the same with one more.
fn changed(rt: &impl Print, tally: &mut Tally, rec: &Record, job: &Job, sheet: &Sheet, x: u32) {
    let mut other = *sheet;
    let y = xorshift(x);
    let z = xorshift(y);
    change(&mut other, y, z);
    hold_said(rt, tally, rec, job, lent(&other, length(x)));
    change(&mut other, z, xorshift(z));
    hold_said(rt, tally, rec, job, lent(&other, 9600));
}

// Such sheets, several.
fn several(rt: &impl Print, tally: &mut Tally, rec: &Record, job: &Job, sheet: &Sheet, seed: u32) {
    let mut x = seed;
    for _ in 0..6usize {
        x = xorshift(xorshift(xorshift(x)));
        changed(rt, tally, rec, job, sheet, x);
    }
}

// The sheet of a record that has a wire for each chosen pin is carried, where O is 2 and no pin is missing.
fn hold_carried(rt: &impl Print, tally: &mut Tally, rec: &Record, all: bool, sheet: &[u8]) {
    let verdict = said(rec, sheet);
    tally.hold(
        rt,
        !all || verdict == CARRIED || verdict == REFUSED + 14,
        b"the sheet of a wired record is carried",
    );
}

// A record that is too short is refused.
fn hold_short(rt: &impl Print, tally: &mut Tally, rec: &Record, sheet: &[u8]) {
    let verdict = said(lent_record(rec, 32767), sheet);
    tally.hold(rt, verdict == REFUSED + 1, b"a short record");
}

// The sheet on the job where every D is the least.
fn lower(rt: &impl Print, tally: &mut Tally, seed: u32, sheet: &[u8]) {
    let job = draw(seed, true);
    let mut rec = [BEYOND; 32800];
    put_unwired(&mut rec, &job);
    hold_said(rt, tally, &rec, &job, sheet);
}

// The sheet of a record and others beside it.
fn sheets_of(rt: &impl Print, tally: &mut Tally, rec: &Record, job: &Job, all: bool, seed: u32) {
    let sheet = sheet_of(rec);
    let whole = lent(&sheet, 9600);
    hold_carried(rt, tally, rec, all, whole);
    hold_said(rt, tally, rec, job, whole);
    hold_short(rt, tally, rec, whole);
    lower(rt, tally, seed, whole);
    several(rt, tally, rec, job, &sheet, seed);
}

// A job wired, and its sheets.
fn wired(rt: &impl Print, tally: &mut Tally, seed: u32) {
    let job = draw(seed, false);
    let mut rec = [BEYOND; 32800];
    put_unwired(&mut rec, &job);
    let all = wire(&mut rec);
    sheets_of(rt, tally, &rec, &job, all, seed);
}

pub fn calls(rt: &impl Print, tally: &mut Tally) {
    let mut seed = 88675123;
    for _ in 0..400usize {
        wired(rt, tally, seed);
        seed = xorshift(xorshift(xorshift(seed)));
    }
}
