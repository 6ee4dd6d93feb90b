// Damaged records: random jobs are wired, and bytes of the record changed at random, or wires moved round closed chains of links. Where the verdict is that the
// record is no longer legal, every operation that takes one refuses it by 1 and changes nothing; where it still is, none does.
ghost use Rattle.std.specs.Prelude.{◌<◌};

use check::same;
use compare::listed::routed;
use compare::said::{Answer, REFUSED, is, lacks, wrote};
use oracle_text::job::Job;
use oracle_text::page::Page as Sheet;
use oracle_text::random::{Generator, below, random_job, random_laid, random_own, xorshift};
use oracle_text::text::write_text;
use verdict::bytes::{Tally, all, line};
use verdict::ends::{Fields, Link, Plane};
use verdict::record::{BEYOND, Record, legal};

fn set(rec: &mut Record, k: usize, v: usize) {
    if k < 32800 {
        if v < 256 {
            rec[k] = v as u8;
        }
    }
}

// The load byte with one wire more the positive way.
fn more(x: usize) -> usize
    ensures { result < 256 }
{
    if x < 32 {
        return x + 1;
    }
    if x == 33 {
        return 0;
    }
    if 32 < x {
        if x < 256 {
            return x - 1;
        }
    }
    0
}

// The load byte with one wire more the other way.
fn less(x: usize) -> usize
    ensures { result < 256 }
{
    if x == 0 {
        return 33;
    }
    if x < 33 {
        if 0 < x {
            return x - 1;
        }
    }
    if x < 255 { x + 1 } else { 0 }
}

// One wire more on the link of the plane at row r, column c, the positive way or the other.
fn push(rec: &mut Record, plane: usize, r: usize, c: usize, positive: bool) {
    if r >= 40 || c >= 40 {
        return;
    }
    if let Some(plane) = Plane::ALL.get(plane) {
        let link = Link {
            plane: *plane,
            cell: 40 * r + c,
        };
        let x = Fields::of(rec).load(link);
        if let Some(at) = link.offset() {
            set(rec, at, if positive { more(x) } else { less(x) });
        }
    }
}

// Round the tile, through its four corners.
fn turn_tile(rec: &mut Record, r: usize, c: usize, clockwise: bool) {
    push(rec, 2, r, c, clockwise);
    push(rec, 3, r, c, clockwise);
    push(rec, 4, r, c, clockwise);
    push(rec, 5, r, c, clockwise);
}

// From n to the centre, to e, and back to n; or the other way.
fn turn_centre(rec: &mut Record, r: usize, c: usize, way: bool) {
    push(rec, 6, r, c, !way);
    push(rec, 7, r, c, way);
    push(rec, 2, r, c, !way);
}

// Through the four tiles round the pin (r + 1, c + 1), by their sides and corners.
fn turn_pin(rec: &mut Record, r: usize, c: usize, clockwise: bool) {
    if r < 39 {
        if c < 39 {
            push(rec, 1, r, c + 1, clockwise);
            push(rec, 4, r, c + 1, !clockwise);
            push(rec, 0, r + 1, c + 1, !clockwise);
            push(rec, 5, r + 1, c + 1, !clockwise);
            push(rec, 1, r + 1, c + 1, !clockwise);
            push(rec, 2, r + 1, c, !clockwise);
            push(rec, 0, r + 1, c, clockwise);
            push(rec, 3, r, c, !clockwise);
        }
    }
}

// A byte of the header.
fn spoil_header(rec: &mut Record, x: u32) {
    set(rec, below(x, 24), below(x / 32, 64));
}

fn spoil_any(rec: &mut Record, x: u32, y: u32) {
    set(rec, below(x, 32768), below(y, 256));
}

// A mark or a state of the north-west cells.
fn spoil_cell(rec: &mut Record, x: u32, y: u32) {
    let p = 40 * (x as usize % 9) + y as usize % 9;
    let k = if x % 2 == 0 { 768 + p } else { 2368 + p };
    set(rec, k, below(y / 16, 4));
}

// A count of wires already laid at the north-west cells, mostly a small one.
fn spoil_count(rec: &mut Record, x: u32, y: u32) {
    let p = 40 * (x as usize % 9) + x as usize / 16 % 9;
    let k = if y % 2 == 0 { 27968 + p } else { 29568 + p };
    let n = if y / 2 % 8 == 0 {
        below(y / 16, 256)
    } else {
        below(y / 16, 5)
    };
    set(rec, k, n);
}

// A load of the north-west cells: one more, one less, or any.
fn spoil_load(rec: &mut Record, x: u32, y: u32) {
    let r = x as usize % 9;
    let c = x as usize / 16 % 9;
    let plane = x as usize / 256 % 15;
    match below(y, 4) {
        0 => push(rec, plane, r, c, true),
        1 => push(rec, plane, r, c, false),
        _ => set(rec, 3968 + 1600 * plane + 40 * r + c, below(y / 4, 70)),
    }
}

fn set_direct(rec: &mut Record, r: usize, c: usize, v: usize) {
    if r < 40 {
        if c < 40 {
            set(rec, 26368 + 40 * r + c, v);
        }
    }
}

// The direct exit of a north-west cell, mostly of the first row or column: none, one wire, two, or any byte.
fn spoil_direct(rec: &mut Record, x: u32, y: u32) {
    let r = if x % 2 == 0 { 0 } else { x as usize / 8 % 9 };
    let c = if x / 2 % 2 == 0 {
        0
    } else {
        x as usize / 128 % 9
    };
    let value = match below(y, 8) {
        0 | 1 => 0,
        2 | 3 | 4 => 1,
        5 => 2,
        _ => below(y / 8, 256),
    };
    set_direct(rec, r, c, value);
}

// A wire of the pin (0, c) by its leg east and out of the north side of the tile there, beside its direct exit or in place of it.
fn lead_north(rec: &mut Record, c: usize, beside: bool) {
    push(rec, 11, 0, c, true);
    push(rec, 0, 0, c, true);
    if !beside {
        set_direct(rec, 0, c, 0);
    }
}

fn spoil(rec: &mut Record, x: u32, y: u32, z: u32) {
    let r = below(y, 7);
    let c = below(y / 8, 7);
    match below(x, 14) {
        0 => spoil_header(rec, y),
        1 => spoil_any(rec, y, z),
        2 | 3 => spoil_cell(rec, y, z),
        4 | 5 | 6 => spoil_load(rec, y, z),
        7 => turn_tile(rec, r, c, z % 2 == 0),
        8 => turn_centre(rec, r, c, z % 2 == 0),
        9 => spoil_direct(rec, y, z),
        10 => lead_north(rec, c, z % 2 == 0),
        11 | 12 => spoil_count(rec, y, z),
        _ => turn_pin(rec, r, c, z % 2 == 0),
    }
}

// The answer is a refusal by 1 just where the record is not legal.
fn refuses(answer: Answer, sound: bool) -> bool {
    is(answer, REFUSED, 1) != sound
}

fn hold_kept(rt: &impl Print, tally: &mut Tally, rec: &Record, copy: &Record, sound: bool) {
    tally.hold(rt, sound || same(rec, copy), b"a damaged record is kept");
}

fn mark_pin(rec: &mut Record) -> Answer {
    Answer::from(service::mark(rec, 0, 0, 1))
}

fn close_tile(rec: &mut Record) -> Answer {
    Answer::from(service::close(rec, 0, 0, 1))
}

fn lay_one(rec: &mut Record) -> Answer {
    Answer::from(service::lay(rec, 0, 0, 0, 1))
}

fn step(rec: &mut Record, scratch: &mut [u8; 65536]) -> Answer {
    Answer::from(service::step(rec, scratch))
}

fn ask_edits(rt: &impl Print, tally: &mut Tally, rec: &Record, sound: bool) {
    let mut copy = *rec;
    tally.hold(rt, refuses(mark_pin(&mut copy), sound), b"mark on damage");
    hold_kept(rt, tally, rec, &copy, sound);
    let mut other = *rec;
    tally.hold(
        rt,
        refuses(close_tile(&mut other), sound),
        b"close on damage",
    );
    hold_kept(rt, tally, rec, &other, sound);
    let mut third = *rec;
    tally.hold(rt, refuses(lay_one(&mut third), sound), b"lay on damage");
    hold_kept(rt, tally, rec, &third, sound);
}

fn is_kept(scratch: &[u8; 65536], sound: bool) -> bool {
    sound || all(scratch, 201)
}

fn ask_step(rt: &impl Print, tally: &mut Tally, rec: &Record, sound: bool) {
    let mut copy = *rec;
    let mut scratch = [201u8; 65536];
    tally.hold(
        rt,
        refuses(step(&mut copy, &mut scratch), sound),
        b"step on damage",
    );
    tally.hold(rt, is_kept(&scratch, sound), b"step's scratch on damage");
    hold_kept(rt, tally, rec, &copy, sound);
}

fn ask_shortfall(rt: &impl Print, tally: &mut Tally, rec: &Record, sound: bool) {
    let mut scratch = [201u8; 65536];
    let mut output = [90u8; 32768];
    tally.hold(
        rt,
        refuses(
            lacks(service::shortfall(rec, &mut scratch, &mut output)),
            sound,
        ),
        b"shortfall on damage",
    );
    tally.hold(
        rt,
        is_kept(&scratch, sound),
        b"shortfall's scratch on damage",
    );
    tally.hold(
        rt,
        sound || all(&output, 90),
        b"shortfall's output on damage",
    );
}

fn ask_views(rt: &impl Print, tally: &mut Tally, rec: &Record, sound: bool) {
    let mut output = [90u8; 66000];
    tally.hold(
        rt,
        refuses(Answer::from(service::part(rec, 0, 0, 0)), sound),
        b"part on damage",
    );
    tally.hold(
        rt,
        refuses(wrote(service::write_text(rec, &mut output)), sound),
        b"write text on damage",
    );
    tally.hold(
        rt,
        sound || all(&output, 90),
        b"write text's output on damage",
    );
}

fn count(kept: &mut [u64; 2], sound: bool) {
    if sound {
        kept[0] = std::num::wrapping_add_u64(kept[0], 1);
    } else {
        kept[1] = std::num::wrapping_add_u64(kept[1], 1);
    }
}

// Spoils the record once, and counts whether it is still legal.
fn ask(
    rt: &impl Print,
    tally: &mut Tally,
    kept: &mut [u64; 2],
    rec: &Record,
    x: u32,
    y: u32,
    z: u32,
) {
    let mut copy = *rec;
    spoil(&mut copy, x, y, z);
    let sound = legal(&copy);
    count(kept, sound);
    ask_edits(rt, tally, &copy, sound);
    ask_step(rt, tally, &copy, sound);
    ask_shortfall(rt, tally, &copy, sound);
    ask_views(rt, tally, &copy, sound);
}

// Spoils the record in several ways; gives the generator's number afterwards.
fn ask_ways(
    rt: &impl Print,
    tally: &mut Tally,
    kept: &mut [u64; 2],
    rec: &Record,
    seed: u32,
) -> u32 {
    let mut x = seed;
    for k in 0..12usize {
        let y = xorshift(x);
        let z = xorshift(y);
        x = xorshift(z);
        ask(rt, tally, kept, rec, x, y, z);
    }
    x
}

fn draw(rt: &impl Print, tally: &mut Tally, kept: &mut [u64; 2], seed: u32) -> u32 {
    let mut job = Job::BLANK;
    let mut sheet = Sheet::EMPTY;
    let mut near = [0u8; 32768];
    let mut rec = [BEYOND; 32800];
    let wrong = tally.wrong();
    let mut generator = Generator::new(seed);
    random_job(&mut generator, 8, &mut job);
    random_laid(&mut generator, 150, &mut job);
    random_own(&mut generator, 150, &mut job);
    write_text(&job, &mut sheet);
    let read = service::read_text(&mut rec, sheet.text());
    routed(&mut rec, &mut near);
    tally.hold(rt, read.is_ok() && legal(&rec), b"the record before");
    let next = ask_ways(rt, tally, kept, &rec, generator.last);
    if tally.wrong() != wrong {
        line(rt, b"in the damaged job", seed as u64);
    }
    next
}

// Damage to random jobs. `kept` counts the changes that left a legal record, and the others.
pub fn damage(rt: &impl Print, tally: &mut Tally, kept: &mut [u64; 2]) {
    let mut seed = 521288629;
    for k in 0..400usize {
        seed = draw(rt, tally, kept, seed);
    }
}
