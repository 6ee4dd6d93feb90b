// The examples of document 01: those of its text, and those settled by hand, with direct exits; short jobs with inner pins; and jobs with a known least length.
use check::same;
use compare::lent::new_on;
use compare::listed::{Page, list_text, shown};
use compare::said::{
    ADDED, ALL_WIRED, Answer, DONE, LACKS, REFUSED, SHORT, Said, WRONG_TEXT, agree, coded, is,
    put_listed, say,
};
use judge::listing::check_least;
use oracle_text::job::Job;
use oracle_text::page::Page as Sheet;
use oracle_text::text::read_text;
use verdict::bytes::{Tally, first, rest};

// The 64 bytes.
const SIXTY_FOUR: [u8; 64] =
    *b"(array (pins 2 2) (caps 1 2 0))\n(chosen 0 0)\n(closed 0 0)\n(end)\n";

// Lines two and three exchanged.
const EXCHANGED: [u8; 64] =
    *b"(array (pins 2 2) (caps 1 2 0))\n(closed 0 0)\n(chosen 0 0)\n(end)\n";

// A byte after the end.
const AFTER: [u8; 65] = *b"(array (pins 2 2) (caps 1 2 0))\n(chosen 0 0)\n(closed 0 0)\n(end)\n\n";

// All four pins chosen.
const FOUR: [u8; 90] =
    *b"(array (pins 2 2) (caps 1 2 0))\n(chosen 0 0)\n(chosen 0 1)\n(chosen 1 0)\n(chosen 1 1)\n(end)\n";

// Tile 0 0 alone open, three of its pins chosen.
const THREE: [u8; 116] =
    *b"(array (pins 3 3) (caps 1 1 0))\n(chosen 0 0)\n(chosen 1 0)\n(chosen 1 1)\n(closed 0 1)\n(closed 1 0)\n(closed 1 1)\n(end)\n";

// A missing pin, and nothing chosen.
const MISSING: [u8; 52] = *b"(array (pins 2 2) (caps 1 2 0))\n(missing 0 1)\n(end)\n";

// Every tile closed, the inner pin chosen.
const SHUT: [u8; 103] =
    *b"(array (pins 3 3) (caps 1 2 0))\n(chosen 1 1)\n(closed 0 0)\n(closed 0 1)\n(closed 1 0)\n(closed 1 1)\n(end)\n";

// Tile 0 1 alone open, both inner pins chosen, and one wire through a centre.
const NARROW: [u8; 129] =
    *b"(array (pins 3 4) (caps 1 1 0))\n(chosen 1 1)\n(chosen 1 2)\n(closed 0 0)\n(closed 0 2)\n(closed 1 0)\n(closed 1 1)\n(closed 1 2)\n(end)\n";

// The same with two wires through a centre, and a missing pin on the rim.
const RIM_MISSING: [u8; 143] =
    *b"(array (pins 3 4) (caps 1 2 2))\n(chosen 1 1)\n(chosen 1 2)\n(missing 0 1)\n(closed 0 0)\n(closed 0 2)\n(closed 1 0)\n(closed 1 1)\n(closed 1 2)\n(end)\n";

// The listings of the last two.
const NARROW_LISTED: [u8; 80] =
    *b"(short 1)\n(near pin 1 1)\n(near pin 1 2)\n(near 0 1 s)\n(near 0 1 w)\n(near 0 1 ci)\n";

const RIM_MISSING_LISTED: [u8; 148] =
    *b"(short 1)\n(near pin 1 1)\n(near pin 1 2)\n(near ri 0 1)\n(near ro 0 1)\n(near 0 1 n)\n(near 0 1 e)\n(near 0 1 s)\n(near 0 1 w)\n(near 0 1 ci)\n(near 0 1 co)\n";

// Four direct exits.
const FOUR_LISTED: [u8; 140] =
    *b"(wires 4)\n(wire (pin 0 0) (out p 0))\n(wire (pin 0 1) (out p 0))\n(wire (pin 1 0) (out p 0))\n(wire (pin 1 1) (out p 0))\n(length 0)\n(mean 0 0)\n";

// Two pins whose shortest wires leave over one side that takes one wire: the least is 10 and 20.
const CROWDED: [u8; 144] =
    *b"(array (pins 3 5) (caps 1 2 0))\n(chosen 1 1)\n(chosen 1 2)\n(closed 0 0)\n(closed 1 0)\n(closed 1 1)\n(closed 1 2)\n(closed 1 3)\n(laid 0 2 n 1)\n(end)\n";

// A wire that passes a missing pin, 14, rather than two more sides.
const PAST: [u8; 149] =
    *b"(array (pins 3 4) (caps 1 2 1))\n(chosen 1 1)\n(missing 1 2)\n(closed 0 0)\n(closed 1 0)\n(closed 1 1)\n(laid 0 1 n 1)\n(laid 0 2 n 1)\n(laid 0 2 e 1)\n(end)\n";

// The same pin idle, and the two sides.
const ROUND: [u8; 135] =
    *b"(array (pins 3 4) (caps 1 2 1))\n(chosen 1 1)\n(closed 0 0)\n(closed 1 0)\n(closed 1 1)\n(laid 0 1 n 1)\n(laid 0 2 n 1)\n(laid 0 2 e 1)\n(end)\n";

// Read text answers so, on a record of its own; the text stands for what came out wrong.
fn reads(rt: &impl Print, tally: &mut Tally, text: &[u8], kind: usize, number: usize) {
    let mut rec = [7u8; 32768];
    let answer = Answer::from(service::read_text(&mut rec, text));
    tally.hold(rt, is(answer, kind, number), text);
}

// The offset at which the first n of the 64 bytes are refused: that of the last line that begins in them.
fn cut_at(n: usize) -> usize {
    if n < 32 {
        0
    } else if n < 45 {
        32
    } else if n < 58 {
        45
    } else {
        58
    }
}

fn stops(rt: &impl Print, tally: &mut Tally, n: usize) {
    let text: &[u8] = &SIXTY_FOUR;
    reads(rt, tally, first(text, n), WRONG_TEXT, cut_at(n));
}

// Every text that stops before its end.
fn stops_all(rt: &impl Print, tally: &mut Tally) {
    for n in 0..64 {
        stops(rt, tally, n);
    }
}

// The 64 bytes, lines exchanged, no byte, a byte after the end, and a missing pin.
fn texts(rt: &impl Print, tally: &mut Tally) {
    reads(rt, tally, &SIXTY_FOUR, DONE, 0);
    reads(rt, tally, &EXCHANGED, WRONG_TEXT, 45);
    reads(rt, tally, b"", WRONG_TEXT, 0);
    reads(rt, tally, &AFTER, WRONG_TEXT, 64);
    reads(rt, tally, &MISSING, DONE, 0);
    stops_all(rt, tally);
}

// The router lists the text so.
fn lists(rt: &impl Print, tally: &mut Tally, text: &[u8], expected: &[u8], page: &mut Page) {
    let n = list_text(text, page);
    tally.hold(rt, same(shown(page, n), expected), expected);
}

// The list begins and ends so.
fn frames(list: &[u8], count: &[u8], total: &[u8]) -> bool {
    let from = std::num::wrapping_sub_usize(list.len(), total.len());
    same(first(list, count.len()), count) && same(rest(list, from), total)
}

// The router's listing of the text begins and ends so, is legal, and of the least length.
fn lists_least(
    rt: &impl Print,
    tally: &mut Tally,
    text: &[u8],
    count: &[u8],
    total: &[u8],
    page: &mut Page,
) {
    let mut job = Job::BLANK;
    let read = read_text(text, &mut job);
    let n = list_text(text, page);
    let checked = check_least(&job, shown(page, n));
    tally.hold(
        rt,
        read.is_ok() && frames(shown(page, n), count, total) && checked.is_ok(),
        text,
    );
}

fn lengths(rt: &impl Print, tally: &mut Tally, page: &mut Page) {
    lists_least(
        rt,
        tally,
        &THREE,
        b"(wires 3)\n",
        b"(length 10)\n(mean 3 1)\n",
        page,
    );
    lists_least(
        rt,
        tally,
        &CROWDED,
        b"(wires 2)\n",
        b"(length 30)\n(mean 15 0)\n",
        page,
    );
    lists_least(
        rt,
        tally,
        &PAST,
        b"(wires 1)\n",
        b"(length 24)\n(mean 24 0)\n",
        page,
    );
    lists_least(
        rt,
        tally,
        &ROUND,
        b"(wires 1)\n",
        b"(length 30)\n(mean 30 0)\n",
        page,
    );
}

fn listings(rt: &impl Print, tally: &mut Tally) {
    let mut page = [0u8; 1048576];
    lengths(rt, tally, &mut page);
    lists(rt, tally, &FOUR, &FOUR_LISTED, &mut page);
    lists(
        rt,
        tally,
        &SIXTY_FOUR,
        b"(wires 1)\n(wire (pin 0 0) (out p 0))\n(length 0)\n(mean 0 0)\n",
        &mut page,
    );
    lists(rt, tally, &SHUT, b"(short 1)\n(near pin 1 1)\n", &mut page);
    lists(rt, tally, &NARROW, &NARROW_LISTED, &mut page);
    lists(rt, tally, &RIM_MISSING, &RIM_MISSING_LISTED, &mut page);
    lists(rt, tally, &EXCHANGED, b"(refused 6 45)\n", &mut page);
    lists(
        rt,
        tally,
        &MISSING,
        b"(wires 0)\n(length 0)\n(mean 0 0)\n",
        &mut page,
    );
}

// New answers so.
fn news(
    rt: &impl Print,
    tally: &mut Tally,
    rows: usize,
    columns: usize,
    o: usize,
    d: usize,
    e: usize,
    expected: Said,
) {
    let mut rec = [7u8; 32768];
    let answer = new_on(&mut rec, 32768, rows, columns, o, d, e);
    tally.hold(rt, agree(coded(answer), expected), b"an example of new");
}

// The least and the greatest, and what is past them.
fn ranges(rt: &impl Print, tally: &mut Tally) {
    let done = say(DONE, 0);
    let array = say(REFUSED, 2);
    let caps = say(REFUSED, 3);
    news(rt, tally, 40, 40, 1, 1, 0, done);
    news(rt, tally, 1, 2, 1, 1, 0, array);
    news(rt, tally, 41, 2, 1, 1, 0, array);
    news(rt, tally, 2, 2, 8, 16, 16, done);
    news(rt, tally, 2, 2, 2, 5, 0, caps);
    news(rt, tally, 2, 2, 2, 1, 0, caps);
}

// The text is read into the record.
pub fn read_into(rt: &impl Print, tally: &mut Tally, rec: &mut [u8; 32768], text: &[u8]) {
    let answer = Answer::from(service::read_text(rec, text));
    tally.hold(rt, is(answer, DONE, 0), text);
}

// The next step answers so.
pub fn steps(rt: &impl Print, tally: &mut Tally, rec: &mut [u8; 32768], kind: usize) {
    let mut scratch = [0u8; 65536];
    let answer = Answer::from(service::step(rec, &mut scratch));
    tally.hold(rt, is(answer, kind, 0), b"an example's step");
}

// Shortfall says what the job lacks, and the output, of bytes 2 before, is then this.
fn shortfall_is(
    rt: &impl Print,
    tally: &mut Tally,
    rec: &[u8; 32768],
    number: usize,
    near: &[u8; 32768],
) {
    let mut scratch = [0u8; 65536];
    let mut mine = [2u8; 32768];
    let answer = compare::said::lacks(service::shortfall(rec, &mut scratch, &mut mine));
    tally.hold(rt, is(answer, LACKS, number), b"an example's shortfall");
    tally.hold(rt, same(&mine, near), b"an example's near side");
}

// Part answers so of the pin 0 0 at the index.
fn part_is(rt: &impl Print, tally: &mut Tally, rec: &[u8; 32768], index: usize, expected: &[u8]) {
    let mut sheet = Sheet::EMPTY;
    put_listed(&mut sheet, Answer::from(service::part(rec, 0, 0, index)));
    tally.hold(rt, same(sheet.text(), expected), b"an example's part");
}

// The 64 bytes: one "added", and the pin leaves directly.
fn sixty_four(rt: &impl Print, tally: &mut Tally) {
    let mut rec = [7u8; 32768];
    read_into(rt, tally, &mut rec, &SIXTY_FOUR);
    part_is(rt, tally, &rec, 0, b"unwired");
    steps(rt, tally, &mut rec, ADDED);
    steps(rt, tally, &mut rec, ALL_WIRED);
    shortfall_is(rt, tally, &rec, 0, &[2u8; 32768]);
    part_is(rt, tally, &rec, 0, b" (out p 0)");
    part_is(rt, tally, &rec, 1, b"past");
    part_is(rt, tally, &rec, 18446744073709551615, b"past");
}

// Nothing chosen: all wired, never "added", and no near side.
fn nothing(rt: &impl Print, tally: &mut Tally) {
    let mut rec = [7u8; 32768];
    read_into(rt, tally, &mut rec, &MISSING);
    steps(rt, tally, &mut rec, ALL_WIRED);
    shortfall_is(rt, tally, &rec, 0, &[2u8; 32768]);
}

// Three pins and one tile, two of the pins on the rim: three "added".
fn three(rt: &impl Print, tally: &mut Tally) {
    let mut rec = [7u8; 32768];
    read_into(rt, tally, &mut rec, &THREE);
    steps(rt, tally, &mut rec, ADDED);
    steps(rt, tally, &mut rec, ADDED);
    steps(rt, tally, &mut rec, ADDED);
    steps(rt, tally, &mut rec, ALL_WIRED);
    shortfall_is(rt, tally, &rec, 0, &[2u8; 32768]);
}

// Every tile closed: short 1, only the inner pin near.
fn shut(rt: &impl Print, tally: &mut Tally) {
    let mut rec = [7u8; 32768];
    let mut near = [0u8; 32768];
    near[657] = 1;
    read_into(rt, tally, &mut rec, &SHUT);
    steps(rt, tally, &mut rec, SHORT);
    shortfall_is(rt, tally, &rec, 1, &near);
}

// One wire through the centre: one "added", short 1; near are both pins and s, w, ci of tile 0 1.
fn narrow(rt: &impl Print, tally: &mut Tally) {
    let mut rec = [7u8; 32768];
    let mut near = [0u8; 32768];
    near[340] = 1;
    near[341] = 1;
    near[342] = 1;
    near[657] = 1;
    near[665] = 1;
    read_into(rt, tally, &mut rec, &NARROW);
    steps(rt, tally, &mut rec, ADDED);
    steps(rt, tally, &mut rec, SHORT);
    shortfall_is(rt, tally, &rec, 1, &near);
}

pub fn examples(rt: &impl Print, tally: &mut Tally) {
    texts(rt, tally);
    listings(rt, tally);
    ranges(rt, tally);
    sixty_four(rt, tally);
    nothing(rt, tally);
    three(rt, tally);
    shut(rt, tally);
    narrow(rt, tally);
}
