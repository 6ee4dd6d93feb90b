// The examples of document 01 and of include/talusdish.h, each with its word: 256 times the value, and the code.
use check::same;
use talusdish::exports::{
    talusdish_close, talusdish_diagonal, talusdish_lay, talusdish_listing, talusdish_mark,
    talusdish_new, talusdish_part, talusdish_read_text, talusdish_shortfall, talusdish_step,
    talusdish_write_text,
};
use verdict::bytes::{Tally, span};

type Bytes = [u8; 32768];

// The 64 bytes.
const SIXTY_FOUR: [u8; 64] =
    *b"(array (pins 2 2) (caps 1 2 0))\n(chosen 0 0)\n(closed 0 0)\n(end)\n";

// Lines two and three exchanged.
const EXCHANGED: [u8; 64] =
    *b"(array (pins 2 2) (caps 1 2 0))\n(closed 0 0)\n(chosen 0 0)\n(end)\n";

// A byte after the end.
const AFTER: [u8; 65] = *b"(array (pins 2 2) (caps 1 2 0))\n(chosen 0 0)\n(closed 0 0)\n(end)\n\n";

// Every tile closed, the inner pin chosen.
const SHUT: [u8; 103] =
    *b"(array (pins 3 3) (caps 1 2 0))\n(chosen 1 1)\n(closed 0 0)\n(closed 0 1)\n(closed 1 0)\n(closed 1 1)\n(end)\n";

// Two wires that share the north side of tile 1 1, one of them through the missing pin.
const SHARED: [u8; 195] =
    *b"(array (pins 5 4) (caps 1 2 2))\n(chosen 2 1)\n(chosen 2 2)\n(missing 1 1)\n(closed 0 2)\n(closed 1 0)\n(closed 1 2)\n(closed 2 0)\n(closed 2 1)\n(closed 2 2)\n(closed 3 0)\n(closed 3 1)\n(closed 3 2)\n(end)\n";

// A pin whose wire leaves to the east, through tile 1 2.
const EAST: [u8; 181] =
    *b"(array (pins 5 4) (caps 1 2 0))\n(chosen 1 1)\n(chosen 2 1)\n(chosen 2 2)\n(closed 0 0)\n(closed 1 0)\n(closed 2 0)\n(closed 2 1)\n(closed 2 2)\n(closed 3 0)\n(closed 3 1)\n(closed 3 2)\n(end)\n";

// New gives the word.
fn news(
    rt: &impl Print,
    tally: &mut Tally,
    rows: u64,
    columns: u64,
    o: u64,
    d: u64,
    e: u64,
    expected: u64,
) {
    let mut rec = [7u8; 32768];
    let word = talusdish_new(&mut rec, rows, columns, o, d, e);
    tally.hold(rt, word == expected, b"an example of new");
}

// The least and the greatest, and what is past them; where two numbers fit, the first.
fn ranges(rt: &impl Print, tally: &mut Tally) {
    news(rt, tally, 40, 40, 1, 1, 0, 0);
    news(rt, tally, 2, 2, 8, 16, 16, 0);
    news(rt, tally, 1, 2, 1, 1, 0, 2);
    news(rt, tally, 2, 41, 1, 1, 0, 2);
    news(rt, tally, 4294967298, 2, 1, 1, 0, 2);
    news(rt, tally, 2, 2, 2, 5, 0, 3);
    news(rt, tally, 2, 2, 1, 1, 17, 3);
    news(rt, tally, 1, 2, 2, 5, 0, 2);
    let mut short = [7u8; 32767];
    let word = talusdish_new(&mut short, 1, 2, 2, 5, 0);
    tally.hold(rt, word == 1, b"new on a short record");
    tally.hold(rt, same(&short, &[7u8; 32767]), b"a refused new");
}

// All four pins chosen, and the listing of their wires.
const FOUR: [u8; 90] =
    *b"(array (pins 2 2) (caps 1 2 0))\n(chosen 0 0)\n(chosen 0 1)\n(chosen 1 0)\n(chosen 1 1)\n(end)\n";

const FOUR_LISTED: [u8; 140] =
    *b"(wires 4)\n(wire (pin 0 0) (out p 0))\n(wire (pin 0 1) (out p 0))\n(wire (pin 1 0) (out p 0))\n(wire (pin 1 1) (out p 0))\n(length 0)\n(mean 0 0)\n";

// A pin whose wire goes over two sides round an idle pin, and over the rim.
const ROUND: [u8; 135] =
    *b"(array (pins 3 4) (caps 1 2 1))\n(chosen 1 1)\n(closed 0 0)\n(closed 1 0)\n(closed 1 1)\n(laid 0 1 n 1)\n(laid 0 2 n 1)\n(laid 0 2 e 1)\n(end)\n";

// Read text gives the word; the text stands for what came out wrong.
fn reads(rt: &impl Print, tally: &mut Tally, rec: &mut Bytes, text: &[u8], expected: u64) {
    let word = talusdish_read_text(rec, text);
    tally.hold(rt, word == expected, text);
}

// No byte is changed.
fn untouched(rt: &impl Print, tally: &mut Tally, rec: &Bytes) {
    tally.hold(rt, same(rec, &[7u8; 32768]), b"a refused text");
}

fn texts(rt: &impl Print, tally: &mut Tally) {
    let mut rec = [7u8; 32768];
    reads(rt, tally, &mut rec, &EXCHANGED, 256 * 45 + 6);
    reads(rt, tally, &mut rec, b"", 6);
    reads(rt, tally, &mut rec, &AFTER, 256 * 64 + 6);
    untouched(rt, tally, &rec);
    reads(rt, tally, &mut rec, &SIXTY_FOUR, 0);
    let mut short = [7u8; 32767];
    let word = talusdish_read_text(&mut short, &EXCHANGED);
    tally.hold(rt, word == 1, b"a text on a short record");
}

fn writes(rt: &impl Print, tally: &mut Tally, rec: &Bytes, output: &mut [u8], expected: u64) {
    let word = talusdish_write_text(rec, output);
    tally.hold(rt, word == expected, b"an example of write text");
}

// The 64 bytes are written, and nothing where a byte is wanting.
fn written(rt: &impl Print, tally: &mut Tally) {
    let mut rec = [7u8; 32768];
    let mut output = [9u8; 64];
    let mut short = [9u8; 63];
    writes(rt, tally, &rec, &mut output, 1);
    reads(rt, tally, &mut rec, &SIXTY_FOUR, 0);
    writes(rt, tally, &rec, &mut short, 7);
    writes(rt, tally, &rec, &mut output, 256 * 64);
    tally.hold(rt, same(&short, &[9u8; 63]), b"a refused output");
    tally.hold(rt, same(&output, &SIXTY_FOUR), b"the 64 bytes");
}

fn marks(
    rt: &impl Print,
    tally: &mut Tally,
    rec: &mut Bytes,
    row: u64,
    column: u64,
    mark: u64,
    expected: u64,
) {
    let word = talusdish_mark(rec, row, column, mark);
    tally.hold(rt, word == expected, b"an example of mark");
}

fn closes(
    rt: &impl Print,
    tally: &mut Tally,
    rec: &mut Bytes,
    row: u64,
    column: u64,
    state: u64,
    expected: u64,
) {
    let word = talusdish_close(rec, row, column, state);
    tally.hold(rt, word == expected, b"an example of close");
}

fn gives(
    rt: &impl Print,
    tally: &mut Tally,
    rec: &mut Bytes,
    row: u64,
    column: u64,
    d: u64,
    expected: u64,
) {
    let word = talusdish_diagonal(rec, row, column, d);
    tally.hold(rt, word == expected, b"an example of diagonal");
}

// The north side of tile 1 1.
fn lays(rt: &impl Print, tally: &mut Tally, rec: &mut Bytes, count: u64, expected: u64) {
    let word = talusdish_lay(rec, 1, 1, 0, count);
    tally.hold(rt, word == expected, b"an example of lay");
}

fn edits(rt: &impl Print, tally: &mut Tally) {
    let mut rec = [7u8; 32768];
    marks(rt, tally, &mut rec, 2, 0, 3, 1);
    closes(rt, tally, &mut rec, 1, 0, 2, 1);
    reads(rt, tally, &mut rec, &SIXTY_FOUR, 0);
    marks(rt, tally, &mut rec, 2, 0, 3, 4);
    marks(rt, tally, &mut rec, 0, 2, 1, 4);
    marks(rt, tally, &mut rec, 0, 1, 3, 5);
    marks(rt, tally, &mut rec, 0, 1, 2, 0);
    closes(rt, tally, &mut rec, 1, 0, 2, 4);
    closes(rt, tally, &mut rec, 0, 1, 1, 4);
    closes(rt, tally, &mut rec, 0, 0, 2, 5);
    closes(rt, tally, &mut rec, 0, 0, 0, 0);
    gives(rt, tally, &mut rec, 1, 0, 3, 4);
    gives(rt, tally, &mut rec, 0, 0, 3, 3);
    gives(rt, tally, &mut rec, 0, 0, 0, 3);
    gives(rt, tally, &mut rec, 0, 0, 1, 0);
    gives(rt, tally, &mut rec, 0, 0, 2, 0);
}

fn steps(rt: &impl Print, tally: &mut Tally, rec: &mut Bytes, expected: u64) {
    let mut scratch = [1u8; 65536];
    let word = talusdish_step(rec, &mut scratch);
    tally.hold(rt, word == expected, b"an example of step");
}

fn lacks(rt: &impl Print, tally: &mut Tally, rec: &Bytes, expected: u64) {
    let mut scratch = [1u8; 65536];
    let mut output = [2u8; 32768];
    let word = talusdish_shortfall(rec, &mut scratch, &mut output);
    tally.hold(rt, word == expected, b"an example of shortfall");
}

// What Part lists at the index, as a value.
fn lists(
    rt: &impl Print,
    tally: &mut Tally,
    rec: &Bytes,
    row: u64,
    column: u64,
    index: u64,
    value: u64,
) {
    let word = talusdish_part(rec, row, column, index);
    tally.hold(
        rt,
        word / 256 == value && word % 256 == 0,
        b"an example of part",
    );
}

// Part knows no such pin, or it is not chosen.
fn unlisted(rt: &impl Print, tally: &mut Tally, rec: &Bytes, row: u64, column: u64) {
    let word = talusdish_part(rec, row, column, 0);
    tally.hold(rt, word == 4, b"no part");
}

// The 64 bytes: unwired, added, all wired; the pin leaves directly, and no other is chosen.
fn sixty_four(rt: &impl Print, tally: &mut Tally) {
    let mut rec = [7u8; 32768];
    steps(rt, tally, &mut rec, 1);
    lacks(rt, tally, &rec, 1);
    reads(rt, tally, &mut rec, &SIXTY_FOUR, 0);
    lists(rt, tally, &rec, 0, 0, 0, 0);
    steps(rt, tally, &mut rec, 0);
    steps(rt, tally, &mut rec, 256);
    lacks(rt, tally, &rec, 0);
    lists(rt, tally, &rec, 0, 0, 0, 3 + 4 * 6);
    lists(rt, tally, &rec, 0, 0, 1, 1);
    lists(rt, tally, &rec, 0, 0, 18446744073709551615, 1);
    unlisted(rt, tally, &rec, 0, 1);
    unlisted(rt, tally, &rec, 2, 0);
}

// Scratch and output a byte too short; the scratch is named first.
fn too_short(rt: &impl Print, tally: &mut Tally, rec: &mut Bytes) {
    let mut scratch = [1u8; 65536];
    let mut short = [1u8; 65535];
    let mut output = [2u8; 32767];
    let a = talusdish_shortfall(rec, &mut short, &mut output);
    let b = talusdish_shortfall(rec, &mut scratch, &mut output);
    let c = talusdish_step(rec, &mut short);
    tally.hold(rt, a == 8, b"a shortfall with short scratch");
    tally.hold(rt, b == 7, b"a shortfall with a short output");
    tally.hold(rt, c == 8, b"a step with short scratch");
}

// Every tile closed: no wire fits, and one is lacking.
fn shut(rt: &impl Print, tally: &mut Tally) {
    let mut rec = [7u8; 32768];
    reads(rt, tally, &mut rec, &SHUT, 0);
    steps(rt, tally, &mut rec, 512);
    lacks(rt, tally, &rec, 256);
    too_short(rt, tally, &mut rec);
}

// The wires of pins 2 1 and 2 2, place by place: w, c, n, r, s, and the second wire of a side.
fn shared(rt: &impl Print, tally: &mut Tally) {
    let mut rec = [7u8; 32768];
    reads(rt, tally, &mut rec, &SHARED, 0);
    steps(rt, tally, &mut rec, 0);
    steps(rt, tally, &mut rec, 0);
    steps(rt, tally, &mut rec, 256);
    lists(rt, tally, &rec, 2, 1, 0, 2 + 4 * 3 + 1024 + 65536);
    lists(rt, tally, &rec, 2, 1, 1, 2 + 4 * 4 + 1024 + 65536);
    lists(rt, tally, &rec, 2, 1, 2, 2 + 1024 + 65536);
    lists(rt, tally, &rec, 2, 1, 3, 2 + 4 * 5 + 1024 + 65536);
    lists(rt, tally, &rec, 2, 1, 4, 2 + 4 * 2);
    lists(rt, tally, &rec, 2, 1, 7, 3);
    lists(rt, tally, &rec, 2, 1, 8, 1);
    lists(rt, tally, &rec, 2, 2, 2, 2 + 32 + 1024 + 65536);
}

// Edits of these wires. An idle pin that is chosen leaves both; without the wire of pin 2 1 the other has lane 0 of its way to n of tile 1 1; a tile that it
// does not meet leaves it, and a count on the north side of tile 1 1 takes it out.
fn kept(rt: &impl Print, tally: &mut Tally) {
    let mut rec = [7u8; 32768];
    reads(rt, tally, &mut rec, &SHARED, 0);
    steps(rt, tally, &mut rec, 0);
    steps(rt, tally, &mut rec, 0);
    marks(rt, tally, &mut rec, 0, 0, 1, 0);
    lists(rt, tally, &rec, 2, 1, 3, 2 + 4 * 5 + 1024 + 65536);
    lists(rt, tally, &rec, 2, 2, 2, 2 + 32 + 1024 + 65536);
    marks(rt, tally, &mut rec, 2, 1, 0, 0);
    unlisted(rt, tally, &rec, 2, 1);
    lists(rt, tally, &rec, 2, 2, 2, 2 + 1024 + 65536);
    closes(rt, tally, &mut rec, 0, 0, 1, 0);
    lists(rt, tally, &rec, 2, 2, 3, 2 + 4 * 2 + 65536);
    lays(rt, tally, &mut rec, 2, 11);
    lays(rt, tally, &mut rec, 1, 0);
    lists(rt, tally, &rec, 2, 2, 0, 0);
}

// The wire of pin 2 2: w, c and e of tile 1 2, and out to the east.
fn east(rt: &impl Print, tally: &mut Tally) {
    let mut rec = [7u8; 32768];
    reads(rt, tally, &mut rec, &EAST, 0);
    steps(rt, tally, &mut rec, 0);
    steps(rt, tally, &mut rec, 0);
    steps(rt, tally, &mut rec, 0);
    steps(rt, tally, &mut rec, 256);
    lists(rt, tally, &rec, 2, 2, 0, 2 + 4 * 3 + 1024 + 65536 * 2);
    lists(rt, tally, &rec, 2, 2, 1, 2 + 4 * 4 + 1024 + 65536 * 2);
    lists(rt, tally, &rec, 2, 2, 2, 2 + 4 + 1024 + 65536 * 2);
    lists(rt, tally, &rec, 2, 2, 3, 3 + 4);
    lists(rt, tally, &rec, 2, 2, 4, 1);
}

// The listing gives the word, and the output begins so.
fn listed(
    rt: &impl Print,
    tally: &mut Tally,
    rec: &Bytes,
    output: &mut [u8],
    expected: u64,
    begins: &[u8],
) {
    let word = talusdish_listing(rec, output);
    tally.hold(rt, word == expected, b"an example of listing");
    tally.hold(rt, same(span(output, 0, begins.len()), begins), begins);
}

// The listing of four direct exits, and nothing where a byte is wanting.
fn four(rt: &impl Print, tally: &mut Tally) {
    let mut rec = [7u8; 32768];
    let mut output = [9u8; 200];
    let mut short = [9u8; 139];
    reads(rt, tally, &mut rec, &FOUR, 0);
    steps(rt, tally, &mut rec, 0);
    steps(rt, tally, &mut rec, 0);
    steps(rt, tally, &mut rec, 0);
    steps(rt, tally, &mut rec, 0);
    steps(rt, tally, &mut rec, 256);
    listed(rt, tally, &rec, &mut short, 7, &[9u8; 139]);
    listed(rt, tally, &rec, &mut output, 256 * 140, &FOUR_LISTED);
}

fn is_same(a: &Bytes, b: &Bytes) -> bool {
    same(a, b)
}

// The last lines of the listing are these.
fn ends_with(rt: &impl Print, tally: &mut Tally, rec: &Bytes, last: &[u8]) {
    let mut output = [9u8; 1000];
    let word = talusdish_listing(rec, &mut output);
    let from = std::num::wrapping_sub_usize((word / 256) as usize, last.len());
    tally.hold(rt, word % 256 == 0, b"an example of listing");
    tally.hold(rt, same(span(&output, from, last.len()), last), last);
}

// The wire of a pin goes round the pin to its east; once that is missing, an "all wired" leads it past, 14 for two sides, and the next moves nothing.
fn shorter(rt: &impl Print, tally: &mut Tally) {
    let mut rec = [7u8; 32768];
    reads(rt, tally, &mut rec, &ROUND, 0);
    steps(rt, tally, &mut rec, 0);
    steps(rt, tally, &mut rec, 256);
    ends_with(rt, tally, &rec, b"(length 30)\n(mean 30 0)\n");
    marks(rt, tally, &mut rec, 1, 2, 2, 0);
    ends_with(rt, tally, &rec, b"(length 30)\n(mean 30 0)\n");
    steps(rt, tally, &mut rec, 256);
    ends_with(rt, tally, &rec, b"(length 24)\n(mean 24 0)\n");
    let before = rec;
    steps(rt, tally, &mut rec, 256);
    tally.hold(rt, is_same(&rec, &before), b"the next all wired");
}

pub fn examples(rt: &impl Print, tally: &mut Tally) {
    ranges(rt, tally);
    texts(rt, tally);
    written(rt, tally);
    edits(rt, tally);
    sixty_four(rt, tally);
    shut(rt, tally);
    shared(rt, tally);
    kept(rt, tally);
    east(rt, tally);
    four(rt, tally);
    shorter(rt, tally);
}
