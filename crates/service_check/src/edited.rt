// Examples of K5, K7 and K8: three wires by one side of a tile, what edits leave of them, and what an "all wired" makes of them once a shorter way is open.
use crate::examples::{read_into, steps};
use check::same;
use compare::listed::{Page, listed, shown};
use compare::said::{ADDED, ALL_WIRED, Answer, DONE, is};
use verdict::bytes::{Tally, rest};

type Bytes = [u8; 32768];

// Three open tiles one below the other; three wires fit by each side.
const CHANNEL: [u8; 194] =
    *b"(array (pins 5 4) (caps 3 6 0))\n(chosen 2 2)\n(chosen 3 1)\n(chosen 3 2)\n(closed 0 0)\n(closed 0 2)\n(closed 1 0)\n(closed 1 2)\n(closed 2 0)\n(closed 2 2)\n(closed 3 0)\n(closed 3 1)\n(closed 3 2)\n(end)\n";

// Its wires. On the north side of tile 1 1 those of pins 3 1, 3 2 and 2 2 have the lanes 0, 1 and 2.
const ALL: [u8; 414] =
    *b"(wires 3)\n(wire (pin 2 2) (to 1 1 s 0) (to 1 1 e 0) (to 1 1 n 0) (to 0 1 s 2) (to 0 1 e 0) (to 0 1 n 0) (out n 2))\n(wire (pin 3 1) (to 2 1 w 0) (to 2 1 n 0) (to 1 1 s 0) (to 1 1 w 0) (to 1 1 n 0) (to 0 1 s 0) (to 0 1 w 0) (to 0 1 n 0) (out n 0))\n(wire (pin 3 2) (to 2 1 s 0) (to 2 1 e 0) (to 2 1 n 0) (to 1 1 s 1) (to 1 1 c 0) (to 1 1 n 0) (to 0 1 s 1) (to 0 1 c 0) (to 0 1 n 0) (out n 1))\n(length 80)\n(mean 26 2)\n";

// Without that in lane 0: the lanes of the others shrink.
const WITHOUT_FIRST: [u8; 283] =
    *b"(wires 2)\n(wire (pin 2 2) (to 1 1 s 0) (to 1 1 e 0) (to 1 1 n 0) (to 0 1 s 1) (to 0 1 e 0) (to 0 1 n 0) (out n 1))\n(wire (pin 3 2) (to 2 1 s 0) (to 2 1 e 0) (to 2 1 n 0) (to 1 1 s 0) (to 1 1 c 0) (to 1 1 n 0) (to 0 1 s 0) (to 0 1 c 0) (to 0 1 n 0) (out n 0))\n(length 50)\n(mean 25 0)\n";

// Without that in lane 2.
const WITHOUT_LAST: [u8; 309] =
    *b"(wires 2)\n(wire (pin 3 1) (to 2 1 w 0) (to 2 1 n 0) (to 1 1 s 0) (to 1 1 w 0) (to 1 1 n 0) (to 0 1 s 0) (to 0 1 w 0) (to 0 1 n 0) (out n 0))\n(wire (pin 3 2) (to 2 1 s 0) (to 2 1 e 0) (to 2 1 n 0) (to 1 1 s 1) (to 1 1 c 0) (to 1 1 n 0) (to 0 1 s 1) (to 0 1 c 0) (to 0 1 n 0) (out n 1))\n(length 60)\n(mean 30 0)\n";

// Without that through the centre of tile 1 1.
const WITHOUT_MIDDLE: [u8; 270] =
    *b"(wires 2)\n(wire (pin 2 2) (to 1 1 s 0) (to 1 1 e 0) (to 1 1 n 0) (to 0 1 s 1) (to 0 1 e 0) (to 0 1 n 0) (out n 1))\n(wire (pin 3 1) (to 2 1 w 0) (to 2 1 n 0) (to 1 1 s 0) (to 1 1 w 0) (to 1 1 n 0) (to 0 1 s 0) (to 0 1 w 0) (to 0 1 n 0) (out n 0))\n(length 50)\n(mean 25 0)\n";

// That in lane 0 alone.
const FIRST: [u8; 165] =
    *b"(wires 1)\n(wire (pin 3 1) (to 2 1 w 0) (to 2 1 n 0) (to 1 1 s 0) (to 1 1 w 0) (to 1 1 n 0) (to 0 1 s 0) (to 0 1 w 0) (to 0 1 n 0) (out n 0))\n(length 30)\n(mean 30 0)\n";

// That of pin 2 2 alone.
const ONLY_LAST: [u8; 139] =
    *b"(wires 1)\n(wire (pin 2 2) (to 1 1 s 0) (to 1 1 e 0) (to 1 1 n 0) (to 0 1 s 0) (to 0 1 e 0) (to 0 1 n 0) (out n 0))\n(length 20)\n(mean 20 0)\n";

// A direct exit.
const DIRECT: [u8; 59] = *b"(wires 1)\n(wire (pin 0 1) (out p 0))\n(length 0)\n(mean 0 0)\n";

// No wire.
const NONE: [u8; 32] = *b"(wires 0)\n(length 0)\n(mean 0 0)\n";

// The record has these wires.
fn leaves(rt: &impl Print, tally: &mut Tally, rec: &Bytes, wires: &[u8]) {
    let mut page: Page = [0u8; 1048576];
    let n = listed(rec, &mut page);
    tally.hold(rt, same(shown(&page, n), wires), wires);
}

// An edit of a pin leaves these wires.
fn mark(
    rt: &impl Print,
    tally: &mut Tally,
    rec: &mut Bytes,
    row: usize,
    column: usize,
    value: usize,
    wires: &[u8],
) {
    let answer = Answer::from(service::mark(rec, row, column, value));
    tally.hold(rt, is(answer, DONE, 0), b"an example of mark");
    leaves(rt, tally, rec, wires);
}

fn close(
    rt: &impl Print,
    tally: &mut Tally,
    rec: &mut Bytes,
    row: usize,
    column: usize,
    value: usize,
    wires: &[u8],
) {
    let answer = Answer::from(service::close(rec, row, column, value));
    tally.hold(rt, is(answer, DONE, 0), b"an example of close");
    leaves(rt, tally, rec, wires);
}

// The side of tile 1 1 with this code.
fn lay(
    rt: &impl Print,
    tally: &mut Tally,
    rec: &mut Bytes,
    side: usize,
    count: usize,
    wires: &[u8],
) {
    let answer = Answer::from(service::lay(rec, 1, 1, side, count));
    tally.hold(rt, is(answer, DONE, 0), b"an example of lay");
    leaves(rt, tally, rec, wires);
}

// The D of tile 1 1.
fn give(rt: &impl Print, tally: &mut Tally, rec: &mut Bytes, d: usize, wires: &[u8]) {
    let answer = Answer::from(service::diagonal(rec, 1, 1, d));
    tally.hold(rt, is(answer, DONE, 0), b"an example of diagonal");
    leaves(rt, tally, rec, wires);
}

// The record with its three wires.
fn wired(rt: &impl Print, tally: &mut Tally) -> Bytes {
    let mut rec = [7u8; 32768];
    read_into(rt, tally, &mut rec, &CHANNEL);
    steps(rt, tally, &mut rec, ADDED);
    steps(rt, tally, &mut rec, ADDED);
    steps(rt, tally, &mut rec, ADDED);
    leaves(rt, tally, &rec, &ALL);
    rec
}

// Choosing an idle pin, making one missing and opening a tile take out none; nor does a count that leaves room, or a lower one.
fn none_goes(rt: &impl Print, tally: &mut Tally) {
    let mut rec = wired(rt, tally);
    mark(rt, tally, &mut rec, 2, 1, 1, &ALL);
    mark(rt, tally, &mut rec, 1, 1, 2, &ALL);
    close(rt, tally, &mut rec, 2, 2, 0, &ALL);
    lay(rt, tally, &mut rec, 1, 3, &ALL);
    lay(rt, tally, &mut rec, 1, 2, &ALL);
}

// The wire of an edited pin goes; chosen again, it takes one step to wire it.
fn pin_goes(rt: &impl Print, tally: &mut Tally) {
    let mut rec = wired(rt, tally);
    mark(rt, tally, &mut rec, 3, 1, 2, &WITHOUT_FIRST);
    mark(rt, tally, &mut rec, 3, 1, 1, &WITHOUT_FIRST);
    steps(rt, tally, &mut rec, ADDED);
    steps(rt, tally, &mut rec, ALL_WIRED);
}

// The highest lanes go, just enough; a lower count brings none back.
fn lanes_go(rt: &impl Print, tally: &mut Tally) {
    let mut rec = wired(rt, tally);
    lay(rt, tally, &mut rec, 0, 1, &WITHOUT_LAST);
    lay(rt, tally, &mut rec, 0, 2, &FIRST);
    lay(rt, tally, &mut rec, 0, 3, &NONE);
    lay(rt, tally, &mut rec, 0, 0, &NONE);
}

// The wires through a closed tile go: all but that of pin 2 2 through tile 2 1, and all through tile 1 1.
fn tile_goes(rt: &impl Print, tally: &mut Tally) {
    let mut rec = wired(rt, tally);
    mark(rt, tally, &mut rec, 3, 1, 0, &WITHOUT_FIRST);
    close(rt, tally, &mut rec, 2, 1, 1, &ONLY_LAST);
    close(rt, tally, &mut rec, 1, 1, 1, &NONE);
}

// The D in force changes nothing; another, lower or higher, takes out the wire through the centre of the tile, and none that goes round it.
fn middle_goes(rt: &impl Print, tally: &mut Tally) {
    let mut rec = wired(rt, tally);
    give(rt, tally, &mut rec, 6, &ALL);
    give(rt, tally, &mut rec, 5, &WITHOUT_MIDDLE);
    steps(rt, tally, &mut rec, ADDED);
    leaves(rt, tally, &rec, &ALL);
    give(rt, tally, &mut rec, 5, &ALL);
    give(rt, tally, &mut rec, 6, &WITHOUT_MIDDLE);
}

// The direct exit of a closed tile's corner pin stays.
fn direct_stays(rt: &impl Print, tally: &mut Tally) {
    let mut rec = wired(rt, tally);
    mark(rt, tally, &mut rec, 0, 1, 1, &ALL);
    steps(rt, tally, &mut rec, ADDED);
    close(rt, tally, &mut rec, 0, 1, 1, &DIRECT);
}

fn is_same(a: &Bytes, b: &Bytes) -> bool {
    same(a, b)
}

// The listing of the record ends so.
fn ends(rt: &impl Print, tally: &mut Tally, rec: &Bytes, total: &[u8]) {
    let mut page: Page = [0u8; 1048576];
    let n = listed(rec, &mut page);
    let from = std::num::wrapping_sub_usize(n, total.len());
    tally.hold(rt, same(rest(shown(&page, n), from), total), total);
}

// A tile is opened to the east of the three wires: they stay as they are until a step says "all wired", which leaves 10 for the pins 2 2 and 3 2 and 20 for the pin
// 3 1. The next one moves nothing.
fn shortens(rt: &impl Print, tally: &mut Tally) {
    let mut rec = wired(rt, tally);
    close(rt, tally, &mut rec, 2, 2, 0, &ALL);
    ends(rt, tally, &rec, b"(length 80)\n(mean 26 2)\n");
    steps(rt, tally, &mut rec, ALL_WIRED);
    ends(rt, tally, &rec, b"(length 40)\n(mean 13 1)\n");
    let before = rec;
    steps(rt, tally, &mut rec, ALL_WIRED);
    tally.hold(rt, is_same(&rec, &before), b"an example's next all wired");
}

pub fn edited(rt: &impl Print, tally: &mut Tally) {
    none_goes(rt, tally);
    pin_goes(rt, tally);
    lanes_go(rt, tally);
    tile_goes(rt, tally);
    middle_goes(rt, tally);
    direct_stays(rt, tally);
    shortens(rt, tally);
}
