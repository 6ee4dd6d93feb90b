// Listings of wires that leave their pin directly, some legal and some not, and what the judge finds wrong with each.
use crate::Judged;
use judge::fault::Fault;
use judge::listing::check_listing;
use oracle_text::job::Job;
use oracle_text::text::read_text;

// A corner pin whose one tile is closed.
const SHUT: [u8; 64] = *b"(array (pins 2 2) (caps 1 2 0))\n(chosen 0 0)\n(closed 0 0)\n(end)\n";

// The same pin with its tile open, and a missing pin.
const OPEN: [u8; 65] = *b"(array (pins 2 2) (caps 1 2 1))\n(chosen 0 0)\n(missing 0 1)\n(end)\n";

// A pin on each of the four rims.
const RIMS: [u8; 90] =
    *b"(array (pins 3 4) (caps 1 1 0))\n(chosen 0 2)\n(chosen 1 0)\n(chosen 1 3)\n(chosen 2 1)\n(end)\n";

// An inner pin, next to the last row and column.
const INNER: [u8; 51] = *b"(array (pins 4 4) (caps 1 2 0))\n(chosen 2 2)\n(end)\n";

// The listing of the job is judged so: its wires have this length, or it has this fault.
fn expect(judged: &mut Judged, text: &[u8], list: &[u8], expected: Result<usize, Fault>) {
    let mut job = Job::BLANK;
    let read = read_text(text, &mut job);
    judged.count(read.is_ok() && check_listing(&job, list) == expected);
}

fn legal(judged: &mut Judged, text: &[u8], list: &[u8], length: usize) {
    expect(judged, text, list, Ok(length));
}

fn faulty(judged: &mut Judged, text: &[u8], list: &[u8], fault: Fault) {
    expect(judged, text, list, Err(fault));
}

// What leaves as it may.
fn allowed(judged: &mut Judged) {
    legal(
        judged,
        &SHUT,
        b"(wires 1)\n(wire (pin 0 0) (out p 0))\n(length 0)\n(mean 0 0)\n",
        0,
    );
    legal(
        judged,
        &OPEN,
        b"(wires 1)\n(wire (pin 0 0) (out p 0))\n(length 0)\n(mean 0 0)\n",
        0,
    );
    legal(
        judged,
        &OPEN,
        b"(wires 1)\n(wire (pin 0 0) (to 0 0 n 0) (out n 0))\n(length 10)\n(mean 10 0)\n",
        10,
    );
    legal(
        judged,
        &RIMS,
        b"(wires 4)\n(wire (pin 0 2) (out p 0))\n(wire (pin 1 0) (out p 0))\n(wire (pin 1 3) (out p 0))\n(wire (pin 2 1) (out p 0))\n(length 0)\n(mean 0 0)\n",
        0,
    );
    legal(
        judged,
        &INNER,
        b"(wires 1)\n(wire (pin 2 2) (to 2 2 n 0) (to 2 2 c 0) (to 2 2 e 0) (out e 0))\n(length 10)\n(mean 10 0)\n",
        10,
    );
}

// Another lane, a second exit, a second wire, or one wire too many in the count.
fn doubled(judged: &mut Judged) {
    faulty(
        judged,
        &SHUT,
        b"(wires 1)\n(wire (pin 0 0) (out p 1))\n",
        Fault::LaneSkipped,
    );
    faulty(
        judged,
        &SHUT,
        b"(wires 1)\n(wire (pin 0 0) (out p 0) (out p 0))\n",
        Fault::WrongForm,
    );
    faulty(
        judged,
        &SHUT,
        b"(wires 1)\n(wire (pin 0 0) (out p 0))\n(wire (pin 0 0) (out p 0))\n",
        Fault::NotEnded,
    );
    faulty(
        judged,
        &SHUT,
        b"(wires 2)\n(wire (pin 0 0) (out p 0))\n(wire (pin 0 0) (out p 0))\n",
        Fault::WrongCount,
    );
}

// An exit from a side that the pin is not, from an inner pin, and after a place or a missing pin.
fn misplaced(judged: &mut Judged) {
    faulty(
        judged,
        &SHUT,
        b"(wires 1)\n(wire (pin 0 0) (out n 0))\n",
        Fault::NoLink,
    );
    faulty(
        judged,
        &INNER,
        b"(wires 1)\n(wire (pin 2 2) (out p 0))\n",
        Fault::NoLink,
    );
    faulty(
        judged,
        &OPEN,
        b"(wires 1)\n(wire (pin 0 0) (to 0 0 n 0) (out p 0))\n",
        Fault::NoLink,
    );
    faulty(
        judged,
        &OPEN,
        b"(wires 1)\n(wire (pin 0 0) (to 0 0 n 0) (to 0 0 c 0) (to 0 0 e 0) (to 0 1 r 0) (out p 0))\n",
        Fault::NoLink,
    );
    faulty(
        judged,
        &OPEN,
        b"(wires 1)\n(wire (pin 0 0) (out p 0) (to 0 0 n 0) (out n 0))\n",
        Fault::WrongForm,
    );
}

pub fn direct(judged: &mut Judged) {
    allowed(judged);
    doubled(judged);
    misplaced(judged);
}
