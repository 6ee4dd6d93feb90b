// Least lengths: of jobs where they are known, of listings with a wrong total or more than the least, and of random jobs, where no change of the wires round a loop
// may take anything off.
use crate::Judged;
use judge::fault::Fault;
use judge::listing::check_least;
use oracle::near::shortfall;
use oracle_length::least::{is_settled, least_length};
use oracle_text::job::Job;
use oracle_text::random::{Generator, random_job, random_laid, random_own};
use oracle_text::text::read_text;

// Two pins that leave over the same rim side, which takes one wire: the other goes on past the rim side that is taken, to the next.
const CROWDED: [u8; 144] =
    *b"(array (pins 3 5) (caps 1 2 0))\n(chosen 1 1)\n(chosen 1 2)\n(closed 0 0)\n(closed 1 0)\n(closed 1 1)\n(closed 1 2)\n(closed 1 3)\n(laid 0 2 n 1)\n(end)\n";

// Each of the two alone.
const FIRST: [u8; 131] =
    *b"(array (pins 3 5) (caps 1 2 0))\n(chosen 1 1)\n(closed 0 0)\n(closed 1 0)\n(closed 1 1)\n(closed 1 2)\n(closed 1 3)\n(laid 0 2 n 1)\n(end)\n";

const SECOND: [u8; 131] =
    *b"(array (pins 3 5) (caps 1 2 0))\n(chosen 1 2)\n(closed 0 0)\n(closed 1 0)\n(closed 1 1)\n(closed 1 2)\n(closed 1 3)\n(laid 0 2 n 1)\n(end)\n";

// A wire that passes a missing pin, and one that goes round the pin where it is there.
const PAST: [u8; 149] =
    *b"(array (pins 3 4) (caps 1 2 1))\n(chosen 1 1)\n(missing 1 2)\n(closed 0 0)\n(closed 1 0)\n(closed 1 1)\n(laid 0 1 n 1)\n(laid 0 2 n 1)\n(laid 0 2 e 1)\n(end)\n";

const ROUND: [u8; 135] =
    *b"(array (pins 3 4) (caps 1 2 1))\n(chosen 1 1)\n(closed 0 0)\n(closed 1 0)\n(closed 1 1)\n(laid 0 1 n 1)\n(laid 0 2 n 1)\n(laid 0 2 e 1)\n(end)\n";

// Tile 0 0 alone open, an inner pin and two on the rim.
const THREE: [u8; 116] =
    *b"(array (pins 3 3) (caps 1 1 0))\n(chosen 0 0)\n(chosen 1 0)\n(chosen 1 1)\n(closed 0 1)\n(closed 1 0)\n(closed 1 1)\n(end)\n";

// Every tile closed.
const SHUT: [u8; 103] =
    *b"(array (pins 3 3) (caps 1 2 0))\n(chosen 1 1)\n(closed 0 0)\n(closed 0 1)\n(closed 1 0)\n(closed 1 1)\n(end)\n";

// Nothing chosen.
const NOTHING: [u8; 52] = *b"(array (pins 2 2) (caps 1 2 0))\n(missing 0 1)\n(end)\n";

// A corner pin, and two pins of the rim.
const CORNER: [u8; 51] = *b"(array (pins 2 2) (caps 1 2 0))\n(chosen 0 0)\n(end)\n";

const PAIR: [u8; 64] = *b"(array (pins 2 2) (caps 2 4 0))\n(chosen 0 0)\n(chosen 0 1)\n(end)\n";

// The job has this least length.
fn measures(judged: &mut Judged, text: &[u8], length: Option<usize>) {
    let mut job = Job::BLANK;
    let read = read_text(text, &mut job);
    judged.count(read.is_ok() && least_length(&job) == length && is_settled(&job));
}

// The listing is judged so, where its wires have to have the least length.
fn finds(judged: &mut Judged, text: &[u8], list: &[u8], expected: Result<usize, Fault>) {
    let mut job = Job::BLANK;
    let read = read_text(text, &mut job);
    judged.count(read.is_ok() && check_least(&job, list) == expected);
}

fn known(judged: &mut Judged) {
    measures(judged, &CROWDED, Some(30));
    measures(judged, &FIRST, Some(10));
    measures(judged, &SECOND, Some(10));
    measures(judged, &PAST, Some(24));
    measures(judged, &ROUND, Some(30));
    measures(judged, &THREE, Some(10));
    measures(judged, &SHUT, None);
    measures(judged, &NOTHING, Some(0));
    measures(judged, &CORNER, Some(0));
}

// No lines, one of them, a wrong total, a wrong mean, a mean without remainder, and a byte behind them.
fn totals(judged: &mut Judged) {
    finds(
        judged,
        &CORNER,
        b"(wires 1)\n(wire (pin 0 0) (out p 0))\n",
        Err(Fault::NotEnded),
    );
    finds(
        judged,
        &CORNER,
        b"(wires 1)\n(wire (pin 0 0) (out p 0))\n(length 0)\n",
        Err(Fault::WrongTotal),
    );
    finds(
        judged,
        &CORNER,
        b"(wires 1)\n(wire (pin 0 0) (out p 0))\n(length 10)\n(mean 10 0)\n",
        Err(Fault::WrongTotal),
    );
    finds(
        judged,
        &CORNER,
        b"(wires 1)\n(wire (pin 0 0) (out p 0))\n(length 0)\n(mean 0 1)\n",
        Err(Fault::WrongTotal),
    );
    finds(
        judged,
        &CORNER,
        b"(wires 1)\n(wire (pin 0 0) (out p 0))\n(length 0)\n(mean 0)\n",
        Err(Fault::WrongTotal),
    );
    finds(
        judged,
        &CORNER,
        b"(wires 1)\n(wire (pin 0 0) (out p 0))\n(length 0)\n(mean 0 0)\n\n",
        Err(Fault::WrongTotal),
    );
}

// The least length, and a legal wire by a side where the pin could leave directly.
fn least(judged: &mut Judged) {
    finds(
        judged,
        &NOTHING,
        b"(wires 0)\n(length 0)\n(mean 0 0)\n",
        Ok(0),
    );
    finds(
        judged,
        &CORNER,
        b"(wires 1)\n(wire (pin 0 0) (out p 0))\n(length 0)\n(mean 0 0)\n",
        Ok(0),
    );
    finds(
        judged,
        &CORNER,
        b"(wires 1)\n(wire (pin 0 0) (to 0 0 n 0) (out n 0))\n(length 10)\n(mean 10 0)\n",
        Err(Fault::NotLeast),
    );
    finds(
        judged,
        &PAIR,
        b"(wires 2)\n(wire (pin 0 0) (to 0 0 n 0) (out n 0))\n(wire (pin 0 1) (out p 0))\n(length 10)\n(mean 5 0)\n",
        Err(Fault::NotLeast),
    );
}

pub fn examples(judged: &mut Judged) {
    known(judged);
    totals(judged);
    least(judged);
}

// What random jobs came to: their least length is settled; it is not, or there is one where the job is short or none where it is not; they cannot be wired.
#[derive(Drop)]
pub struct Drawn {
    pub settled: u64,
    pub wrong: u64,
    pub unwired: u64,
}

impl Drawn {
    fn judge(&mut self, job: &Job) {
        let mut near = [0u8; 32768];
        let missed = shortfall(job, &mut near);
        if least_length(job).is_none() != (missed > 0) {
            self.wrong = self.wrong.wrapping_add(1);
        } else if missed > 0 {
            self.unwired = self.unwired.wrapping_add(1);
        } else if is_settled(job) {
            self.settled = self.settled.wrapping_add(1);
        } else {
            self.wrong = self.wrong.wrapping_add(1);
        }
    }
}

// How many rows and columns the k-th job has at most.
fn size(k: usize) -> usize {
    if k % 64 == 63 { 40 } else { 12 }
}

// Jobs at random, with wires already laid on some sides and with own Ds.
pub fn random() -> Drawn {
    let mut drawn = Drawn {
        settled: 0,
        wrong: 0,
        unwired: 0,
    };
    let mut generator = Generator::new(362436069);
    for k in 0..512 {
        let mut job = Job::BLANK;
        random_job(&mut generator, size(k), &mut job);
        random_laid(&mut generator, 100, &mut job);
        random_own(&mut generator, 100, &mut job);
        drawn.judge(&job);
    }
    drawn
}
