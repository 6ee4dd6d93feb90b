// Runs the reader and the writer of job text. On the vectors of data/, NAME.job with NAME.expect: a wrong text is refused as the expected line says, and
// one that reads is written again byte for byte. On the examples of document 01, and on lines of laid wires that may not stand. On two texts with one bit
// changed, where the oracle has to agree, and on the texts of random jobs with laid wires, which have to come back. It writes the name of each vector that does not agree, and then the counts, with ok if nothing is wrong.
#![tactic(auto)]

use check::same;
use files::load;
use oracle::lines::refused_listing;
use oracle_text::job::Job;
use oracle_text::page::Page;
use oracle_text::random::{Generator, below, random_job, random_laid, random_own};
use std::io;
use std::io::Write;

// The 64 bytes of document 01's example.
const EXAMPLE: [u8; 64] = *b"(array (pins 2 2) (caps 1 2 0))\n(chosen 0 0)\n(closed 0 0)\n(end)\n";

// Its second and third line exchanged.
const EXCHANGED: [u8; 64] =
    *b"(array (pins 2 2) (caps 1 2 0))\n(closed 0 0)\n(chosen 0 0)\n(end)\n";

// A byte after its end.
const LONGER: [u8; 65] = *b"(array (pins 2 2) (caps 1 2 0))\n(chosen 0 0)\n(closed 0 0)\n(end)\n\n";

// One tile with its own D, and with wires laid on two of its sides.
const ADDED: [u8; 78] =
    *b"(array (pins 2 2) (caps 2 3 0))\n(d 0 0 4)\n(laid 0 0 n 1)\n(laid 0 0 s 2)\n(end)\n";

// An output one byte shorter than the first.
const NARROW: [u8; 63] = [7; 63];

// What is counted.
#[derive(Clone, Copy, PartialEq, Eq)]
enum Kind {
    Refused,
    Read,
    Changed,
    Random,
    Wrong,
}

// How many came out as each kind.
#[derive(Drop)]
struct Counts {
    refused: u64,
    read: u64,
    changed: u64,
    random: u64,
    wrong: u64,
}

impl Counts {
    fn count(&mut self, kind: Kind) {
        let n = match kind {
            Kind::Refused => &mut self.refused,
            Kind::Read => &mut self.read,
            Kind::Changed => &mut self.changed,
            Kind::Random => &mut self.random,
            Kind::Wrong => &mut self.wrong,
        };
        *n = n.wrapping_add(1);
    }

    // Counts the kind where it is right, and else that something is wrong.
    fn count_right(&mut self, right: bool, kind: Kind) {
        self.count(if right { kind } else { Kind::Wrong });
    }
}

type Buffer = [u8; 262144];

// Why a text did not come back: it is refused at an offset, or there is too little room to write it.
#[derive(Clone, Copy, PartialEq, Eq)]
enum Failure {
    Refused(usize),
    Short,
}

// The text read into a record, and written again if it reads; gives the length.
fn again(text: &[u8], out: &mut [u8]) -> Result<usize, Failure> {
    let mut rec = [0u8; 32768];
    if let Err(wrong) = text::read_into(text, &mut rec) {
        return Err(Failure::Refused(wrong.offset));
    }
    text::write_text(&rec, out).ok_or(Failure::Short)
}

// The first `n` bytes of `s`, and all where it has fewer.
fn first(s: &[u8], n: usize) -> &[u8] {
    &s[..n.min(s.len())]
}

// The text reads, and comes back byte for byte.
fn comes_back(text: &[u8]) -> bool {
    let mut copy = [0u8; 262144];
    match again(text, &mut copy) {
        Ok(n) => same(first(&copy, n), text),
        Err(_) => false,
    }
}

// A text that reads is not written: there is no room.
fn is_refused(text: &[u8], offset: usize) -> bool {
    again(text, &mut []) == Err(Failure::Refused(offset))
}

// An output without room is refused, and keeps every byte.
fn keeps(text: &[u8; 64]) -> bool {
    let mut out = NARROW;
    again(text, &mut out) == Err(Failure::Short) && same(&out, &NARROW)
}

// Reads the file of the vector `name` that has this ending.
fn load_vector<'a>(
    rt: &HostRuntime,
    name: &[u8],
    ending: &[u8],
    buffer: &'a mut Buffer,
) -> &'a [u8] {
    let mut path = Page::EMPTY;
    path.word(name);
    path.word(ending);
    load(rt, path.text(), buffer)
}

// The expected line is that of a refusal at this offset.
fn is_refusal(expected: &[u8], offset: usize) -> bool {
    let mut line = Page::EMPTY;
    refused_listing(offset, &mut line);
    same(line.text(), expected)
}

// One vector: its refusal is as expected, or it comes back and no refusal is expected.
fn vector(rt: &HostRuntime, name: &[u8]) -> Kind {
    let mut text = [0u8; 262144];
    let mut expected = [0u8; 262144];
    let mut copy = [0u8; 262144];
    let text = load_vector(rt, name, b".job", &mut text);
    let expected = load_vector(rt, name, b".expect", &mut expected);
    match again(text, &mut copy) {
        Err(Failure::Refused(offset)) if is_refusal(expected, offset) => Kind::Refused,
        Ok(n) if same(text, first(&copy, n)) && !expected.starts_with(b"(refused ") => Kind::Read,
        _ => Kind::Wrong,
    }
}

// The vector STEM with the number k, of two digits.
fn numbered(rt: &HostRuntime, counts: &mut Counts, stem: &[u8], k: usize) -> io::Result<()> {
    let mut name = Page::EMPTY;
    name.word(stem);
    if k < 10 {
        name.push(b'0');
    }
    name.decimal(k);
    let kind = vector(rt, name.text());
    counts.count(kind);
    if kind == Kind::Wrong {
        rt.stdout().write_all(name.text())?;
        println!(rt)?;
    }
    Ok(())
}

// The first `n` vectors of the stem.
fn series(rt: &HostRuntime, counts: &mut Counts, stem: &[u8], n: usize) -> io::Result<()> {
    for k in 0..n {
        numbered(rt, counts, stem, k)?;
    }
    Ok(())
}

fn vectors(rt: &HostRuntime, counts: &mut Counts) -> io::Result<()> {
    series(rt, counts, b"text0", 60)?;
    series(rt, counts, b"K2/job", 16)?;
    series(rt, counts, b"K2/text", 4)?;
    series(rt, counts, b"K3/job", 12)?;
    series(rt, counts, b"K3/text", 8)?;
    series(rt, counts, b"K7/job", 12)?;
    series(rt, counts, b"K7/text", 8)?;
    series(rt, counts, b"K9/job", 14)?;
    series(rt, counts, b"K9/text", 6)
}

// The examples that document 01 gives, and an output that is too short for the first.
fn examples(counts: &mut Counts) {
    counts.count_right(comes_back(&EXAMPLE), Kind::Read);
    counts.count_right(comes_back(&ADDED), Kind::Read);
    counts.count_right(is_refused(&EXCHANGED, 45), Kind::Refused);
    counts.count_right(is_refused(b"", 0), Kind::Refused);
    counts.count_right(is_refused(&LONGER, 64), Kind::Refused);
    counts.count_right(keeps(&EXAMPLE), Kind::Refused);
}

// The oracle says of the text what the reader says.
fn agrees(text: &[u8]) -> bool {
    let mut job = Job::BLANK;
    match oracle_text::text::read_text(text, &mut job) {
        Ok(()) => comes_back(text),
        Err(refused) => is_refused(text, refused.at),
    }
}

// The text with lines behind the array line of three rows and columns, O 2, is refused at an offset, and the oracle agrees.
fn wrong(counts: &mut Counts, lines: &[u8], offset: usize) {
    let mut page = Page::EMPTY;
    page.word(b"(array (pins 3 3) (caps 2 3 1))\n");
    page.word(lines);
    page.word(b"(end)\n");
    let right = is_refused(page.text(), offset) && agrees(page.text());
    counts.count_right(right, Kind::Refused);
}

// Lines of laid wires that are none: counts, letters, parts and numbers that may not stand.
fn wrong_forms(counts: &mut Counts) {
    wrong(counts, b"(laid 0 0 n 0)\n", 32);
    wrong(counts, b"(laid 0 0 n 3)\n", 32);
    wrong(counts, b"(laid 0 0 n 01)\n", 32);
    wrong(counts, b"(laid 0 0 n 100)\n", 32);
    wrong(counts, b"(laid 0 0 n -1)\n", 32);
    wrong(counts, b"(laid 0 0 ne 1)\n", 32);
    wrong(counts, b"(laid 0 0 x 1)\n", 32);
    wrong(counts, b"(laid 0 0 N 1)\n", 32);
    wrong(counts, b"(laid 0 0 0 1)\n", 32);
    wrong(counts, b"(laid 0 0 n)\n", 32);
    wrong(counts, b"(laid 0 0 1)\n", 32);
    wrong(counts, b"(laid 0 n 1)\n", 32);
    wrong(counts, b"(laid 0 0 n  1)\n", 32);
    wrong(counts, b"(laid 0 0 n 1 )\n", 32);
    wrong(counts, b"(laid 00 0 n 1)\n", 32);
    wrong(counts, b"(laid 0 0 n 1)", 32);
    wrong(counts, b"(laids 0 0 n 1)\n", 32);
}

// Lines of laid wires that name no side, or a side of another tile, or stand out of their order.
fn wrong_sides(counts: &mut Counts) {
    wrong(counts, b"(laid 2 0 s 1)\n", 32);
    wrong(counts, b"(laid 0 2 e 1)\n", 32);
    wrong(counts, b"(laid 1 0 n 1)\n", 32);
    wrong(counts, b"(laid 0 1 w 1)\n", 32);
    wrong(counts, b"(laid 0 0 e 1)\n(laid 0 0 n 1)\n", 47);
    wrong(counts, b"(laid 0 0 s 1)\n(laid 0 0 s 1)\n", 47);
    wrong(counts, b"(laid 0 1 n 1)\n(laid 0 0 s 1)\n", 47);
    wrong(counts, b"(laid 1 0 e 1)\n(laid 0 1 e 1)\n", 47);
    wrong(counts, b"(laid 0 0 n 1)\n(closed 1 1)\n", 47);
    wrong(counts, b"(laid 0 0 n 1)\n(chosen 1 1)\n", 47);
}

// Lines of an own D that are none: values that no tile may have of its own, parts and numbers that may not stand, and lines out of their order.
fn wrong_owns(counts: &mut Counts) {
    wrong(counts, b"(d 0 0 3)\n", 32);
    wrong(counts, b"(d 0 0 1)\n", 32);
    wrong(counts, b"(d 0 0 5)\n", 32);
    wrong(counts, b"(d 0 0 0)\n", 32);
    wrong(counts, b"(d 0 0 04)\n", 32);
    wrong(counts, b"(d 0 0 104)\n", 32);
    wrong(counts, b"(d 0 0)\n", 32);
    wrong(counts, b"(d 0 0 n 4)\n", 32);
    wrong(counts, b"(d 0 0 4 )\n", 32);
    wrong(counts, b"(d  0 0 4)\n", 32);
    wrong(counts, b"(D 0 0 4)\n", 32);
    wrong(counts, b"(d 2 0 4)\n", 32);
    wrong(counts, b"(d 0 2 4)\n", 32);
    wrong(counts, b"(d 0 0 4)\n(d 0 0 2)\n", 42);
    wrong(counts, b"(d 0 1 4)\n(d 0 0 4)\n", 42);
    wrong(counts, b"(d 0 0 4)\n(closed 1 1)\n", 42);
    wrong(counts, b"(laid 0 0 n 1)\n(d 0 0 4)\n", 47);
}

// The text with each of its bits changed in turn: the oracle agrees with the reader.
fn changes<const N: usize>(counts: &mut Counts, text: &[u8; N]) {
    let mut changed = *text;
    for k in 0..N {
        for bit in 0..8u32 {
            changed[k] ^= 1 << bit;
            counts.count_right(agrees(&changed), Kind::Changed);
            changed[k] ^= 1 << bit;
        }
    }
}

// The text of a random job with laid wires and tiles that have their own D.
fn draw(counts: &mut Counts, generator: &mut Generator) {
    let mut job = Job::BLANK;
    let mut page = Page::EMPTY;
    random_job(generator, 40, &mut job);
    let laid = below(generator.last, 1001);
    random_laid(generator, laid, &mut job);
    let own = below(generator.last, 1001);
    random_own(generator, own, &mut job);
    oracle_text::text::write_text(&job, &mut page);
    counts.count_right(comes_back(page.text()), Kind::Random);
}

fn draws(counts: &mut Counts) {
    let mut generator = Generator::new(2463534242);
    for _ in 0..100 {
        draw(counts, &mut generator);
    }
}

fn main(rt: HostRuntime) -> io::Result<()> {
    let mut counts = Counts {
        refused: 0,
        read: 0,
        changed: 0,
        random: 0,
        wrong: 0,
    };
    vectors(&rt, &mut counts)?;
    examples(&mut counts);
    wrong_forms(&mut counts);
    wrong_sides(&mut counts);
    wrong_owns(&mut counts);
    changes(&mut counts, &EXAMPLE);
    changes(&mut counts, &ADDED);
    draws(&mut counts);
    print!(rt; "refused {}", counts.refused)?;
    print!(rt; " read {}", counts.read)?;
    print!(rt; " changed {}", counts.changed)?;
    print!(rt; " random {}", counts.random)?;
    if counts.wrong == 0 {
        println!(rt; " ok")
    } else {
        println!(rt; " wrong {}", counts.wrong)
    }
}
