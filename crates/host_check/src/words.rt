// What a word says, by include/talusdish.h: 256 times a value, and a code.
use check::same;
use compare::said::{Answer, put_listed};
use oracle_text::page::Page as Sheet;
use service::{Refusal, Stepped, Verdict};
use verdict::bytes::line;
use wire::Part;

// The letter of a place by its number.
fn letter(place: usize) -> u8 {
    match place {
        0 => b'n',
        1 => b'e',
        2 => b's',
        3 => b'w',
        4 => b'c',
        5 => b'r',
        6 => b'p',
        _ => b'?',
    }
}

// The place and the lane of a value.
fn lettered(out: &mut Sheet, value: usize) {
    out.push(letter(value / 4 % 8));
    out.push(b' ');
    out.decimal(value / 32 % 32);
    out.push(b')');
}

// The part of a value as the listing prints it, and nothing where the value is of none.
fn put_value(out: &mut Sheet, value: usize) {
    if value == 0 {
        out.word(b"unwired");
    } else if value == 1 {
        out.word(b"past");
    } else if value % 4 == 3 && value < 1024 {
        out.word(b" (out ");
        lettered(out, value);
    } else if value % 4 == 2 && value < 4194304 {
        out.word(b" (to ");
        out.pair(value / 1024 % 64, value / 65536);
        out.push(b' ');
        lettered(out, value);
    }
}

// The value is of the part that Part answers with.
fn lists(value: usize, answer: Answer) -> bool {
    let mut read = Sheet::EMPTY;
    let mut printed = Sheet::EMPTY;
    put_value(&mut read, value);
    put_listed(&mut printed, answer);
    same(read.text(), printed.text())
}

// The word says what the answer says.
pub fn says(w: u64, answer: Answer) -> bool {
    let code = (w % 256) as usize;
    let value = (w / 256) as usize;
    match answer {
        Answer::Refused(Refusal::WrongText { offset }) => code == 6 && value == offset,
        Answer::Refused(refusal) => code == refusal.number() && value == 0,
        Answer::Done => code == 0 && value == 0,
        Answer::Stepped(Stepped::Added) => code == 0 && value == 0,
        Answer::Stepped(Stepped::AllWired) => code == 0 && value == 1,
        Answer::Stepped(Stepped::Short) => code == 0 && value == 2,
        Answer::Lacks(k) => code == 0 && value == k,
        Answer::Lists(_) => code == 0 && lists(value, answer),
        Answer::Wrote(n) => code == 0 && value == n,
        Answer::Judged(Verdict::Carried) => code == 0 && value == 0,
        Answer::Judged(Verdict::Fails { row, column }) => {
            code == 0 && value % 1024 == 1 && value / 1024 % 64 == row && value / 65536 == column
        }
    }
}

// How often each kind of answer occurs.
pub type Counts = [u64; 22];

fn part_kind(part: Part) -> usize {
    match part {
        Part::Unwired => 14,
        Part::PastTheEnd => 15,
        Part::To {
            row: _,
            column: _,
            place: _,
            lane,
        } => { if lane == 0 { 16 } else { 17 } }
        Part::Out { side: _, lane } => { if lane == 0 { 18 } else { 19 } }
    }
}

// Where an answer is counted: a refusal at its number, those from 9 on together.
fn kind(answer: Answer) -> usize {
    match answer {
        Answer::Refused(refusal) => {
            if refusal.number() < 9 {
                refusal.number()
            } else {
                21
            }
        }
        Answer::Done => 9,
        Answer::Stepped(Stepped::Added) => 10,
        Answer::Stepped(Stepped::AllWired) => 11,
        Answer::Stepped(Stepped::Short) => 12,
        Answer::Lacks(_) => 13,
        Answer::Lists(part) => part_kind(part),
        Answer::Wrote(_) => 20,
        Answer::Judged(_) => 22,
    }
}

pub fn count(counts: &mut Counts, answer: Answer) {
    let k = kind(answer);
    if k < 22 {
        counts[k] = std::num::wrapping_add_u64(counts[k], 1);
    }
}

pub fn tell_counts(rt: &impl Print, counts: &Counts) {
    line(rt, b"refused 1", counts[1]);
    line(rt, b"refused 2", counts[2]);
    line(rt, b"refused 3", counts[3]);
    line(rt, b"refused 4", counts[4]);
    line(rt, b"refused 5", counts[5]);
    line(rt, b"refused 6", counts[6]);
    line(rt, b"refused 7", counts[7]);
    line(rt, b"refused 8", counts[8]);
    line(rt, b"done", counts[9]);
    line(rt, b"added", counts[10]);
    line(rt, b"all wired", counts[11]);
    line(rt, b"short", counts[12]);
    line(rt, b"shortfall", counts[13]);
    line(rt, b"unwired", counts[14]);
    line(rt, b"past the end", counts[15]);
    line(rt, b"to in lane 0", counts[16]);
    line(rt, b"to in another lane", counts[17]);
    line(rt, b"out in lane 0", counts[18]);
    line(rt, b"out in another lane", counts[19]);
    line(rt, b"text written", counts[20]);
    line(rt, b"refused 9 and above", counts[21]);
}
