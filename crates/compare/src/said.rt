// The answer of an operation, and as a kind and a number, so that two answers can be compared.
use oracle_text::page::Page;
use service::{Refusal, Stepped, Verdict};
use wire::{Part, Place};

// The answer of any operation, so that all can be held to what is expected.
#[derive(Clone, Copy)]
pub enum Answer {
    Refused(Refusal),
    Done,
    Stepped(Stepped),
    // the chosen pins less the greatest number
    Lacks(usize),
    Lists(Part),
    // the length of the text or of the listing
    Wrote(usize),
    Judged(Verdict),
}

impl From<Result<(), Refusal>> for Answer {
    fn from(outcome: Result<(), Refusal>) -> Answer {
        match outcome {
            Ok(()) => Answer::Done,
            Err(refusal) => Answer::Refused(refusal),
        }
    }
}

impl From<Result<Stepped, Refusal>> for Answer {
    fn from(outcome: Result<Stepped, Refusal>) -> Answer {
        match outcome {
            Ok(stepped) => Answer::Stepped(stepped),
            Err(refusal) => Answer::Refused(refusal),
        }
    }
}

impl From<Result<Part, Refusal>> for Answer {
    fn from(outcome: Result<Part, Refusal>) -> Answer {
        match outcome {
            Ok(part) => Answer::Lists(part),
            Err(refusal) => Answer::Refused(refusal),
        }
    }
}

// What Shortfall answers.
pub fn lacks(outcome: Result<usize, Refusal>) -> Answer {
    match outcome {
        Ok(n) => Answer::Lacks(n),
        Err(refusal) => Answer::Refused(refusal),
    }
}

// What Write text and the listing answer.
pub fn wrote(outcome: Result<usize, Refusal>) -> Answer {
    match outcome {
        Ok(n) => Answer::Wrote(n),
        Err(refusal) => Answer::Refused(refusal),
    }
}

// The kinds. The number is that of a refusal, the offset of a wrong text, what a job lacks, or the length of a text; else 0.
pub const REFUSED: usize = 0;

pub const WRONG_TEXT: usize = 1;

pub const DONE: usize = 2;

pub const ADDED: usize = 3;

pub const ALL_WIRED: usize = 4;

pub const SHORT: usize = 5;

pub const LACKS: usize = 6;

pub const LISTS: usize = 7;

pub const WROTE: usize = 8;

pub const CARRIED: usize = 9;

pub const FAILS: usize = 10;

#[derive(Clone, Copy)]
pub struct Said {
    pub kind: usize,
    pub number: usize,
}

pub fn say(kind: usize, number: usize) -> Said {
    Said { kind, number }
}

pub fn coded(a: Answer) -> Said {
    match a {
        Answer::Refused(Refusal::WrongText { offset }) => say(WRONG_TEXT, offset),
        Answer::Refused(refusal) => say(REFUSED, refusal.number()),
        Answer::Done => say(DONE, 0),
        Answer::Stepped(Stepped::Added) => say(ADDED, 0),
        Answer::Stepped(Stepped::AllWired) => say(ALL_WIRED, 0),
        Answer::Stepped(Stepped::Short) => say(SHORT, 0),
        Answer::Lacks(n) => say(LACKS, n),
        Answer::Lists(_) => say(LISTS, 0),
        Answer::Wrote(n) => say(WROTE, n),
        Answer::Judged(Verdict::Carried) => say(CARRIED, 0),
        Answer::Judged(Verdict::Fails { .. }) => say(FAILS, 0),
    }
}

pub fn agree(a: Said, b: Said) -> bool {
    a.kind == b.kind && a.number == b.number
}

// The answer is of this kind and number.
pub fn is(a: Answer, kind: usize, number: usize) -> bool {
    agree(coded(a), say(kind, number))
}

// The letter of a place.
fn letter(place: Place) -> u8 {
    match place {
        Place::Missing => b'r',
        Place::Pin => b'p',
        Place::North => b'n',
        Place::East => b'e',
        Place::South => b's',
        Place::West => b'w',
        Place::Centre => b'c',
    }
}

fn lettered(out: &mut Page, place: Place, lane: usize) {
    out.push(letter(place));
    out.push(b' ');
    out.decimal(lane);
    out.push(b')');
}

// A part as the listing prints it; `unwired` and `past` where it prints none.
pub fn put_part(out: &mut Page, part: Part) {
    match part {
        Part::Unwired => out.word(b"unwired"),
        Part::PastTheEnd => out.word(b"past"),
        Part::To {
            row,
            column,
            place,
            lane,
        } => {
            out.word(b" (to ");
            out.pair(row, column);
            out.push(b' ');
            lettered(out, place, lane);
        }
        Part::Out { side, lane } => {
            out.word(b" (out ");
            lettered(out, side, lane);
        }
    }
}

// What Part answers, as the listing prints it; nothing where it is refused.
pub fn put_listed(out: &mut Page, answer: Answer) {
    if let Answer::Lists(part) = answer {
        put_part(out, part);
    }
}

// Part answers with a `to` or an `out`.
pub fn is_part(answer: Answer) -> bool {
    let Answer::Lists(part) = answer else {
        return false;
    };
    match part {
        Part::Unwired | Part::PastTheEnd => false,
        _ => true,
    }
}
