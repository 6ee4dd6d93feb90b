// The word of a result.
ghost use Rattle.std.specs.Prelude.{◌≡◌, ℕ, ◌^◌, ◌<◌};
ghost use Rattle.wire.specs.Hops.{as_kind, as_part};
ghost use Rattle.answers.specs.Answers.{refused_as};
ghost use Rattle.talusdish.specs.Words.{place_number, number, part_number, word};
ghost use Rattle.talusdish.specs.Results.{no_value, step_number, tile_number, word_in};

use service::{Refusal, Stepped, Verdict};
use wire::{Part, Place};

// What an accepted call gives, as the value of a word.
pub trait Value {
    ghost number: { Self → ℕ };

    fn value(self) -> u64
        requires { number self < 2 ^ 56 }
        ensures { result ≡ number self };
}

impl Value for () {
    ghost number = { no_value };

    fn value(self) -> u64 {
        0
    }
}

impl Value for usize {
    ghost number = { λ n. n };

    fn value(self) -> u64 {
        self as u64
    }
}

impl Value for Stepped {
    ghost number = { step_number };

    fn value(self) -> u64 {
        match self {
            Stepped::Added => 0,
            Stepped::AllWired => 1,
            Stepped::Short => 2,
        }
    }
}

impl Value for Part {
    ghost number = { λ p. part_number (as_part p) };

    fn value(self) -> u64 {
        match self {
            Part::Unwired => 0,
            Part::PastTheEnd => 1,
            Part::To {
                row,
                column,
                place,
                lane,
            } => numbered(
                2,
                place_number(place),
                lane as u64,
                row as u64,
                column as u64,
            ),
            Part::Out { side, lane } => numbered(3, place_number(side), lane as u64, 0, 0),
        }
    }
}

impl Value for Verdict {
    ghost number = { tile_number };

    fn value(self) -> u64 {
        match self {
            Verdict::Carried => 0,
            Verdict::Fails { row, column } => numbered(1, 0, 0, row as u64, column as u64),
        }
    }
}

// The number of a place.
fn place_number(place: Place) -> u64
    ensures { result ≡ place_number (as_kind place) }
{
    match place {
        Place::North => 0,
        Place::East => 1,
        Place::South => 2,
        Place::West => 3,
        Place::Centre => 4,
        Place::Missing => 5,
        Place::Pin => 6,
    }
}

// The number of a part, by its kind.
fn numbered(kind: u64, place: u64, lane: u64, row: u64, column: u64) -> u64
    requires { number kind place lane row column < 2 ^ 56 }
    ensures { result ≡ number kind place lane row column }
{
    kind + 4 * place + 32 * lane + 1024 * row + 65536 * column
}

// The word of a refusal: its number, and behind that of a wrong text the offset of the line.
fn refusal_word(refusal: Refusal) -> u64
    requires { word (refused_as refusal) < 2 ^ 64 }
    ensures { result ≡ word (refused_as refusal) }
{
    match refusal {
        Refusal::WrongText { offset } => 256 * offset as u64 + 6,
        _ => refusal.number() as u64,
    }
}

// The word of a result: 256 times the value of an accepted call, or the word of the refusal.
pub fn word_of<T: Value>(answer: Result<T, Refusal>) -> u64
    requires { word_in T.number answer < 2 ^ 64 }
    ensures { result ≡ word_in T.number answer }
{
    match answer {
        Ok(given) => 256 * given.value(),
        Err(refusal) => refusal_word(refusal),
    }
}
