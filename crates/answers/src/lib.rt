// What an operation answers: why it refuses, or what its paragraph gives.
#![tactic(auto)]

ghost use Rattle.std.specs.Prelude.{◌≡◌, MatchResult};
ghost use Rattle.model.specs.Record.{Legal};
ghost use Rattle.answers.specs.Answers.{number_of};
ghost use Rattle.answers.specs.declared.Refusal.TheVariants.{Damaged, WrongText};

use audit::sound;
use text::WrongLine;

// Why an operation refuses a call, in the order of the documents' numbers.
#[derive(Debug, Clone, Copy, PartialEq, Eq)]
pub enum Refusal {
    // 1: a record that is short or damaged
    Damaged,
    // 2: rows or columns out of range
    Size,
    // 3: capacities out of range
    Capacities,
    // 4: no such pin or tile, or a pin that is not chosen
    NoSuchPlace,
    // 5: an unknown mark, state or side code
    UnknownValue,
    // 6: a text with a line that may not stand there, at this offset
    WrongText { offset: usize },
    // 7: an output that is too short
    ShortOutput,
    // 8: a scratch that is too short
    ShortScratch,
    // 11: a count above O
    CountAboveO,
    // 12: a starting number out of range
    Seed,
    // 13: percentages out of range
    Percentages,
    // 14: a job for which there are no sheets
    UnfitJob,
    // 15: a sheet of another length, or with bytes that may not stand there
    UnfitSheet,
}

impl Refusal {
    // The documents' number.
    pub fn number(self) -> usize
        ensures { result ≡ number_of self }
    {
        match self {
            Refusal::Damaged => 1,
            Refusal::Size => 2,
            Refusal::Capacities => 3,
            Refusal::NoSuchPlace => 4,
            Refusal::UnknownValue => 5,
            Refusal::WrongText { .. } => 6,
            Refusal::ShortOutput => 7,
            Refusal::ShortScratch => 8,
            Refusal::CountAboveO => 11,
            Refusal::Seed => 12,
            Refusal::Percentages => 13,
            Refusal::UnfitJob => 14,
            Refusal::UnfitSheet => 15,
        }
    }
}

impl From<WrongLine> for Refusal {
    ghost from_gives = { λ wrong e. e ≡ WrongText wrong.offset };

    fn from(wrong: WrongLine) -> Refusal {
        Refusal::WrongText {
            offset: wrong.offset,
        }
    }
}

// What Step says of a call that it accepts.
#[derive(Debug, Clone, Copy, PartialEq, Eq)]
pub enum Stepped {
    Added,
    AllWired,
    Short,
}

// What is said of a sheet of side loads: the tiles carry it, or the first that does not.
#[derive(Debug, Clone, Copy, PartialEq, Eq)]
pub enum Verdict {
    Carried,
    Fails { row: usize, column: usize },
}

// Refuses a damaged record.
pub fn undamaged(rec: &[u8]) -> Result<(), Refusal>
    ensures { MatchResult result (λ _. Legal rec.now) (λ e. (e ≡ Damaged) × (Legal rec.now → ⊥)) }
{
    if sound(rec) {
        Ok(())
    } else {
        Err(Refusal::Damaged)
    }
}
