// Document 02, K1: the capacities of an array from pitch p, pad diameter d, wire width w and spacing s, in micrometres.
#![tactic(auto)]

ghost use Rattle.std.specs.Prelude.{◌≡◌, ◌+◌, ◌≤◌, T, ltb};
ghost use Rattle.model.specs.Job.{in_range};
ghost use Rattle.rules.specs.Rules.{measured, number_of, refusal, Answered};
ghost use Rattle.rules.specs.Ranges.{Ranges};

use model::{Capacities, in_range};

pub mod argument; // a measure as an argument
mod diagonal; // the diagonal count

// What measures give: O and its remainder, the diagonal count k and what it leaves of 2×p×p, and D.
#[derive(Debug, Clone, Copy, PartialEq, Eq)]
pub struct Figures {
    pub orthogonal: u64,
    pub remainder: u64,
    pub count: u64,
    pub left: u64,
    pub diagonal: u64,
}

// Why measures give no figures.
#[derive(Debug, Clone, Copy, PartialEq, Eq)]
pub enum Refusal {
    // 9: a measure out of range
    OutOfRange,
    // 10: p under d + s, or O not 1 to 8
    NoCapacity,
}

impl Refusal {
    // The document's number.
    pub fn number(self) -> u64
        ensures { result ≡ number_of self }
    {
        match self {
            Refusal::OutOfRange => 9,
            Refusal::NoCapacity => 10,
        }
    }
}

// Whether a number is a measure.
fn is_measure(n: u64) -> bool
    ensures { result ≡ in_range 1 100000 n }
{
    in_range(1, 100000, n as usize)
}

// Whether the four are.
fn are_measures(p: u64, d: u64, w: u64, s: u64) -> bool
    ensures { result ≡ measured p d w s }
{
    is_measure(p) & (is_measure(d) & (is_measure(w) & is_measure(s)))
}

// Whether p is under d + s, for any three numbers.
fn is_under(p: u64, d: u64, s: u64) -> bool
    ensures { result ≡ ltb p (d + s) }
{
    p < d || p - d < s
}

// The answer for measures in range with p at least d + s.
fn spaced(p: u64, d: u64, w: u64, s: u64) -> Result<Figures, Refusal>
    requires { T (measured p d w s) × Ranges p d w s × (d + s ≤ p) }
    ensures { Answered p d w s result }
{
    let room = p - d - s;
    let track = w + s;
    let orthogonal = room / track;
    let remainder = room % track;
    if !in_range(Capacities::O_LEAST, Capacities::O_MOST, orthogonal as usize) {
        return Err(Refusal::NoCapacity);
    }
    let count = diagonal::largest(p, d, w, s);
    let left = 2 * p * p - diagonal::square(d, w, s, count);
    let twice = 2 * orthogonal;
    let diagonal = count.min(twice);
    Ok(Figures {
        orthogonal,
        remainder,
        count,
        left,
        diagonal,
    })
}

// The answer for any four numbers.
pub fn rules(p: u64, d: u64, w: u64, s: u64) -> Result<Figures, Refusal>
    ensures { Answered p d w s result }
{
    let measures = are_measures(p, d, w, s);
    let under = is_under(p, d, s);
    if !measures {
        return Err(Refusal::OutOfRange);
    }
    if under {
        return Err(Refusal::NoCapacity);
    }
    spaced(p, d, w, s)
}

// The number of a refusal, 0 for figures.
pub fn refusal_of(answer: Result<Figures, Refusal>) -> u64
    ensures { result ≡ refusal answer }
{
    match answer {
        Ok(_) => 0,
        Err(refusal) => refusal.number(),
    }
}
