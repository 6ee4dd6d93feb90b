// What stands at an offset of a text: a fixed word, a number and the byte that ends it, or the letter of a side.
ghost use Rattle.std.specs.Prelude.{◌≡◌, ◌≢◌, ℕ, ◌≤◌, ◌<◌, length, MatchOption};
ghost use Rattle.model.specs.Text.{side_letter};
ghost use Rattle.line.specs.Scan.{WordAt, NumberAt, TwoAt, SideAt};

use crate::words::SIDES;

// What was read at an offset, and the offset past it.
#[derive(Clone, Copy)]
pub struct Read<T> {
    pub value: T,
    pub next: usize,
}

// The offset past a word, if it stands at an offset.
pub fn word_at(text: &[u8], at: usize, word: &[u8]) -> Option<usize>
    requires { at ≤ length text.now }
    ensures { WordAt text.now at word.now result }
{
    if text.len() - at < word.len() {
        return None;
    }
    for (i, byte) in word.iter().enumerate() {
        if text[at + i] != *byte {
            return None;
        }
    }
    Some(at + word.len())
}

// The number of one or two digits at an offset, ended by a byte below the digits.
pub fn number_at(text: &[u8], at: usize, end: u8) -> Option<Read<usize>>
    requires at_in_bounds { at ≤ length text.now }
    requires end_bound { end < 48 }
    ensures { NumberAt text.now at end result }
{
    let first = *text.get(at)?;
    let second = *text.get(at + 1)?;
    if !first.is_ascii_digit() {
        return None;
    }
    let tens = usize::from(first - b'0');
    if second == end {
        return Some(Read {
            value: tens,
            next: at + 2,
        });
    }
    if tens == 0 {
        return None;
    }
    if !second.is_ascii_digit() {
        return None;
    }
    if *text.get(at + 2)? != end {
        return None;
    }
    Some(Read {
        value: 10 * tens + usize::from(second - b'0'),
        next: at + 3,
    })
}

// The two numbers at an offset, with a space between them and a byte below the digits after them.
pub fn two_at(text: &[u8], at: usize, end: u8) -> Option<Read<(usize, usize)>>
    requires at_in_bounds { at ≤ length text.now }
    requires end_bound { end < 48 }
    ensures { TwoAt text.now at end result }
{
    let first = number_at(text, at, b' ')?;
    let second = number_at(text, first.next, end)?;
    Some(Read {
        value: (first.value, second.value),
        next: second.next,
    })
}

// The code of the side whose letter a byte is.
fn side_of(letter: u8) -> Option<usize>
    ensures { MatchOption result ((d : ℕ) → d < 4 → letter ≢ side_letter d) (λ d. (d < 4) × (letter ≡ side_letter d)) }
{
    SIDES.iter().position(|x| *x == letter)
}

// The code of the side whose letter stands at an offset, with a space behind it.
pub fn side_at(text: &[u8], at: usize) -> Option<Read<usize>>
    requires { at ≤ length text.now }
    ensures { SideAt text.now at result }
{
    let letter = *text.get(at)?;
    if *text.get(at + 1)? != b' ' {
        return None;
    }
    let side = side_of(letter)?;
    Some(Read {
        value: side,
        next: at + 2,
    })
}
