// The vectors of data/rules.txt, a line each: the measures, an arrow, then the five numbers, or the word `refused` and a number.
use crate::plain::{Figures, Measures};

// The first nine numbers of a line, how many of the nine it has, and whether letters stand in it, as in the word `refused`.
#[derive(Clone, Copy)]
pub struct Line {
    numbers: [u64; 9],
    count: usize,
    refused: bool,
}

// The number that the digits write; the largest of all where they write a larger one.
fn number(digits: &[u8]) -> u64 {
    let mut n: u64 = 0;
    for b in digits {
        n = n.saturating_mul(10).saturating_add(u64::from(*b % 16));
    }
    n
}

impl Line {
    // The line of these bytes. Whatever is no digit stands between numbers, and a byte from `a` on is a letter.
    pub fn read(text: &[u8]) -> Line {
        let mut line = Line {
            numbers: [0; 9],
            count: 0,
            refused: text.iter().any(|b| *b >= b'a'),
        };
        for digits in text.split(|b| !b.is_ascii_digit()) {
            if !digits.is_empty() {
                line.push(number(digits));
            }
        }
        line
    }

    // One number more, of nine at most.
    fn push(&mut self, n: u64) {
        if self.count < 9 {
            self.numbers[self.count] = n;
            self.count += 1;
        }
    }

    pub fn measures(&self) -> Measures {
        let [p, d, w, s, ..] = self.numbers;
        Measures { p, d, w, s }
    }

    // What the line says that its measures come to, if it is that of a vector.
    pub fn expected(&self) -> Option<Result<Figures, u64>> {
        let [_, _, _, _, o, o_rest, k, k_rest, diagonal] = self.numbers;
        match (self.refused, self.count, o) {
            (true, 5, number) => Some(Err(number)),
            (false, 9, _) => Some(Ok(Figures {
                o,
                o_rest,
                k,
                k_rest,
                diagonal,
            })),
            _ => None,
        }
    }
}
