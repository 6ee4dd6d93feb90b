// Bytes written one after another. Past the end of the page nothing is written.
ghost use Rattle.std.specs.Prelude.{◌≤◌};

#[derive(Clone, Copy)]
pub struct Page {
    bytes: [u8; 262144],
    length: usize,
    ghost fits: { length ≤ 262144 },
}

impl Page {
    pub const EMPTY: Page = Page {
        bytes: [0; 262144],
        length: 0,
    };

    // What is written.
    pub fn text(&self) -> &[u8] {
        &self.bytes[..self.length]
    }

    // Keeps the first `length` bytes.
    pub fn truncate(&mut self, length: usize) {
        self.length = self.length.min(length);
    }

    // Puts the byte in place of that at `at`, where one stands there.
    pub fn put(&mut self, at: usize, b: u8) {
        if at < self.length {
            self.bytes[at] = b;
        }
    }

    pub fn push(&mut self, b: u8) {
        if self.length < 262144 {
            self.bytes[self.length] = b;
            self.length += 1;
        }
    }

    pub fn word(&mut self, word: &[u8]) {
        for b in word {
            self.push(*b);
        }
    }

    // The last digit of `n`.
    fn digit(&mut self, n: usize) {
        self.push((48 + n % 10) as u8);
    }

    // The number `n`, of which the eight last digits count.
    pub fn decimal(&mut self, n: usize) {
        for power in [10000000, 1000000, 100000, 10000, 1000, 100, 10] {
            if n >= power {
                self.digit(n / power);
            }
        }
        self.digit(n);
    }

    // Two numbers with a space between them.
    pub fn pair(&mut self, x: usize, y: usize) {
        self.decimal(x);
        self.push(b' ');
        self.decimal(y);
    }
}
