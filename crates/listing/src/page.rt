// A page of bytes, and what is written behind what stands on it: a byte, a word, a number and a line.
ghost use Rattle.std.specs.Prelude.{◌≡◌, [], ◌∷◌, ◌+◌, ◌≤◌, ◌<◌, length, take};
ghost use Rattle.model.specs.Listing.{digit, tens, decimal, spaced, line, pair_line};
ghost use Rattle.listing.specs.Writes.{Writes};

// A page that is filled from its start.
#[derive(Clone, Copy)]
pub struct Page {
    pub bytes: [u8; 32768],
    pub length: usize,
}

impl Page {
    // An empty page.
    pub fn new() -> Page
        ensures { result.length ≡ 0 }
    {
        Page {
            bytes: [0; 32768],
            length: 0,
        }
    }

    // The bytes that stand on the page.
    pub fn filled(&self) -> &[u8]
        requires { self.now.length ≤ 32768 }
        ensures { result.now ≡ take self.now.length self.now.bytes }
    {
        &self.bytes[..self.length]
    }

    // One byte.
    pub fn put_byte(&mut self, b: u8)
        requires { self.old.length < 32768 }
        ensures { Writes (b ∷ []) self.old self.new }
    {
        self.bytes[self.length] = b;
        self.length += 1;
    }

    // The bytes of a word.
    pub fn put_word(&mut self, w: &[u8])
        requires { self.old.length + length w.now ≤ 32768 }
        ensures { Writes w.now self.old self.new }
    {
        for byte in w {
            self.put_byte(*byte);
        }
    }

    // The digit of a number at a power of ten, where the number has one there.
    fn put_digit(&mut self, n: usize, power: usize)
        requires { (self.old.length < 32768) × (0 < power) }
        ensures { Writes (digit power n) self.old self.new × (self.new.length ≤ self.old.length + 1) }
    {
        if n < power {
            return;
        }
        self.put_byte((48 + n / power % 10) as u8);
    }

    // The digits of a number but for the last, from the power 10^19 down.
    fn put_tens(&mut self, n: usize)
        requires { self.old.length + 19 ≤ 32768 }
        ensures { Writes (tens 19 n) self.old self.new × (self.new.length ≤ self.old.length + 19) }
    {
        let mut power: usize = 10000000000000000000;
        for _ in 0..19usize {
            self.put_digit(n, power);
            power /= 10;
        }
    }

    // A number.
    pub fn put_number(&mut self, n: usize)
        requires { self.old.length + 20 ≤ 32768 }
        ensures { Writes (decimal n) self.old self.new × (self.new.length ≤ self.old.length + 20) }
    {
        if n < 100 {
            self.put_digit(n, 10);
            self.put_byte((48 + n % 10) as u8);
            return;
        }
        self.put_tens(n);
        self.put_byte((48 + n % 10) as u8);
    }

    // A space and a number.
    pub fn put_spaced(&mut self, n: usize)
        requires { self.old.length + 21 ≤ 32768 }
        ensures { Writes (spaced n) self.old self.new × (self.new.length ≤ self.old.length + 21) }
    {
        self.put_byte(b' ');
        self.put_number(n);
    }

    // A line with one number: what stands before it, the number, and the end.
    pub fn put_line(&mut self, front: &[u8], n: usize)
        requires { (length front.now ≤ 10) × (self.old.length + 33 ≤ 32768) }
        ensures { Writes (line front.now n) self.old self.new × (self.new.length ≤ self.old.length + 33) }
    {
        self.put_word(front);
        self.put_spaced(n);
        self.put_word(b")\n");
    }

    // A row and a column, between what stands before and behind them.
    pub fn put_pair(&mut self, front: &[u8], row: usize, column: usize, end: &[u8])
        requires { (length front.now ≤ 10) × (length end.now ≤ 5) × (self.old.length + 57 ≤ 32768) }
        ensures { Writes (pair_line front.now row column end.now) self.old self.new × (self.new.length ≤ self.old.length + 57) }
    {
        self.put_word(front);
        self.put_spaced(row);
        self.put_spaced(column);
        self.put_word(end);
    }
}
