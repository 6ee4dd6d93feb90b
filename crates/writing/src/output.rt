// What is put in an output behind what stands in it: a fixed word, a number and the byte that ends it, or the letter of a side.
ghost use Rattle.std.specs.Prelude.{◌<◌, [], ◌∷◌};
ghost use Rattle.model.specs.Text.{side_letter};
ghost use Rattle.line.specs.Scan.{two};
ghost use Rattle.writing.specs.Writer.{ended};
ghost use Rattle.writing.specs.Output.{Fits, Appends};

use line::words::SIDES;

// An output that is filled from its start.
#[derive(Drop)]
pub struct Output<'a> {
    pub bytes: &'a mut [u8],
    pub length: usize,
}

impl<'a> Output<'a> {
    // A word.
    pub fn put_word(&mut self, word: &[u8])
        requires { Fits word.now self.old }
        ensures { Appends word.now self.old self.new }
    {
        let end = self.length + word.len();
        self.bytes[self.length..end].copy_from_slice(word);
        self.length = end;
    }

    // A number of one or two digits, and the byte that ends it.
    pub fn put_number(&mut self, n: usize, end: u8)
        requires n_bound { n < 100 }
        requires room { Fits (ended n end) self.old }
        ensures { Appends (ended n end) self.old self.new }
    {
        let at = self.length;
        if n < 10 {
            self.bytes[at] = (48 + n) as u8;
            self.bytes[at + 1] = end;
            self.length = at + 2;
            return;
        }
        self.bytes[at] = (48 + n / 10) as u8;
        self.bytes[at + 1] = (48 + n % 10) as u8;
        self.bytes[at + 2] = end;
        self.length = at + 3;
    }

    // Two numbers, with a space between them and a byte after them.
    pub fn put_two(&mut self, a: usize, b: usize, end: u8)
        requires a_bound { (a < 100) × (b < 100) }
        requires room { Fits (two a b end []) self.old }
        ensures { Appends (two a b end []) self.old self.new }
    {
        self.put_number(a, b' ');
        self.put_number(b, end);
    }

    // The letter of a side, and a space.
    pub fn put_side(&mut self, side: usize)
        requires side_bound { side < 4 }
        requires room { Fits (side_letter side ∷ 32 ∷ []) self.old }
        ensures { Appends (side_letter side ∷ 32 ∷ []) self.old self.new }
    {
        let at = self.length;
        self.bytes[at] = SIDES[side];
        self.bytes[at + 1] = b' ';
        self.length = at + 2;
    }
}
