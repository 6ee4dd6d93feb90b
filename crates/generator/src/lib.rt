// The generator of document 02, K6: Marsaglia's xorshift on 32 bits, by value, and as a struct that is lent and advanced in place.
#![tactic(auto)]

ghost use Rattle.std.specs.Prelude.{◌≡◌};
ghost use Rattle.model.specs.Trial.{draw as drawn};

// The number after x, which is also what is drawn.
pub fn draw(x: u32) -> u32
    ensures { result ≡ drawn x }
{
    let a = x ^ (x << 13);
    let b = a ^ (a >> 17);
    b ^ (b << 5)
}

// A generator holds the number that was drawn last, or the one that it started from.
#[derive(Debug, Clone, Copy, PartialEq, Eq)]
pub struct Generator {
    pub number: u32,
}

impl Generator {
    // Moves on by one draw, in place, and gives it.
    pub fn next(&mut self) -> u32
        ensures { (result ≡ drawn self.old.number) × (self.new.number ≡ result) }
    {
        self.number = draw(self.number);
        self.number
    }
}

// The number after a number, by a generator of its own.
pub fn step(number: u32) -> u32
    ensures { result ≡ drawn number }
{
    let mut generator = Generator { number };
    generator.next()
}
