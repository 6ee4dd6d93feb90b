// Jobs at random, from xorshift32 with the shifts 13, 17, 5.
ghost use Rattle.std.specs.Prelude.{◌<◌, ◌+◌};

use crate::job::{Array, Job, Mark, Side};

// The number after this one; 0 stays 0.
pub fn xorshift(seed: u32) -> u32 {
    let a = seed ^ (seed << 13);
    let b = a ^ (a >> 17);
    b ^ (b << 5)
}

// A number below `n`, which is not 0, of the draw `x`.
pub fn below(x: u32, n: usize) -> usize
    ensures { result < n + 1 }
{
    if n == 0 { 0 } else { x as usize % n }
}

// The last number drawn.
#[derive(Clone, Copy)]
pub struct Generator {
    pub last: u32,
}

impl Generator {
    pub fn new(seed: u32) -> Generator {
        Generator { last: seed }
    }

    // The next number.
    pub fn next(&mut self) -> u32 {
        self.last = xorshift(self.last);
        self.last
    }

    // A number below `n`, which is not 0.
    pub fn below(&mut self, n: usize) -> usize
        ensures { result < n + 1 }
    {
        below(self.next(), n)
    }

    // True as often of 1,000 as the rate says.
    fn happens(&mut self, rate: usize) -> bool {
        self.below(1000) < rate
    }
}

// How often of 1,000 a pin is chosen, one that is not chosen is missing, and a tile is closed.
#[derive(Clone, Copy)]
pub struct Rates {
    pub chosen: usize,
    pub missing: usize,
    pub closed: usize,
}

// Draws the pin and the tile at `p`.
fn draw_cell(generator: &mut Generator, rates: Rates, job: &mut Job, p: usize) {
    let chosen = generator.happens(rates.chosen);
    let missing = generator.happens(rates.missing);
    let closed = generator.happens(rates.closed);
    if job.is_pin(p / 40, p % 40) {
        if chosen {
            job.set_mark(p, Mark::Chosen);
        } else if missing {
            job.set_mark(p, Mark::Missing);
        }
    }
    if closed && job.is_tile(p / 40, p % 40) {
        job.set_closed(p, true);
    }
}

// The five numbers at random, the rows and columns from 2 to `most`, which is from 2 to 40.
fn draw_array(generator: &mut Generator, most: usize) -> Array {
    let span = most.clamp(2, 40) - 1;
    let rows = 2 + generator.below(span);
    let columns = 2 + generator.below(span);
    let side = 1 + generator.below(8);
    let diagonal = side + generator.below(side + 1);
    let extra = generator.below(diagonal + 1);
    Array {
        rows,
        columns,
        side,
        diagonal,
        extra,
    }
}

// A job at random, of at most `most` rows and columns.
pub fn random_job(generator: &mut Generator, most: usize, job: &mut Job) {
    *job = Job::new(draw_array(generator, most));
    let rates = Rates {
        chosen: generator.below(1001),
        missing: generator.below(400),
        closed: generator.below(700),
    };
    for p in 0..1600 {
        draw_cell(generator, rates, job, p);
    }
}

// Lays wires on the side of the tile `p`, as often of 1,000 as the rate says.
fn draw_side(generator: &mut Generator, rate: usize, job: &mut Job, p: usize, side: Side) {
    let laid = generator.happens(rate);
    let n = generator.below(job.side() + 1);
    if laid && job.is_tile(p / 40, p % 40) {
        job.set_laid(p / 40, p % 40, side, n);
    }
}

// Lays wires at random on the sides of a job.
pub fn random_laid(generator: &mut Generator, rate: usize, job: &mut Job) {
    for p in 0..1600 {
        for side in Side::ALL {
            draw_side(generator, rate, job, p, side);
        }
    }
}

// Gives the tile `p` a D of its own, as often of 1,000 as the rate says and not where the number drawn is the job's.
fn draw_own(generator: &mut Generator, rate: usize, job: &mut Job, p: usize) {
    let given = generator.happens(rate);
    let own = job.side() + generator.below(job.side() + 1);
    if given && job.is_tile(p / 40, p % 40) && job.may_own(own) {
        job.set_own(p, Some(own));
    }
}

// Gives tiles of a job at random a D of their own.
pub fn random_own(generator: &mut Generator, rate: usize, job: &mut Job) {
    for p in 0..1600 {
        draw_own(generator, rate, job, p);
    }
}
