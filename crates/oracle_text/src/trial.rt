// The jobs of load trials: every pin of the array in turn takes a number of the generator, then every tile.
use crate::job::{Array, Job, Mark};
use crate::random::Generator;

// The percentages of chosen and of missing pins, and of closed tiles.
#[derive(Clone, Copy)]
pub struct Percents {
    pub chosen: usize,
    pub missing: usize,
    pub closed: usize,
}

impl Percents {
    // The mark of a pin by the number `n` below 100: the first of a hundred are chosen, those after them missing.
    fn mark(self, n: usize) -> Mark {
        if n < self.chosen {
            Mark::Chosen
        } else if n - self.chosen < self.missing {
            Mark::Missing
        } else {
            Mark::Idle
        }
    }
}

// Fills a job that is idle and open.
pub fn fill(job: &mut Job, seed: u32, percents: Percents) {
    let mut generator = Generator::new(seed);
    for p in 0..1600 {
        if job.is_pin(p / 40, p % 40) {
            job.set_mark(p, percents.mark(generator.below(100)));
        }
    }
    for p in 0..1600 {
        if job.is_tile(p / 40, p % 40) {
            job.set_closed(p, generator.below(100) < percents.closed);
        }
    }
}

// The job of a trial.
pub fn trial_job(array: Array, seed: u32, percents: Percents) -> Job {
    let mut job = Job::new(array);
    fill(&mut job, seed, percents);
    job
}
