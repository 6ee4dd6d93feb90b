// The search along tight moves, from one spot: moves that leave nothing lead on, and the others say by how much prices may be raised.
ghost use Rattle.std.specs.Prelude.{◌≡◌, ◌+◌, ◌*◌, ◌≤◌, ◌<◌, T, length, get_or};
ghost use Rattle.model.specs.Record.{job_of};
ghost use Rattle.channel.specs.Map.{spots, moves};
ghost use Rattle.augment.specs.Steps.{Whole};
ghost use Rattle.slots.specs.Ahead.{Bits};
ghost use Rattle.augment.specs.Slots.{goes_on};
ghost use Rattle.shortest.specs.Search.{SameLent, TrialAt, TriedAt, GrowingAt, OutcomeAt};

use crate::slack::slack;
use augment::reach::{Way, onward};
use channel::{head_of, is_outside, lowest};

// So many spots are in the queue, on the stack and on the rim; the moves of those on the rim leave `least` or more.
#[derive(Clone, Copy)]
pub struct Growth {
    pub n: usize,
    pub top: usize,
    pub rims: usize,
    pub least: usize,
}

// The search: the marks, the queue of spots with the places and slots from which each was reached, the stack and the rim, all lent to it; and how it stands.
#[derive(Drop)]
pub struct Search<'a> {
    pub marks: &'a mut [u8],
    pub queue: &'a mut [u16],
    pub parent: &'a mut [u16],
    pub slot: &'a mut [u8],
    pub stack: &'a mut [u16],
    pub rim: &'a mut [u16],
    pub growth: Growth,
}

impl<'a> Search<'a> {
    // Slot k of the spot u, a move; u is the i-th in the queue, and has a place on a rim of so many. A way out is an error.
    fn attempt(
        &mut self,
        job: &[u8],
        loads: &[u8],
        prices: &[u32],
        u: usize,
        k: usize,
        i: usize,
        edge: usize,
    ) -> Result<(), Way>
        requires trial { TrialAt job.now loads.now prices.now self.old u i }
        requires slot { k < 8 }
        requires may { T (moves (job_of job.now) loads.now (8 * u + k)) }
        ensures lent { SameLent self.old self.new }
        ensures rim { self.new.rim.now ≡ self.old.rim.now }
        ensures tried { TriedAt (job_of job.now) loads.now prices.now u k i edge self.old self.new result }
    {
        let d = 8 * u + k;
        let v = head_of(d);
        if self.marks[v] == 1 {
            return Ok(());
        }
        let x = slack(loads, prices, d);
        if x != 0 {
            self.growth.rims = edge;
            self.growth.least = self.growth.least.min(x);
            return Ok(());
        }
        let n = self.growth.n;
        if is_outside(job, v) {
            return Err(Way {
                place: i,
                slot: k,
                count: n,
            });
        }
        let top = self.growth.top;
        self.marks[v] = 1;
        self.queue[n] = v as u16;
        self.parent[n] = i as u16;
        self.slot[n] = k as u8;
        self.stack[top] = n as u16;
        self.growth.n = n + 1;
        self.growth.top = top + 1;
        Ok(())
    }

    // The slots of u by which the search goes on.
    fn ahead(&self, job: &[u8], loads: &[u8], u: usize) -> usize
        requires { Whole job.now loads.now × (spots ≤ length self.now.marks.now) × (u < spots) }
        ensures { Bits 8 (goes_on (job_of job.now) loads.now self.now.marks.now u) result }
    {
        onward(job, loads, self.marks, u)
    }

    // All slots of the spot on top of the stack, up to one that leads outside. It is put behind the rim, and stands on it if a move leaves something.
    pub fn expand(&mut self, job: &[u8], loads: &[u8], prices: &[u32]) -> Result<(), Way>
        requires whole { Whole job.now loads.now }
        requires some { 0 < self.old.growth.top }
        requires growing { GrowingAt (job_of job.now) loads.now prices.now (get_or self.old.queue.now 0 0) self.old }
        ensures lent { SameLent self.old self.new }
        ensures outcome { OutcomeAt (job_of job.now) loads.now prices.now (get_or self.old.queue.now 0 0)
            (λ a. a.n + self.old.growth.top ≡ a.top + self.old.growth.n + 1) self.new result }
    {
        let top = self.growth.top - 1;
        let m = self.growth.rims;
        let i = self.stack[top] as usize;
        let u = self.queue[i] as usize;
        self.rim[m] = i as u16;
        self.growth.top = top;
        let mut k = 0;
        let mut left = self.ahead(job, loads, u);
        while left != 0 {
            let skip = lowest(left);
            k += skip;
            self.attempt(job, loads, prices, u, k, i, m + 1)?;
            k += 1;
            left = left >> (skip + 1);
        }
        Ok(())
    }
}
