// A wire more at the least cost: from an unwired pin along tight moves. Where none leads on, the prices of the spots that it came to are raised together.
ghost use Rattle.std.specs.Prelude.{◌≡◌, ℕ, ◌+◌, ◌≤◌, ◌<◌, length, get_or};
ghost use Rattle.model.specs.Record.{job_of};
ghost use Rattle.channel.specs.Map.{spots};
ghost use Rattle.augment.specs.Spread.{Room};
ghost use Rattle.augment.specs.Steps.{Whole};
ghost use Rattle.augment.specs.Pins.{Unwired};
ghost use Rattle.search.specs.Fill.{Cleared};
ghost use Rattle.shortest.specs.Wiring.{AtMost, Arranged, Wireable, Grew};
ghost use Rattle.shortest.specs.Growing.{Raised, Raisable};
ghost use Rattle.shortest.specs.Search.{SameLent, GrowingAt, OutcomeAt, Restacked, RoundedAt, OpenedAt};

use crate::expand::{Growth, Search};
use augment::reach::Way;
use augment::ways::{lay_way, unmark};

// More than any price of an unwired pin.
const FAR: usize = 1500000;

// A price raised.
fn higher(p: u32, x: usize) -> u32
    requires { p + x < 4294967296 }
    ensures { result ≡ p + x }
{
    ((p as usize) + x) as u32
}

impl<'a> Search<'a> {
    // Spot by spot until the stack is empty, or to a way out.
    fn settle(&mut self, job: &[u8], loads: &[u8], prices: &[u32]) -> Result<(), Way>
        requires whole { Whole job.now loads.now }
        requires growing { GrowingAt (job_of job.now) loads.now prices.now (get_or self.old.queue.now 0 0) self.old }
        ensures lent { SameLent self.old self.new }
        ensures outcome { OutcomeAt (job_of job.now) loads.now prices.now (get_or self.old.queue.now 0 0)
            (λ a. a.top ≡ 0) self.new result }
    {
        while self.growth.top != 0 {
            self.expand(job, loads, prices)?;
        }
        Ok(())
    }

    // The prices of the spots in the queue are raised by what the moves of those on the rim leave.
    fn raise(&self, prices: &mut [u32])
        requires { Raisable self.now.queue.now self.now.growth.n self.now.growth.least prices.old }
        ensures { Raised self.now.queue.now self.now.growth.n self.now.growth.least prices.old prices.new }
    {
        for u in &self.queue[..self.growth.n] {
            let u = *u as usize;
            prices[u] = higher(prices[u], self.growth.least);
        }
    }

    // The spots on the rim wait again.
    fn restack(&mut self)
        requires stack { self.old.growth.rims ≤ length self.old.stack.now }
        requires rim { self.old.growth.rims ≤ length self.old.rim.now }
        ensures lent { SameLent self.old self.new }
        ensures again { Restacked self.old self.new }
    {
        let m = self.growth.rims;
        for j in 0..m {
            self.stack[j] = self.rim[j];
        }
        self.growth.top = m;
        self.growth.rims = 0;
        self.growth.least = FAR;
    }

    // A round: a way out; or the prices of all spots in the queue are raised, and those on the rim wait again.
    fn round(&mut self, job: &[u8], loads: &[u8], prices: &mut [u32]) -> Result<(), Way>
        requires whole { Whole job.now loads.now }
        requires arranged { Arranged (job_of job.now) loads.now prices.old × AtMost prices.old 4293467295 }
        requires growing { GrowingAt (job_of job.now) loads.now prices.old (get_or self.old.queue.now 0 0) self.old }
        ensures lent { SameLent self.old self.new }
        ensures rounded { RoundedAt (job_of job.now) loads.now prices.old (get_or self.old.queue.now 0 0) prices.new self.new result }
    {
        self.settle(job, loads, prices)?;
        self.raise(prices);
        self.restack();
        Ok(())
    }

    // Round by round to a way out.
    fn widen(&mut self, job: &[u8], loads: &[u8], prices: &mut [u32]) -> Way
        requires whole { Whole job.now loads.now }
        requires arranged { Arranged (job_of job.now) loads.now prices.old × AtMost prices.old 2268518614 }
        requires growing { GrowingAt (job_of job.now) loads.now prices.old (get_or self.old.queue.now 0 0) self.old }
        requires wireable { Wireable (job_of job.now) × Unwired (job_of job.now) loads.now (get_or self.old.queue.now 0 0) }
        ensures lent { SameLent self.old self.new }
        ensures opened { OpenedAt (job_of job.now) loads.now prices.old (get_or self.old.queue.now 0 0) prices.new self.new result }
    {
        loop {
            if let Err(way) = self.round(job, loads, prices) {
                return way;
            }
        }
    }
}

// A wire more, from the unwired pin `start`, along tight moves; prices are raised until there is a way.
pub fn grow(
    job: &[u8],
    loads: &mut [u8],
    start: usize,
    prices: &mut [u32],
    marks: &mut [u8],
    queue: &mut [u16],
    parent: &mut [u16],
    slot: &mut [u8],
    stack: &mut [u16],
    rim: &mut [u16],
)
    requires { Whole job.now loads.old × Room marks.old queue.old parent.old slot.old
        × (spots ≤ length stack.old) × (spots ≤ length rim.old) × (spots ≤ length prices.old)
        × Arranged (job_of job.now) loads.old prices.old × Wireable (job_of job.now) × Cleared marks.old
        × (start < spots) × Unwired (job_of job.now) loads.old start × AtMost prices.old 2268518614 }
    ensures { Grew (job_of job.now) loads.old prices.old start
        loads.new prices.new marks.new }
{
    marks[start] = 1;
    queue[0] = start as u16;
    stack[0] = 0;
    let mut search = Search {
        marks,
        queue,
        parent,
        slot,
        stack,
        rim,
        growth: Growth {
            n: 1,
            top: 1,
            rims: 0,
            least: FAR,
        },
    };
    let way = search.widen(job, loads, prices);
    lay_way(loads, queue, parent, slot, way.place, way.slot);
    unmark(marks, queue, way.count);
}
