// The search for a way out: from one spot along moves, never entering a marked spot, the spots nearest to the rim first. It works on what is lent to it.
ghost use Rattle.std.specs.Prelude.{◌≡◌, ◌+◌, ◌*◌, ◌≤◌, ◌<◌, T, length, get_or};
ghost use Rattle.model.specs.Record.{job_of};
ghost use Rattle.channel.specs.Map.{spots, moves};
ghost use Rattle.slots.specs.Ahead.{Bits};
ghost use Rattle.augment.specs.Slots.{goes_on};
ghost use Rattle.augment.specs.Steps.{Whole, leaves, Fresh};
ghost use Rattle.augment.specs.Work.{SameLent, LentTo, ReadyAt, TriedAt, ExpandedAt, SearchedAt};

use crate::lists::{no_lists, take};
use crate::work::Work;
use channel::{can_move, head_of, is_outside, lowest};
use slots::{move_slots, unmarked};

// The way out: slot `slot` of the spot at `place` in the queue of `count`. A search ends with it as an error, and goes on otherwise.
#[derive(Clone, Copy)]
pub struct Way {
    pub place: usize,
    pub slot: usize,
    pub count: usize,
}

// The slots of u by which the search goes on: moves to spots with no mark.
pub fn onward(job: &[u8], loads: &[u8], marks: &[u8], u: usize) -> usize
    requires { Whole job.now loads.now × (spots ≤ length marks.now) × (u < spots) }
    ensures { Bits 8 (goes_on (job_of job.now) loads.now marks.now u) result }
{
    move_slots(job, loads, u, unmarked(marks, u))
}

// Whether a search at u is over at once: slot 4 of a chosen pin is its direct exit.
fn leaves_directly(job: &[u8], loads: &[u8], u: usize) -> bool
    requires { Whole job.now loads.now × (u < 13128) }
    ensures { result ≡ leaves (job_of job.now) loads.now u 4 }
{
    let d = 8 * u + 4;
    if !can_move(job, loads, d) {
        return false;
    }
    is_outside(job, head_of(d))
}

impl<'a> Work<'a> {
    // Slot k of the spot u, a move; u is the h-th in the queue of n. How many spots are in the queue then.
    fn attempt(
        &mut self,
        job: &[u8],
        loads: &[u8],
        u: usize,
        k: usize,
        h: usize,
        n: usize,
    ) -> Result<usize, Way>
        requires ready { ReadyAt job.now loads.now self.old u h n }
        requires slot { k < 8 }
        requires may { T (moves (job_of job.now) loads.now (8 * u + k)) }
        ensures lent { SameLent self.old self.new }
        ensures lists { self.new.lists.now ≡ self.old.lists.now }
        ensures tried { TriedAt (job_of job.now) loads.now u k h n self.old self.new result }
    {
        let v = head_of(8 * u + k);
        if self.marks[v] == 1 {
            return Ok(n);
        }
        if is_outside(job, v) {
            return Err(Way {
                place: h,
                slot: k,
                count: n,
            });
        }
        self.marks[v] = 1;
        self.queue[n] = v as u16;
        self.parent[n] = h as u16;
        self.slot[n] = k as u8;
        Ok(n + 1)
    }

    // The slots of u by which the search goes on.
    fn ahead(&self, job: &[u8], loads: &[u8], u: usize) -> usize
        requires { Whole job.now loads.now × (spots ≤ length self.now.marks.now) × (u < spots) }
        ensures { Bits 8 (goes_on (job_of job.now) loads.now self.now.marks.now u) result }
    {
        onward(job, loads, self.marks, u)
    }

    // All slots of the h-th spot in the queue of n, up to one that leads outside: the moves to spots with no mark as it begins.
    fn expand(&mut self, job: &[u8], loads: &[u8], h: usize, n: usize) -> Result<usize, Way>
        requires { ReadyAt job.now loads.now self.old (get_or self.old.queue.now h 0) h n }
        ensures lent { SameLent self.old self.new }
        ensures lists { self.new.lists.now ≡ self.old.lists.now }
        ensures expanded { ExpandedAt (job_of job.now) loads.now (get_or self.old.queue.now h 0) h n self.old self.new result }
    {
        let u = self.queue[h] as usize;
        let mut m = n;
        let mut k = 0;
        let mut left = self.ahead(job, loads, u);
        while left != 0 {
            let skip = lowest(left);
            k += skip;
            m = self.attempt(job, loads, u, k, h, m)?;
            k += 1;
            left = left >> (skip + 1);
        }
        Ok(m)
    }

    // Spot by spot from start to the outside, or to all that moves reach, and how many spots these are. The first h spots in the queue of n are expanded; those behind them wait on the lists.
    fn explore(&mut self, job: &[u8], loads: &[u8], start: usize) -> Result<usize, Way>
        requires lent { LentTo job.now loads.now self.old }
        requires fresh { Fresh (job_of job.now) self.old.marks.now start }
        ensures same { SameLent self.old self.new }
        ensures lent { LentTo job.now loads.now self.new }
        ensures searched { SearchedAt (job_of job.now) loads.now start self.old.marks.now self.new result }
    {
        self.marks[start] = 1;
        self.queue[0] = start as u16;
        no_lists(self.lists);
        let mut n = 1;
        let mut h = 0;
        let mut low = 128;
        while h < n {
            low = self.first(low);
            let i = take(self.lists, low, h, n);
            self.exchange(h, i);
            let m = self.expand(job, loads, h, n)?;
            low = self.enlist(job, n, m, low);
            n = m;
            h += 1;
        }
        Ok(n)
    }

    // From start to the outside, by the direct exit if it can be; or to all that moves reach, and how many spots these are.
    pub fn reach(&mut self, job: &[u8], loads: &[u8], start: usize) -> Result<usize, Way>
        requires lent { LentTo job.now loads.now self.old }
        requires fresh { Fresh (job_of job.now) self.old.marks.now start }
        ensures same { SameLent self.old self.new }
        ensures lent { LentTo job.now loads.now self.new }
        ensures searched { SearchedAt (job_of job.now) loads.now start self.old.marks.now self.new result }
    {
        if leaves_directly(job, loads, start) {
            self.marks[start] = 1;
            self.queue[0] = start as u16;
            return Err(Way {
                place: 0,
                slot: 4,
                count: 1,
            });
        }
        self.explore(job, loads, start)
    }
}
