// The least wiring: the loads of a copy are taken out, every spot gets its first price, and the pins, in the order of the wire search, get their wires one
// after the other along moves that leave nothing. Loops are taken out at the end.
ghost use Rattle.std.specs.Prelude.{◌≡◌, ◌*◌, ◌≤◌, ◌<◌, length};
ghost use Rattle.model.specs.Record.{record_size, job_of, Legal};
ghost use Rattle.channel.specs.Map.{spots};
ghost use Rattle.augment.specs.Pins.{OnLine, InRows};
ghost use Rattle.shortest.specs.Wiring.{Wireable, Complete, Least};
ghost use Rattle.shortest.specs.Work.{LentTo, StandingAt, AdvancedAt};

use crate::first::first_prices;
use crate::grow::grow;
use augment::next::{Line, inwards, nth_line, spot_on};
use channel::copy::copy;
use channel::{is_start, rows, unwire, wire_starts};
use search::untangle::unloop;

// What the wiring works on: prices, marks, the queue of spots with the places and slots from which each was reached, the stack and the rim, all lent to it.
#[derive(Drop)]
struct Work<'a> {
    prices: &'a mut [u32],
    marks: &'a mut [u8],
    queue: &'a mut [u16],
    parent: &'a mut [u16],
    slot: &'a mut [u8],
    stack: &'a mut [u16],
    rim: &'a mut [u16],
}

impl<'a> Work<'a> {
    // A wire from u, if one is wanted there and none starts.
    fn wire_pin(&mut self, job: &[u8], loads: &mut [u8], u: usize)
        requires lent { LentTo job.now loads.old self.old }
        requires standing { StandingAt (job_of job.now) loads.old self.old }
        requires wireable { Wireable (job_of job.now) }
        requires spot { u < spots }
        ensures lent { LentTo job.now loads.new self.new }
        ensures advanced { AdvancedAt (job_of job.now) (λ x. x ≡ u) loads.old loads.new self.new }
    {
        if !is_start(job, u) {
            return;
        }
        if wire_starts(job, loads, u) != 0 {
            return;
        }
        grow(
            job,
            loads,
            u,
            self.prices,
            self.marks,
            self.queue,
            self.parent,
            self.slot,
            self.stack,
            self.rim,
        );
    }

    // A wire from each chosen pin of a line, from its ends inwards. The pins passed are wired.
    fn wire_line(&mut self, job: &[u8], loads: &mut [u8], l: Line)
        requires lent { LentTo job.now loads.old self.old }
        requires standing { StandingAt (job_of job.now) loads.old self.old }
        requires wireable { Wireable (job_of job.now) }
        requires line { (l.number < 40) × (l.pins ≤ 40) }
        ensures lent { LentTo job.now loads.new self.new }
        ensures advanced { AdvancedAt (job_of job.now) (OnLine l l.pins) loads.old loads.new self.new }
    {
        let n = l.pins;
        for i in 0..n {
            let u = spot_on(l, inwards(i, n));
            self.wire_pin(job, loads, u);
        }
    }

    // A wire from each chosen pin, line by line. The pins of the rows passed are wired.
    fn wire_lines(&mut self, job: &[u8], loads: &mut [u8])
        requires lent { LentTo job.now loads.old self.old }
        requires standing { StandingAt (job_of job.now) loads.old self.old }
        requires wireable { Wireable (job_of job.now) }
        ensures lent { LentTo job.now loads.new self.new }
        ensures advanced { AdvancedAt (job_of job.now) (InRows (job_of job.now) 0 (2 * (job_of job.now).rows)) loads.old loads.new self.new }
    {
        let n = 2 * rows(job);
        for i in 0..n {
            let l = nth_line(job, i);
            self.wire_line(job, loads, l);
        }
    }
}

// A wire from each chosen pin, from nothing, on a copy of the record. Loops may stand.
fn wire_all(rec: &[u8], loads: &mut [u8])
    requires { Legal rec.now × Wireable (job_of rec.now) × (length loads.old ≡ record_size) }
    ensures { Complete rec.now loads.new }
{
    copy(rec, loads);
    unwire(loads);
    let mut prices = [0u32; 13128];
    first_prices(rec, &mut prices);
    let mut marks = [0u8; 13128];
    let mut queue = [0u16; 13128];
    let mut parent = [0u16; 13128];
    let mut slot = [0u8; 13128];
    let mut stack = [0u16; 13128];
    let mut rim = [0u16; 13128];
    let mut work = Work {
        prices: &mut prices,
        marks: &mut marks,
        queue: &mut queue,
        parent: &mut parent,
        slot: &mut slot,
        stack: &mut stack,
        rim: &mut rim,
    };
    work.wire_lines(rec, loads);
}

// The loads of the least wiring, on a copy of a record in whose job every chosen pin can have a wire. What the wiring works on is not needed any more
// as loops are taken out.
pub fn least_wiring(rec: &[u8], loads: &mut [u8])
    requires { Legal rec.now × Wireable (job_of rec.now) × (length loads.old ≡ record_size) }
    ensures { Least rec.now loads.new }
{
    wire_all(rec, loads);
    unloop(loads);
}
