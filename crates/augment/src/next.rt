// The next wire: the pins from the rim inwards, ring by ring, each that is chosen, starts no wire and is not marked, until one has a way out. Wires from
// the rim are short, and those laid after them turn round them.
ghost use Rattle.std.specs.Prelude.{◌≡◌, ◌*◌, ◌≤◌, ◌<◌, T, length};
ghost use Rattle.model.specs.Job.{array_fits};
ghost use Rattle.model.specs.Record.{job_of};
ghost use Rattle.channel.specs.Map.{spots};
ghost use Rattle.augment.specs.Spread.{Room};
ghost use Rattle.augment.specs.Steps.{Whole};
ghost use Rattle.augment.specs.Marks.{Listed, Unmarked};
ghost use Rattle.augment.specs.Ways.{Linked, LaidTo};
ghost use Rattle.augment.specs.Work.{SameLent, LentTo, MarksOnly};
ghost use Rattle.augment.specs.Pins.{Held, Dead, Open, Tested, inward, spot_on, Nth, OnLine, InRows, AnySpot, Answered};

use crate::lists::note_line;
use crate::reach::Way;
use crate::ways::lay_way;
use crate::work::Work;
use channel::places::pin_exit;
use channel::{columns, is_start, rows, wire_starts};

// A row of so many pins, or a column where it is upright, and its number.
#[derive(Clone, Copy)]
pub struct Line {
    pub upright: bool,
    pub number: usize,
    pub pins: usize,
}

// The i-th of n in the order first, last, second, last but one, and so on.
pub fn inwards(i: usize, n: usize) -> usize
    requires { i < n }
    ensures { (result ≡ inward i n) × (result < n) }
{
    if i % 2 == 0 { i / 2 } else { n - 1 - i / 2 }
}

// The i-th line: the rows in that order, and after each the column that has the same turn, or no pins where there is none.
pub fn nth_line(job: &[u8], i: usize) -> Line
    requires { (32768 ≤ length job.now) × T (array_fits (job_of job.now).rows (job_of job.now).columns) × (i < 2 * (job_of job.now).rows) }
    ensures { Nth (job_of job.now) i result }
{
    let n = rows(job);
    let m = columns(job);
    let k = i / 2;
    if i % 2 == 0 {
        return Line {
            upright: false,
            number: inwards(k, n),
            pins: m,
        };
    }
    if k < m {
        return Line {
            upright: true,
            number: inwards(k, m),
            pins: n,
        };
    }
    Line {
        upright: true,
        number: 0,
        pins: 0,
    }
}

// The spot of the pin at x of a line.
pub fn spot_on(l: Line, x: usize) -> usize
    requires { (l.number < 40) × (x < 40) }
    ensures { (result ≡ spot_on l x) × (result < 13128) }
{
    let k = l.number;
    if l.upright {
        pin_exit(x, k)
    } else {
        pin_exit(k, x)
    }
}

impl<'a> Work<'a> {
    // Whether a search is to begin at u.
    fn is_open(&self, job: &[u8], loads: &[u8], u: usize) -> bool
        requires { Whole job.now loads.now × (spots ≤ length self.now.marks.now) × (u < spots) }
        ensures { Open (job_of job.now) loads.now self.now.marks.now u result }
    {
        if !is_start(job, u) {
            return false;
        }
        if wire_starts(job, loads, u) != 0 {
            return false;
        }
        if self.marks[u] == 1 {
            return false;
        }
        true
    }

    // Lays the way that a search found.
    fn lay(&self, loads: &mut [u8], way: Way)
        requires { Linked loads.old self.now.queue.now self.now.parent.now self.now.slot.now way.place way.slot }
        ensures { LaidTo self.now.queue.now self.now.parent.now self.now.slot.now way.place way.slot 0 loads.old loads.new }
    {
        lay_way(
            loads,
            self.queue,
            self.parent,
            self.slot,
            way.place,
            way.slot,
        );
    }

    // The first n spots in the queue are not marked any more.
    fn unmark(&mut self, n: usize)
        requires { Listed self.old.marks.now self.old.queue.now n }
        ensures same { SameLent self.old self.new }
        ensures rest { MarksOnly self.old self.new }
        ensures unmarked { Unmarked self.old.queue.now n self.old.marks.now self.new.marks.now }
    {
        for i in 0..n {
            let u = self.queue[i] as usize;
            self.marks[u] = 0;
        }
    }

    // Lays a wire from u, if u is a pin that is to have one and there is a way out.
    fn wire_from(&mut self, job: &[u8], loads: &mut [u8], u: usize) -> bool
        requires lent { LentTo job.now loads.old self.old }
        requires held { Held (job_of job.now) loads.old }
        requires dead { Dead (job_of job.now) loads.old self.old.marks.now }
        requires spot { u < spots }
        ensures same { SameLent self.old self.new }
        ensures lent { LentTo job.now loads.new self.new }
        ensures tested { Tested (job_of job.now) loads.old self.old.marks.now u loads.new self.new.marks.now result }
    {
        if !self.is_open(job, loads, u) {
            return false;
        }
        match self.reach(job, loads, u) {
            Ok(_) => false,
            Err(way) => {
                self.lay(loads, way);
                self.unmark(way.count);
                true
            }
        }
    }

    // Lays a wire from the first pin of a line that is to have one and has a way out, whose spot it gives; its pins are tried from the ends inwards.
    fn line_wire(&mut self, job: &[u8], loads: &mut [u8], l: Line) -> Option<usize>
        requires lent { LentTo job.now loads.old self.old }
        requires held { Held (job_of job.now) loads.old }
        requires dead { Dead (job_of job.now) loads.old self.old.marks.now }
        requires line { (l.number < 40) × (l.pins ≤ 40) }
        ensures same { SameLent self.old self.new }
        ensures lent { LentTo job.now loads.new self.new }
        ensures answered { Answered (job_of job.now) (OnLine l l.pins) loads.old self.old.marks.now loads.new self.new.marks.now result }
    {
        let n = l.pins;
        for i in 0..n {
            let u = spot_on(l, inwards(i, n));
            if self.wire_from(job, loads, u) {
                return Some(u);
            }
        }
        None
    }

    // Lays a wire from the first pin that is to have one and has a way out, of the lines from a to before b, and gives its spot.
    fn lines_wire(&mut self, job: &[u8], loads: &mut [u8], a: usize, b: usize) -> Option<usize>
        requires lent { LentTo job.now loads.old self.old }
        requires held { Held (job_of job.now) loads.old }
        requires dead { Dead (job_of job.now) loads.old self.old.marks.now }
        requires lines { (a ≤ b) × (b ≤ 2 * (job_of job.now).rows) }
        ensures same { SameLent self.old self.new }
        ensures lent { LentTo job.now loads.new self.new }
        ensures answered { Answered (job_of job.now) (InRows (job_of job.now) a b) loads.old self.old.marks.now loads.new self.new.marks.now result }
    {
        for i in a..b {
            let l = nth_line(job, i);
            if let Some(u) = self.line_wire(job, loads, l) {
                note_line(self.lists, i);
                return Some(u);
            }
        }
        None
    }

    // Lays the next wire and gives the spot of its pin, or none where no wire more fits. The lines before that of the last wire come last: their pins are wired, or have no way out.
    pub fn next_wire(&mut self, job: &[u8], loads: &mut [u8]) -> Option<usize>
        requires lent { LentTo job.now loads.old self.old }
        requires held { Held (job_of job.now) loads.old }
        requires dead { Dead (job_of job.now) loads.old self.old.marks.now }
        ensures same { SameLent self.old self.new }
        ensures lent { LentTo job.now loads.new self.new }
        ensures answered { Answered (job_of job.now) AnySpot loads.old self.old.marks.now loads.new self.new.marks.now result }
    {
        let n = 2 * rows(job);
        let a = self.last_line(n);
        if let Some(u) = self.lines_wire(job, loads, a, n) {
            return Some(u);
        }
        self.lines_wire(job, loads, 0, a)
    }
}

// Lays the next wire and gives the spot of its pin, or none where no wire more fits. It works on what is lent to it.
pub fn next_wire(
    job: &[u8],
    loads: &mut [u8],
    marks: &mut [u8],
    queue: &mut [u16],
    parent: &mut [u16],
    slot: &mut [u8],
    lists: &mut [u16],
) -> Option<usize>
    requires { Whole job.now loads.old × Room marks.old queue.old parent.old slot.old
        × Held (job_of job.now) loads.old × Dead (job_of job.now) loads.old marks.old × (26513 ≤ length lists.old) }
    ensures { Answered (job_of job.now) AnySpot
        loads.old marks.old loads.new marks.new result }
{
    let mut work = Work {
        marks,
        queue,
        parent,
        slot,
        lists,
    };
    work.next_wire(job, loads)
}
