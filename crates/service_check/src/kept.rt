// Document 02, K5, by the listings before and after an edit, and no code of the router. Of each wire before the edit its own parts say whether the edit takes it
// out. Those that it takes out are counted out of the load bytes, step by step; every other has to be listed afterwards with the same places in the same order
// and lanes no higher, and no other wire may be.
use crate::expect::cell;
use crate::steps::{Goal, Step, Wire, pin, side_at};
use check::same;
use compare::listed::{listed, only_wired, shown};
use judge::listing::check_listing;
use oracle_text::job::{Job, Mark, Side};
use oracle_text::scan::scan;
use verdict::bytes::{Tally, line};
use verdict::ends::{Fields, Link, Spot};
use verdict::record::{Record, holds_job};

// Which wires an edit takes out.
#[derive(Clone, Copy, PartialEq, Eq, Debug)]
enum Takes {
    Nothing,
    // Those that start at the pin.
    From(usize),
    // Those that pass the pin.
    Past(usize),
    // Those that pass any pin.
    PastAny,
    // Those that meet a side or the centre of the tile.
    Meeting(usize),
    // Those that pass the centre of the tile.
    Through(usize),
    // Those on the link in the lane `from` or a higher one.
    Lanes { link: Link, from: usize },
}

// An edit that puts `value` at the byte `at` of the record; `side` is that whose count it changes.
#[derive(Clone, Copy)]
pub struct Edit {
    at: usize,
    value: usize,
    takes: Takes,
    side: Option<Link>,
}

impl Edit {
    // One that changes the count of no side.
    fn new(at: usize, value: usize, takes: Takes) -> Edit {
        Edit {
            at,
            value,
            takes,
            side: None,
        }
    }

    // It takes out the wire that starts at the pin p.
    fn strikes_start(self, p: usize) -> bool {
        self.takes == Takes::From(p)
    }

    // It takes out a wire that takes the step.
    fn strikes(self, step: Step) -> bool {
        if let Takes::Lanes { link, from } = self.takes {
            return step.link() == Some(link) && step.lane >= from;
        }
        let Goal::At(to) = step.to else {
            return false;
        };
        match to.spot {
            Spot::Pin => self.takes == Takes::PastAny || self.takes == Takes::Past(to.cell),
            Spot::Side(_) => self.takes == Takes::Meeting(to.cell),
            Spot::Centre => {
                self.takes == Takes::Meeting(to.cell) || self.takes == Takes::Through(to.cell)
            }
        }
    }

    // The lane of the step afterwards is no higher; on a side whose count is changed it is the same.
    fn keeps_lane(self, step: Step, after: usize) -> bool {
        if self.side.is_some() && step.link() == self.side {
            return after == step.lane;
        }
        after <= step.lane
    }

    // Puts its value into the record.
    fn put(self, rec: &mut Record) {
        if self.at < 32768 {
            if let Ok(value) = u8::try_from(self.value) {
                rec[self.at] = value;
            }
        }
    }
}

// Another mark of a pin whose mark was `old`.
pub fn marking(row: usize, column: usize, old: Mark, new: Mark) -> Edit {
    let p = cell(row, column);
    let takes = match old {
        Mark::Idle => Takes::Nothing,
        Mark::Chosen => Takes::From(p),
        Mark::Missing => Takes::Past(p),
    };
    Edit::new(768 + p, new as usize, takes)
}

pub fn closing(row: usize, column: usize, value: usize) -> Edit {
    let p = cell(row, column);
    let takes = if value == 1 {
        Takes::Meeting(p)
    } else {
        Takes::Nothing
    };
    Edit::new(2368 + p, value, takes)
}

// Another D of a tile, of which it keeps `own`.
pub fn giving(row: usize, column: usize, own: usize) -> Edit {
    let p = cell(row, column);
    Edit::new(31168 + p, own, Takes::Through(p))
}

// A lower E.
pub fn lowering(e: usize) -> Edit {
    Edit::new(4, e, Takes::PastAny)
}

// Where the count of wires already laid on a side stands in a record.
fn laid_at(side: Link) -> usize {
    side.offset().unwrap_or(8768).wrapping_add(24000)
}

// Another count of a side, of which `old` wires were laid.
pub fn laying(job: &Job, row: usize, column: usize, side: Side, old: usize, count: usize) -> Edit {
    let link = side_at(cell(row, column), side);
    let takes = if old < count {
        Takes::Lanes {
            link,
            from: job.side().wrapping_sub(count),
        }
    } else {
        Takes::Nothing
    };
    Edit {
        at: laid_at(link),
        value: count,
        takes,
        side: Some(link),
    }
}

// The edit takes out the wire that starts at the pin p.
fn goes(wire: Wire, p: usize, edit: Edit) -> bool {
    let mut wire = wire;
    if edit.strikes_start(p) {
        return true;
    }
    for _ in 0..20000 {
        let Some(step) = wire.step() else {
            break;
        };
        if edit.strikes(step) {
            return true;
        }
    }
    false
}

// The load byte with a wire less this way; 255, which says nothing, where none goes this way.
fn lessened(x: usize, forth: bool) -> u8 {
    match (x, forth) {
        (33, false) => 0,
        (1..=31, true) | (34..=63, false) => (x - 1) as u8,
        _ => 255,
    }
}

// A wire less on the link of the step.
fn lessen(rec: &mut Record, step: Step) {
    let Some(link) = step.link() else {
        return;
    };
    let load = Fields::of(rec).load(link);
    if let Some(at) = link.offset() {
        if at < 32768 {
            rec[at] = lessened(load, step.goes_forth());
        }
    }
}

// The wire less; gives the offset behind its parts.
fn take_out(rec: &mut Record, wire: Wire) -> usize {
    let mut wire = wire;
    for _ in 0..20000 {
        let Some(step) = wire.step() else {
            break;
        };
        lessen(rec, step);
    }
    wire.at()
}

// The offsets behind the parts of a wire before and after the edit, if they are the same places in lanes that may be.
fn follow(was: Wire, now: Wire, edit: Edit) -> Option<(usize, usize)> {
    let (mut was, mut now) = (was, now);
    for _ in 0..20000 {
        let Some(before) = was.step() else {
            break;
        };
        let after = now.step()?;
        if before.to != after.to || !edit.keeps_lane(before, after.lane) {
            return None;
        }
    }
    Some((was.at(), now.at()))
}

// The wires of a list are at their end.
fn is_past(list: &[u8], at: usize) -> bool {
    scan(list, at, b"(length ").is_some()
}

// The listings before and after an edit, how far they are compared, and how many wires stay and go. What is not as it has to be ends the comparison with None.
#[derive(Clone, Copy)]
struct Comparison<'a> {
    was: &'a [u8],
    now: &'a [u8],
    at: usize,
    then: usize,
    stay: usize,
    go: usize,
}

impl<'a> Comparison<'a> {
    // One wire of the listing before the edit: counted out of the record where it goes, and else compared with the next one of the listing after it.
    fn pass_wire(&mut self, rec: &mut Record, edit: Edit) -> Option<()> {
        let f = scan(self.was, self.at, b"(wire (pin # #)")?;
        let start = pin(f)?;
        let wire = Wire::new(self.was, f.at, start);
        if goes(wire, start.cell, edit) {
            self.at = take_out(rec, wire);
            self.go = self.go.wrapping_add(1);
            return Some(());
        }
        let g = scan(self.now, self.then, b"(wire (pin # #)")?;
        if pin(g)? != start {
            return None;
        }
        let (at, then) = follow(wire, Wire::new(self.now, g.at, start), edit)?;
        self.at = at;
        self.then = then;
        self.stay = self.stay.wrapping_add(1);
        Some(())
    }

    // All wires of the listing before the edit, with the listing after it.
    fn pass_wires(&mut self, rec: &mut Record, edit: Edit) -> Option<()> {
        for _ in 0..1600 {
            if is_past(self.was, self.at) {
                break;
            }
            self.pass_wire(rec, edit)?;
        }
        Some(())
    }
}

// How many wires of a listing stay and how many go.
#[derive(Clone, Copy)]
struct Passed {
    stay: usize,
    go: usize,
}

// Both listings are compared to the end of their wires, and their first lines count the wires that were there and those that stay.
fn pass_all(rec: &mut Record, was: &[u8], now: &[u8], edit: Edit) -> Option<Passed> {
    let f = scan(was, 0, b"(wires #)\n")?;
    let g = scan(now, 0, b"(wires #)\n")?;
    let mut both = Comparison {
        was,
        now,
        at: f.at,
        then: g.at,
        stay: 0,
        go: 0,
    };
    both.pass_wires(rec, edit)?;
    let ended = is_past(was, both.at) && is_past(now, both.then);
    let all = both.stay.wrapping_add(both.go);
    if ended && f.value(0) == all && g.value(0) == both.stay {
        Some(Passed {
            stay: both.stay,
            go: both.go,
        })
    } else {
        None
    }
}

// Of all edits together: the edits that leave wires and those that take some out, the wires that stay, and those that go, by what takes them out.
#[derive(Clone, Copy, PartialEq, Eq, Debug)]
pub struct Kept {
    leaving: u64,
    taking: u64,
    stay: u64,
    from: u64,
    past: u64,
    past_any: u64,
    meeting: u64,
    through: u64,
    lanes: u64,
}

fn add(count: &mut u64, n: usize) {
    *count = count.wrapping_add(n as u64);
}

impl Kept {
    pub const NONE: Kept = Kept {
        leaving: 0,
        taking: 0,
        stay: 0,
        from: 0,
        past: 0,
        past_any: 0,
        meeting: 0,
        through: 0,
        lanes: 0,
    };

    fn note(&mut self, edit: Edit, passed: Passed) {
        add(&mut self.leaving, usize::from(passed.stay > 0));
        add(&mut self.taking, usize::from(passed.go > 0));
        add(&mut self.stay, passed.stay);
        match edit.takes {
            Takes::Nothing => {}
            Takes::From(_) => add(&mut self.from, passed.go),
            Takes::Past(_) => add(&mut self.past, passed.go),
            Takes::PastAny => add(&mut self.past_any, passed.go),
            Takes::Meeting(_) => add(&mut self.meeting, passed.go),
            Takes::Through(_) => add(&mut self.through, passed.go),
            Takes::Lanes { .. } => add(&mut self.lanes, passed.go),
        }
    }

    pub fn tell(&self, rt: &impl Print) {
        line(rt, b"edits that leave wires", self.leaving);
        line(rt, b"edits that take out wires", self.taking);
        line(rt, b"wires that stay", self.stay);
        line(rt, b"wires that go, from their pin", self.from);
        line(rt, b"wires that go, past a missing pin", self.past);
        line(rt, b"wires that go, through a closed tile", self.meeting);
        line(rt, b"wires that go, in the highest lanes", self.lanes);
        line(rt, b"wires that go, through a centre", self.through);
        line(rt, b"wires that go, where E is lowered", self.past_any);
    }
}

// The wires of the record are legal, in the job whose other pins are idle.
fn holds_legal(rec: &Record, job: &Job, list: &[u8]) -> bool {
    check_listing(&only_wired(rec, job), list).is_ok()
}

// The record after an edit that changes something: the job is the edited one, the wires that it takes out are gone, and every other is there.
pub fn hold_kept(
    rt: &impl Print,
    tally: &mut Tally,
    kept: &mut Kept,
    before: &Record,
    rec: &Record,
    job: &Job,
    edit: Edit,
) {
    let mut was = [0u8; 1048576];
    let mut now = [0u8; 1048576];
    let mut expected = *before;
    let n = listed(before, &mut was);
    let m = listed(rec, &mut now);
    let (was, now) = (shown(&was, n), shown(&now, m));
    let passed = pass_all(&mut expected, was, now, edit);
    edit.put(&mut expected);
    tally.hold(rt, passed.is_some(), b"an edit keeps the other wires");
    tally.hold(rt, same(&expected, rec), b"the record after an edit");
    tally.hold(rt, holds_job(rec, job), b"the job after an edit");
    let takes = passed.is_some_and(|passed| passed.go > 0);
    let alike = takes || same(was, now);
    tally.hold(rt, alike, b"an edit that takes out no wire");
    let legal = holds_legal(rec, job, now);
    tally.hold(rt, legal, b"the wires after an edit are legal");
    if let Some(passed) = passed {
        kept.note(edit, passed);
    }
}
