// The check of a listing: the wires that `escape` prints for a job whose chosen pins all have one. Every step has to be
// an arc of the job, taken the way it leads, and what the wires use of each link has to keep its limit and fill its lanes. The
// two lines behind the wires have to be their total length and mean.
ghost use Rattle.std.specs.Prelude.{◌≤◌, IfOk, IsNone};

use crate::fault::Fault;
use crate::links::Uses;
use crate::rounds::{Passes, coming, leaving};
use crate::totals::judge_total;
use crate::walk::Walk;
use crate::ways::{arrival, dart, departure, is_entry, letter_of, step_length};
use oracle::arcs::exit_node;
use oracle::net::{NODES, Network, OUTSIDE, START};
use oracle_length::least::least_length;
use oracle_text::job::{Job, Mark};
use oracle_text::scan::{Found, scan};

// The network of a job, what the wires use of its links, how they pass its places, and the last pin, counted from 1, whose wire came to each node.
#[derive(Drop)]
struct Board {
    network: Network,
    uses: Uses,
    passes: Passes,
    seen: [u32; 12328],
}

impl Board {
    const EMPTY: Board = Board {
        network: Network::EMPTY,
        uses: Uses::NONE,
        passes: Passes::NONE,
        seen: [0; 12328],
    };

    // The wire of the pin comes to the node `v`, to which it has not come before.
    fn see(&mut self, v: usize, pin: usize) -> Result<(), Fault> {
        if v >= NODES || pin >= 1600 {
            return Err(Fault::NoPlace);
        }
        let wire = (pin + 1) as u32;
        if self.seen[v] == wire {
            return Err(Fault::PlaceTwice);
        }
        self.seen[v] = wire;
        Ok(())
    }

    // A wire passes the centre or the missing pin whose entry it has come to.
    fn pass(&mut self, u: usize) -> Result<(), Fault> {
        if u >= NODES || !is_entry(u) {
            return Ok(());
        }
        let d = dart(&self.network, u, u + 1).ok_or(Fault::OverLimit)?;
        let lane = self.uses.load(&self.network, d);
        self.uses.take(&self.network, d, lane)
    }
}

// A job, the text that lists its wires, and how far the check of it is.
#[derive(Clone, Copy)]
struct Check<'a> {
    job: &'a Job,
    text: &'a [u8],
    walk: Walk,
}

impl Check<'_> {
    // The text goes on with this form.
    fn scan(&self, template: &[u8]) -> Option<Found> {
        scan(self.text, self.walk.at, template)
    }

    // The first line, which says how many wires there are; where it says anything else, the check stops at the first byte that may not stand.
    fn first(&mut self, wires: usize) -> Result<(), Fault> {
        let mut said = None;
        for t in b"(wires #)\n" {
            let found = self.scan(&[*t]).ok_or(Fault::WrongCount)?;
            self.walk.at = found.at;
            if *t == b'#' {
                said = Some(found.value(0));
            }
        }
        if said == Some(wires) {
            Ok(())
        } else {
            Err(Fault::WrongCount)
        }
    }

    // The next pin's turn comes.
    fn next_pin(&mut self) {
        self.walk = self.walk.next_pin(START);
    }

    // The wire goes on to the node `v` by the lane, and its next part begins at `at`.
    fn go(&mut self, board: &mut Board, at: usize, v: usize, lane: usize) -> Result<(), Fault> {
        let walk = self.walk;
        let u = departure(walk.node);
        let d = dart(&board.network, u, v).ok_or(Fault::NoLink)?;
        board.uses.take(&board.network, d, lane)?;
        board.pass(v)?;
        let to = leaving(walk.node, v, lane);
        board.passes.join(walk.node, walk.came, to);
        self.walk = Walk {
            at,
            node: v,
            came: Some(coming(v, walk.node, lane)),
            length: walk.length.wrapping_add(step_length(u, v)),
            ..walk
        };
        Ok(())
    }

    // A `to` of the wire.
    fn go_to(&mut self, board: &mut Board, to: Found) -> Result<(), Fault> {
        let v = arrival(self.job, to.value(0), to.value(1), to.value(2)).ok_or(Fault::NoPlace)?;
        board.see(v, self.walk.pin)?;
        self.go(board, to.at, v, to.value(3))
    }

    // The `out` of the wire, from a rim side or from the wire's own pin, with which the next pin's turn comes.
    fn go_out(&mut self, board: &mut Board, out: Found) -> Result<(), Fault> {
        let letter = letter_of(self.walk.node).map_or(0, usize::from);
        if letter != out.value(0) {
            return Err(Fault::NoLink);
        }
        let gone = self.go(board, out.at, OUTSIDE, out.value(1));
        self.next_pin();
        gone
    }

    // One part of a wire after its pin.
    fn part(&mut self, board: &mut Board) -> Result<(), Fault> {
        if let Some(to) = self.scan(b" (to # # @ #)") {
            return self.go_to(board, to);
        }
        let out = self.scan(b" (out @ #))\n").ok_or(Fault::WrongForm)?;
        self.go_out(board, out)
    }

    // The start of the wire of the pin, if it is chosen.
    fn start(&mut self) -> Result<(), Fault> {
        let p = self.walk.pin;
        if self.job.mark(p) != Mark::Chosen {
            self.next_pin();
            return Ok(());
        }
        let pin = self.scan(b"(wire (pin # #)").ok_or(Fault::WrongPin)?;
        if pin.value(0) != p / 40 || pin.value(1) != p % 40 {
            return Err(Fault::WrongPin);
        }
        let node = exit_node(p).ok_or(Fault::WrongPin)?;
        self.walk = Walk {
            at: pin.at,
            node,
            came: None,
            ..self.walk
        };
        Ok(())
    }

    // Checks the wires of all pins, one part after another: no text has as many parts.
    fn walk_all(&mut self, board: &mut Board) -> Result<(), Fault>
        ensures { IfOk result (λ _. 1600 ≤ self.new.walk.pin) }
    {
        for _ in 0..1000000000000u64 {
            if self.walk.pin >= 1600 {
                return Ok(());
            }
            if self.walk.node == START {
                self.start()?;
            } else {
                self.part(board)?;
            }
        }
        Err(Fault::NotEnded)
    }

    // Checks the whole listing.
    fn check_all(&mut self) -> Result<(), Fault>
        ensures { IfOk result (λ _. 1600 ≤ self.new.walk.pin) }
    {
        let mut board = Board::EMPTY;
        board.network.build(self.job);
        let wires = self.job.count_marked(Mark::Chosen);
        self.first(wires)?;
        self.walk_all(&mut board)?;
        board.uses.judge(&board.network)?;
        if !board.passes.are_paired() {
            return Err(Fault::NotPaired);
        }
        judge_total(self.text, self.walk.at, wires, self.walk.length)
    }
}

// Checks the listing of a wired job: every chosen pin has one legal wire. Gives how far the check came: of a legal listing to the lines behind the wires, else to
// the first fault.
pub fn walk_listing(job: &Job, text: &[u8]) -> Walk
    ensures { IsNone result.fault → 1600 ≤ result.pin }
{
    let mut check = Check {
        job,
        text,
        walk: Walk {
            at: 0,
            pin: 0,
            node: START,
            came: None,
            length: 0,
            fault: None,
        },
    };
    match check.check_all() {
        Ok(()) => check.walk,
        Err(fault) => check.walk.at_fault(fault),
    }
}

// The same, of wires that have to have the least length together.
pub fn walk_least(job: &Job, text: &[u8]) -> Walk
    ensures { IsNone result.fault → 1600 ≤ result.pin }
{
    let walk = walk_listing(job, text);
    if walk.fault.is_none() && least_length(job) != Some(walk.length) {
        walk.at_fault(Fault::NotLeast)
    } else {
        walk
    }
}

// Checks the listing of a wired job. Gives the length of the wires together.
pub fn check_listing(job: &Job, text: &[u8]) -> Result<usize, Fault> {
    walk_listing(job, text).checked()
}

// The same, of wires that have to have the least length together.
pub fn check_least(job: &Job, text: &[u8]) -> Result<usize, Fault> {
    walk_least(job, text).checked()
}
