// The least length of wires for every chosen pin. A round labels the nodes from START anew and lays wires along darts on which each label is the one before it and
// what the dart adds, as many as a search finds that enters no node twice; so each wire costs as little as one more can, and as much as it adds. When the outside
// has no label, no wire more fits. Every loop has a count of turns that no run uses up.
ghost use Rattle.std.specs.Prelude.{◌<◌};

use crate::costs::Costs;
use crate::labels::{BASE, Labels};
use oracle::net::{NODES, Network, OUTSIDE, START, opposite};
use oracle::path::Path;
use oracle_text::job::{Job, Mark};

const TURNS: u64 = 1000000000000;

// The network of a job and what its darts count, the labels of its nodes, the path that is looked at, the nodes that no path may enter, how many wires are laid, and
// their length.
#[derive(Drop)]
struct Wiring {
    network: Network,
    costs: Costs,
    labels: Labels,
    path: Path,
    entered: [bool; 12328],
    laid: usize,
    length: usize,
}

impl Wiring {
    const EMPTY: Wiring = Wiring {
        network: Network::EMPTY,
        costs: Costs::EMPTY,
        labels: Labels::EMPTY,
        path: Path::EMPTY,
        entered: [false; 12328],
        laid: 0,
        length: 0,
    };

    fn enter(&mut self, u: usize, entered: bool) {
        if u < NODES {
            self.entered[u] = entered;
        }
    }

    // Lays a wire on the dart, whose first node may be entered again.
    fn lay(&mut self, d: usize) {
        let u = self.network.to(opposite(d));
        self.network.lay(d);
        self.path.reset(&self.network, u);
        self.enter(u, false);
    }

    // Lays a wire along the path, which has come to the outside, and starts anew.
    fn finish(&mut self) {
        let cost = self.labels.label(OUTSIDE).wrapping_sub(BASE);
        for k in 0..self.path.depth() {
            let d = self.path.dart(k);
            self.lay(d);
        }
        self.enter(OUTSIDE, false);
        self.path.restart();
        self.laid = self.laid.wrapping_add(1);
        self.length = self.length.wrapping_add(cost);
    }

    // The dart has something left, its end is not entered, and the labels differ by what it adds.
    fn leads(&self, d: usize) -> bool {
        let v = self.network.to(d);
        let cost = self.labels.label(self.path.node());
        self.network.rest(d) > 0
            && v != START
            && v < NODES
            && !self.entered[v]
            && self.labels.label(v) == self.costs.onward(&self.network, cost, d)
    }

    // One move of the path's end; says whether there was anything to do.
    fn explore(&mut self) -> bool {
        if self.path.node() == OUTSIDE {
            self.finish();
            return true;
        }
        match self.path.current() {
            0 => return self.path.retreat(&self.network),
            d if self.leads(d) => {
                let v = self.network.to(d);
                self.enter(v, true);
                self.path.advance(&self.network, d);
            }
            d => self.path.skip(&self.network, d),
        }
        true
    }

    // Lays wires along these labels until the search finds none.
    fn lay_ways(&mut self) {
        self.entered.fill(false);
        self.path.rewind(&self.network);
        for _ in 0..TURNS {
            if !self.explore() {
                break;
            }
        }
    }

    // Lays all wires of the job that fit, on a network without arcs.
    fn lay_wires(&mut self, job: &Job) {
        self.network.build(job);
        self.costs.measure(&self.network);
        for _ in 0..1000000 {
            self.labels.clear();
            self.labels.set(START, BASE);
            self.labels.settle(&self.network, &self.costs, TURNS);
            if self.labels.label(OUTSIDE) == 0 {
                break;
            }
            self.lay_ways();
        }
    }

    // The wires laid count the length that was summed up, and no change of them round a loop takes anything off: labels that start at every node settle.
    fn is_least(&mut self) -> bool {
        self.labels.level();
        self.labels.settle(&self.network, &self.costs, 200000000)
            && self.costs.spent_all(&self.network) == self.length
    }
}

// The least length of wires for every chosen pin, if all can have one. Its memory is its own, so that no caller needs that of two wirings.
#[inline(never)]
pub fn least_length(job: &Job) -> Option<usize> {
    let mut wiring = Wiring::EMPTY;
    wiring.lay_wires(job);
    if wiring.laid < job.count_marked(Mark::Chosen) {
        None
    } else {
        Some(wiring.length)
    }
}

// The length that the wires of the job have by `least_length` is the least of so many wires.
#[inline(never)]
pub fn is_settled(job: &Job) -> bool {
    let mut wiring = Wiring::EMPTY;
    wiring.lay_wires(job);
    wiring.is_least()
}
