// The label of a node is BASE and the least cost to come to it from the nodes at which the labels start, or 0 where no dart with something left leads there.
// A node whose label falls waits in a ring until its darts have been looked at. Labels that never stop falling show a loop that takes more off than it adds.
ghost use Rattle.std.specs.Prelude.{IfSome, ◌<◌};

use crate::costs::Costs;
use oracle::net::{NODES, Network, narrow, wide};

// More than any cost.
pub const BASE: usize = 1000000000;

// More places than nodes.
const RING: usize = 13000;

#[derive(Clone, Copy)]
pub struct Labels {
    labels: [u32; 12328],
    waits: [bool; 12328],
    ring: [u32; 13000],
    front: usize,
    back: usize,
}

// The place of the ring after this one.
fn after(k: usize) -> usize {
    if k < RING - 1 { k + 1 } else { 0 }
}

impl Labels {
    pub const EMPTY: Labels = Labels {
        labels: [0; 12328],
        waits: [false; 12328],
        ring: [0; 13000],
        front: 0,
        back: 0,
    };

    pub fn label(&self, u: usize) -> usize
        ensures { result < 4294967296 }
    {
        if u < NODES { wide(self.labels[u]) } else { 0 }
    }

    // The node has a new label, and waits at the back of the ring, unless it waits already.
    pub fn set(&mut self, v: usize, label: usize) {
        if v >= NODES {
            return;
        }
        self.labels[v] = narrow(label);
        if !self.waits[v] && self.back < RING {
            self.waits[v] = true;
            self.ring[self.back] = narrow(v);
            self.back = after(self.back);
        }
    }

    // The dart `d` leads from a node of this cost.
    fn correct(&mut self, network: &Network, costs: &Costs, cost: usize, d: usize) {
        if network.rest(d) > 0 {
            let v = network.to(d);
            let new = costs.onward(network, cost, d);
            let old = self.label(v);
            if old == 0 || new < old {
                self.set(v, new);
            }
        }
    }

    // Looks at the darts of the node.
    fn correct_from(&mut self, network: &Network, costs: &Costs, u: usize) {
        let cost = self.label(u);
        let mut d = network.first(u);
        for _ in 0..4000 {
            if d == 0 {
                break;
            }
            self.correct(network, costs, cost, d);
            d = network.next(d);
        }
    }

    // Takes the node that waits first, if one does.
    fn serve(&mut self) -> Option<usize>
        ensures { IfSome result (λ u. u < 4294967296) }
    {
        if self.front == self.back || self.front >= RING {
            return None;
        }
        let u = wide(self.ring[self.front]);
        self.front = after(self.front);
        if u < NODES {
            self.waits[u] = false;
        }
        Some(u)
    }

    // No node has a label, and none waits.
    pub fn clear(&mut self) {
        self.labels.fill(0);
        self.waits.fill(false);
        self.front = 0;
        self.back = 0;
    }

    // Every node has the label BASE, and waits.
    pub fn level(&mut self) {
        self.clear();
        for u in 0..NODES {
            self.set(u, BASE);
        }
    }

    // Corrects labels until no node waits, or for this many nodes; says whether none waits.
    pub fn settle(&mut self, network: &Network, costs: &Costs, most: u64) -> bool {
        for _ in 0..most {
            match self.serve() {
                None => return true,
                Some(u) => self.correct_from(network, costs, u),
            }
        }
        false
    }
}
