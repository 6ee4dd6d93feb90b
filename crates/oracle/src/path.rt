// A path from START that grows and shrinks by its last dart, and the dart that each node is at.
ghost use Rattle.std.specs.Prelude.{◌<◌, ◌≤◌};

use crate::net::{NODES, Network, START, narrow, opposite, wide};

#[derive(Clone, Copy)]
pub struct Path {
    currents: [u32; 12328],
    darts: [u32; 12328],
    depth: usize,
    // The node that the path comes to.
    node: usize,
    ghost fits: { (depth ≤ 12328) × (node < 4294967296) },
}

impl Path {
    pub const EMPTY: Path = Path {
        currents: [0; 12328],
        darts: [0; 12328],
        depth: 0,
        node: START,
    };

    pub fn node(&self) -> usize
        ensures { result < 4294967296 }
    {
        self.node
    }

    // The dart that the path's last node is at, 0 for none.
    pub fn current(&self) -> usize
        ensures { result < 4294967296 }
    {
        if self.node < NODES {
            wide(self.currents[self.node])
        } else {
            0
        }
    }

    // Every node is at its first dart, and the path has no dart.
    pub fn rewind(&mut self, network: &Network) {
        for u in 0..NODES {
            self.reset(network, u);
        }
        self.restart();
    }

    // The node is at its first dart.
    pub fn reset(&mut self, network: &Network, u: usize) {
        if u < NODES {
            self.currents[u] = narrow(network.first(u));
        }
    }

    // The path has no dart.
    pub fn restart(&mut self) {
        self.depth = 0;
        self.node = START;
    }

    // The dart at `k` of the path, 0 for none.
    pub fn dart(&self, k: usize) -> usize
        ensures { result < 4294967296 }
    {
        if k < self.depth && k < NODES {
            wide(self.darts[k])
        } else {
            0
        }
    }

    pub fn depth(&self) -> usize
        ensures { result ≤ 12328 }
    {
        self.depth
    }

    // The path goes on by the dart `d`, where it has room.
    pub fn advance(&mut self, network: &Network, d: usize) {
        if self.depth < NODES {
            self.darts[self.depth] = narrow(d);
            self.depth += 1;
            self.node = network.to(d);
        }
    }

    // The path's last node goes on to the dart after `d`.
    pub fn skip(&mut self, network: &Network, d: usize) {
        if self.node < NODES {
            self.currents[self.node] = narrow(network.next(d));
        }
    }

    // Takes the last dart off the path, from which its node goes on, and says whether there was one.
    pub fn retreat(&mut self, network: &Network) -> bool {
        if self.depth == 0 {
            return false;
        }
        let d = self.dart(self.depth - 1);
        self.depth -= 1;
        self.node = network.to(opposite(d));
        self.skip(network, d);
        true
    }
}
