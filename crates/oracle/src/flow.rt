// The greatest number of wires, by Dinic's phases. A phase gives every node its level, the fewest darts with
// something left from START, and then lays wires along rising levels until none is left to lay. A wire is one
// unit, since START lets one through to each chosen pin. When the outside has no level, the nodes that have one
// are what START reaches: the smallest near side. Every loop has a count of turns that no run uses up.
ghost use Rattle.std.specs.Prelude.{◌<◌};

use crate::net::{DARTS, NODES, Network, OUTSIDE, START, narrow, wide};
use crate::path::Path;

const TURNS: u64 = 1000000000000;

// The level of each node, 0 for none, the nodes that have come to one in their order, the path that is looked at, and how many wires are laid.
#[derive(Clone, Copy)]
pub struct Flow {
    levels: [u32; 12328],
    queue: [u32; 12328],
    back: usize,
    path: Path,
    laid: u32,
}

impl Flow {
    pub const EMPTY: Flow = Flow {
        levels: [0; 12328],
        queue: [0; 12328],
        back: 0,
        path: Path::EMPTY,
        laid: 0,
    };

    fn level(&self, u: usize) -> usize
        ensures { result < 4294967296 }
    {
        if u < NODES { wide(self.levels[u]) } else { 0 }
    }

    // The node has a level.
    pub fn is_near(&self, u: usize) -> bool {
        self.level(u) > 0
    }

    // Gives `v` this level and puts it into the queue, where it has none yet.
    fn reach(&mut self, v: usize, level: usize) {
        if v < NODES && self.levels[v] == 0 && self.back < NODES {
            self.levels[v] = narrow(level);
            self.queue[self.back] = narrow(v);
            self.back += 1;
        }
    }

    // Reaches what the darts of the node with something left lead to.
    fn reach_from(&mut self, network: &Network, u: usize) {
        let level = self.level(u) + 1;
        let mut d = network.first(u);
        for _ in 0..DARTS {
            if d == 0 {
                break;
            }
            if network.rest(d) > 0 {
                self.reach(network.to(d), level);
            }
            d = network.next(d);
        }
    }

    // Gives every node that START reaches its level, and every other node 0.
    fn spread(&mut self, network: &Network) {
        self.levels.fill(0);
        self.back = 0;
        self.reach(START, 1);
        for front in 0..NODES {
            if front >= self.back {
                break;
            }
            self.reach_from(network, wide(self.queue[front]));
        }
    }

    // Lays a wire along the path, which has come to the outside, and starts anew.
    fn finish(&mut self, network: &mut Network) {
        for k in 0..self.path.depth() {
            network.lay(self.path.dart(k));
        }
        self.path.restart();
        self.laid = self.laid.wrapping_add(1);
    }

    // The dart has something left, and leads from the path's last node to the next level.
    fn leads(&self, network: &Network, d: usize) -> bool {
        network.rest(d) > 0 && self.level(network.to(d)) == self.level(self.path.node()) + 1
    }

    // One move of the path's end; says whether there was anything to do.
    fn explore(&mut self, network: &mut Network) -> bool {
        if self.path.node() == OUTSIDE {
            self.finish(network);
            return true;
        }
        match self.path.current() {
            0 => return self.path.retreat(network),
            d if self.leads(network, d) => self.path.advance(network, d),
            d => self.path.skip(network, d),
        }
        true
    }

    // Lays wires along rising levels until none is left to lay.
    fn block(&mut self, network: &mut Network) {
        self.path.rewind(network);
        for _ in 0..TURNS {
            if !self.explore(network) {
                break;
            }
        }
    }

    // Lays as many wires as fit on the network, and gives their number. The levels are then those of the near side.
    pub fn solve(&mut self, network: &mut Network) -> usize
        ensures { result < 4294967296 }
    {
        for _ in 0..TURNS {
            self.spread(network);
            if !self.is_near(OUTSIDE) {
                break;
            }
            self.block(network);
        }
        wide(self.laid)
    }
}
