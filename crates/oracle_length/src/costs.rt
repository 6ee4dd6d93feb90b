// What a wire more on a dart adds to the length: 10 over a side, 14 past a missing pin, else nothing. On a dart against which a wire runs it undoes that wire, and
// takes as much off.
ghost use Rattle.std.specs.Prelude.{◌<◌};

use oracle::arcs::tile_of;
use oracle::net::{DARTS, FIRST_PIN, Network, OUTSIDE, START, narrow, opposite, wide};

// What each dart could take at first, and what it counts.
#[derive(Clone, Copy)]
pub struct Costs {
    rooms: [u32; 76000],
    tolls: [u8; 76000],
}

// What a wire from the node `u` to the node `v` counts: a missing pin is passed from its entry to its exit, and a side lies between two tiles or at the rim.
fn toll(u: usize, v: usize) -> u8 {
    if u >= FIRST_PIN && v >= FIRST_PIN {
        return 14;
    }
    if u >= FIRST_PIN || v >= FIRST_PIN || u == START || v == START {
        return 0;
    }
    if u == OUTSIDE || v == OUTSIDE || tile_of(u) != tile_of(v) {
        10
    } else {
        0
    }
}

impl Costs {
    pub const EMPTY: Costs = Costs {
        rooms: [0; 76000],
        tolls: [0; 76000],
    };

    // Keeps what each dart can take, on which nothing is laid yet, and what it counts.
    pub fn measure(&mut self, network: &Network) {
        for d in 2..DARTS {
            self.rooms[d] = narrow(network.rest(d));
            self.tolls[d] = toll(network.to(opposite(d)), network.to(d));
        }
    }

    fn room(&self, d: usize) -> usize
        ensures { result < 4294967296 }
    {
        if d < DARTS { wide(self.rooms[d]) } else { 0 }
    }

    fn toll(&self, d: usize) -> usize
        ensures { result < 256 }
    {
        if d < DARTS {
            usize::from(self.tolls[d])
        } else {
            0
        }
    }

    // The cost to come to the end of the dart `d`, where that to come to its start is this.
    pub fn onward(&self, network: &Network, cost: usize, d: usize) -> usize {
        if network.rest(d) > self.room(d) {
            cost.wrapping_sub(self.toll(d))
        } else {
            cost.wrapping_add(self.toll(d))
        }
    }

    // What the wires on the dart `d` count together.
    pub fn spent(&self, network: &Network, d: usize) -> usize {
        self.room(d)
            .saturating_sub(network.rest(d))
            .wrapping_mul(self.toll(d))
    }

    // What the wires on all darts count.
    pub fn spent_all(&self, network: &Network) -> usize {
        let mut sum: usize = 0;
        for d in 2..DARTS {
            sum = sum.wrapping_add(self.spent(network, d));
        }
        sum
    }
}
