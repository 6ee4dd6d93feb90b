// What the wires use of each link: how many there are, which way they go, and their lanes, which have to be the lowest.
ghost use Rattle.std.specs.Prelude.{◌<◌};

use crate::fault::Fault;
use oracle::net::{LINKS, Network, wide};

#[derive(Clone, Copy, PartialEq, Eq)]
enum Way {
    Forth,
    Back,
}

// The wires of a link: how many, the bits of their lanes, and their way, if any goes.
#[derive(Clone, Copy)]
struct Use {
    load: u32,
    lanes: u32,
    way: Option<Way>,
}

#[derive(Clone, Copy)]
pub struct Uses {
    links: [Use; 26000],
}

impl Uses {
    pub const NONE: Uses = Uses {
        links: [Use {
            load: 0,
            lanes: 0,
            way: None,
        }; 26000],
    };

    // How many wires the link of the dart `d` has.
    pub fn load(&self, network: &Network, d: usize) -> usize
        ensures { result < 4294967296 }
    {
        let l = network.link(d);
        if l < LINKS {
            wide(self.links[l].load)
        } else {
            0
        }
    }

    // A wire takes the lane of the link of the dart `d`.
    pub fn take(&mut self, network: &Network, d: usize, lane: usize) -> Result<(), Fault> {
        let l = network.link(d);
        if lane >= 31 || l >= LINKS {
            return Err(Fault::LaneSkipped);
        }
        let way = if d % 2 == 0 { Way::Forth } else { Way::Back };
        let link = self.links[l];
        let bit: u32 = 1 << lane;
        if link.lanes & bit != 0 {
            return Err(Fault::LaneTwice);
        }
        if link.way.is_some_and(|other| other != way) {
            return Err(Fault::BothWays);
        }
        self.links[l] = Use {
            load: link.load.wrapping_add(1),
            lanes: link.lanes | bit,
            way: Some(way),
        };
        Ok(())
    }

    // The wires keep the limit of the link `l` and fill its lanes.
    fn judge_link(&self, network: &Network, l: usize) -> Result<(), Fault> {
        if l >= LINKS {
            return Ok(());
        }
        let link = self.links[l];
        if link.load as usize > network.limit(l) {
            return Err(Fault::OverLimit);
        }
        if link.load < 32 && link.lanes == (1 << link.load) - 1 {
            Ok(())
        } else {
            Err(Fault::LaneSkipped)
        }
    }

    // The same of every link.
    pub fn judge(&self, network: &Network) -> Result<(), Fault> {
        for l in 0..LINKS {
            self.judge_link(network, l)?;
        }
        Ok(())
    }
}
