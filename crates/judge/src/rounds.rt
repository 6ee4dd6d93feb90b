// Lanes and pairing. Every wire that passes a place joins an arrival to a departure there. Round the place, links
// clockwise, arriving lanes falling and departing lanes rising, the first neighbouring pair of one arrival and one
// departure is joined and struck out, until nothing is left: the joins of the wires have to be these.
ghost use Rattle.std.specs.Prelude.{◌<◌};

use oracle::arcs::{kind_of, tile_of};
use oracle::net::{FIRST_PIN, NODES, OUTSIDE};

// The kind of a centre's entry.
const IN: usize = 4;

// More passes than any listing has.
const PASSES: usize = 80000;

// A wire comes to a place at one position round it and leaves it at another. A position is 1 + 32 × slot + order within the link. `earlier` is the pass of the same
// place before this one, 0 for none.
#[derive(Clone, Copy)]
struct Pass {
    earlier: u32,
    from: u8,
    to: u8,
}

// Every pass, and the latest of each node, 0 for none.
#[derive(Clone, Copy)]
pub struct Passes {
    latest: [u32; 12328],
    passes: [Pass; 80000],
    count: usize,
}

// What happens at a position round a place, and at which position the wire leaves or came.
#[derive(Clone, Copy)]
enum Event {
    Comes(u8),
    Leaves(u8),
}

type Round = [Option<Event>; 256];

// The number of the link to `v` in the clockwise order round `u`, an entry standing for its centre or missing pin.
fn slot(u: usize, v: usize) -> usize
    ensures { result < 6 }
{
    let k = kind_of(u);
    let j = kind_of(v);
    if u >= FIRST_PIN {
        return (j + 1) % 4;
    }
    if k == IN {
        return j;
    }
    if v == OUTSIDE {
        return 0;
    }
    if v >= FIRST_PIN {
        return 4;
    }
    if tile_of(u) != tile_of(v) {
        return 0;
    }
    if j >= IN {
        return 2;
    }
    if j == (k + 1) % 4 { 1 } else { 3 }
}

// The position round `u` of a wire that leaves to `v` by the lane.
pub fn leaving(u: usize, v: usize, lane: usize) -> u8 {
    let s = slot(u, v);
    if lane < 32 {
        (1 + 32 * s + lane) as u8
    } else {
        0
    }
}

// The position round `u` of a wire that comes from `v` by the lane.
pub fn coming(u: usize, v: usize, lane: usize) -> u8 {
    let s = slot(u, v);
    if lane < 32 {
        (1 + 32 * s + (31 - lane)) as u8
    } else {
        0
    }
}

// Puts the event at its position.
fn put(round: &mut Round, k: u8, event: Event) {
    round[usize::from(k)] = Some(event);
}

// The position at which the wire of the event leaves or came.
fn partner(event: Event) -> u8 {
    match event {
        Event::Comes(other) | Event::Leaves(other) => other,
    }
}

// One of the two comes, and the other leaves.
fn differ(a: Event, b: Event) -> bool {
    match (a, b) {
        (Event::Comes(_), Event::Leaves(_)) | (Event::Leaves(_), Event::Comes(_)) => true,
        _ => false,
    }
}

// Joins the first neighbouring pair of one arrival and one departure and strikes it out, until nothing is left; says whether these joins are those of the wires.
fn is_struck_out(round: &Round) -> bool {
    let mut stack = [(0u8, Event::Comes(0)); 256];
    let mut height: usize = 0;
    for k in 1..=255u8 {
        if let Some(event) = round[usize::from(k)] {
            let (place, top) = stack[height.saturating_sub(1) % 256];
            if height > 0 && differ(top, event) {
                if partner(event) != place {
                    return false;
                }
                height -= 1;
            } else if height < 256 {
                stack[height] = (k, event);
                height += 1;
            }
        }
    }
    height == 0
}

impl Passes {
    pub const NONE: Passes = Passes {
        latest: [0; 12328],
        passes: [Pass {
            earlier: 0,
            from: 0,
            to: 0,
        }; 80000],
        count: 0,
    };

    // A wire comes to `u` at the position `from` and leaves it at `to`; one that starts at `u` comes at no position and is none.
    pub fn join(&mut self, u: usize, from: Option<u8>, to: u8) {
        if let Some(from) = from {
            if u < NODES && self.count < PASSES - 1 {
                self.count += 1;
                self.passes[self.count] = Pass {
                    earlier: self.latest[u],
                    from,
                    to,
                };
                self.latest[u] = self.count as u32;
            }
        }
    }

    // The wires that pass `u` are joined as they have to be.
    fn is_paired(&self, u: usize) -> bool {
        let mut round: Round = [None; 256];
        let mut k = if u < NODES {
            self.latest[u] as usize
        } else {
            0
        };
        for _ in 0..1000 {
            if k == 0 || k >= PASSES {
                break;
            }
            let pass = self.passes[k];
            put(&mut round, pass.from, Event::Comes(pass.to));
            put(&mut round, pass.to, Event::Leaves(pass.from));
            k = pass.earlier as usize;
        }
        is_struck_out(&round)
    }

    // At every place the wires are joined as they have to be.
    pub fn are_paired(&self) -> bool {
        (0..NODES).all(|u| u >= NODES || self.latest[u] == 0 || self.is_paired(u))
    }
}
