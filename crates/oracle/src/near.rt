// Shortfall: chosen pins less the greatest number, and the smallest near side in the published order, the byte
// 8 × (41 + 40 r + c) + kind of each pin, place, entry and exit. And the sum of any near side.
ghost use Rattle.std.specs.Prelude.{◌<◌};

use crate::flow::Flow;
use crate::net::{DARTS, FIRST_PIN, NODES, Network, START, opposite};
use oracle_text::job::{Job, Mark};

pub type Near = [u8; 32768];

// The published byte of the node `u`; 0, which is nothing's, where it has none.
fn byte_of(u: usize) -> usize
    ensures { result < 32768 }
{
    match u {
        2..FIRST_PIN => {
            let t = (u - 2) / 6;
            8 * (41 + 40 * (t / 39) + t % 39) + 2 + (u - 2) % 6
        }
        FIRST_PIN..NODES => 8 * (41 + (u - FIRST_PIN) / 2) + u % 2,
        _ => 0,
    }
}

// Chosen pins less the greatest number. Where that is not 0, `out` is the smallest near side; else it is untouched.
pub fn shortfall(job: &Job, out: &mut Near) -> usize
    ensures { result < 1601 }
{
    let mut network = Network::EMPTY;
    let mut flow = Flow::EMPTY;
    network.build(job);
    let greatest = flow.solve(&mut network);
    let wanted = job.count_marked(Mark::Chosen);
    if greatest >= wanted {
        return 0;
    }
    out.fill(0);
    for u in 2..NODES {
        if flow.is_near(u) {
            out[byte_of(u)] = 1;
        }
    }
    wanted - greatest
}

// The node `u` lies in the near side.
fn holds(near: &Near, u: usize) -> bool {
    u == START || near[byte_of(u)] == 1
}

// The dart `d` leads out of the near side.
fn leads_out(network: &Network, near: &Near, d: usize) -> bool {
    holds(near, network.to(opposite(d))) && !holds(near, network.to(d))
}

// The sum of a near side: the chosen pins outside it, and every limit on a link that leads out of it.
pub fn sum_of(job: &Job, near: &Near) -> usize {
    let mut network = Network::EMPTY;
    network.build(job);
    let mut sum: usize = 0;
    for d in 2..DARTS {
        if leads_out(&network, near, d) {
            sum = sum.wrapping_add(network.rest(d));
        }
    }
    sum
}
