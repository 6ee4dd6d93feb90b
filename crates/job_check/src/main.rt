// Compares the operations, the listings and the search on whole jobs with the oracle, which shares no code with them: on the vectors of data/ and on random jobs;
// and on damaged records with the verdict. It writes what came out wrong, and how many checks of each part are right and wrong.
#![tactic(auto)]

mod damage; // damaged records
mod jobs; // random jobs
mod legs; // wires of rim pins that leave by a leg
mod parts; // the listing by Part
mod vectors; // the vectors of data/

use compare::shortened::tell_found;
use verdict::bytes::{Tally, line};

fn main(rt: HostRuntime) {
    let mut vectors = Tally::NONE;
    vectors::vectors(&rt, &mut vectors);
    vectors.tell(&rt, b"vectors");
    let mut jobs = Tally::NONE;
    let mut exits = [0u64; 2];
    let mut found = [0u64; 2];
    jobs::jobs(&rt, &mut jobs, &mut exits, &mut found);
    jobs.tell(&rt, b"random jobs");
    line(&rt, b"wires that leave directly", exits[0]);
    line(&rt, b"wires that leave by a side", exits[1]);
    tell_found(&rt, &found);
    let mut damage = Tally::NONE;
    let mut kept = [0u64; 2];
    damage::damage(&rt, &mut damage, &mut kept);
    damage.tell(&rt, b"damage");
    line(&rt, b"changes that leave a legal record", kept[0]);
    line(&rt, b"changes that damage it", kept[1]);
}
