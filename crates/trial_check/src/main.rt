// Holds the operation that makes a job for a load trial to the vectors of data/ and, on random arguments and buffers of all lengths, to the second
// implementation, which shares no code with it. It writes what came out wrong, and how many checks of each part are right and wrong.
#![tactic(auto)]

mod calls; // random calls
mod vectors; // the vectors of data/

use verdict::bytes::Tally;

fn main(rt: HostRuntime) {
    let mut vectors = Tally::NONE;
    vectors::vectors(&rt, &mut vectors);
    vectors.tell(&rt, b"vectors");
    let mut calls = Tally::NONE;
    calls::calls(&rt, &mut calls);
    calls.tell(&rt, b"random calls");
}
