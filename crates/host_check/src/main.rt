// Calls the exported functions as a host does and reads their words by include/talusdish.h alone: on the examples of document 01, with each word written out,
// and on random lists of calls, where a word has to say what the operation answers and the buffers have to be as the operation leaves them. What the operations
// answer is compared with the second implementation by `service_check`, on random calls too.
#![tactic(auto)]

mod calls; // random lists of calls
mod examples; // the examples of document 01
mod words; // what a word says

use verdict::bytes::Tally;

fn main(rt: HostRuntime) {
    let mut examples = Tally::NONE;
    examples::examples(&rt, &mut examples);
    examples.tell(&rt, b"host examples");
    let mut calls = Tally::NONE;
    let mut counts = [0u64; 22];
    calls::calls(&rt, &mut calls, &mut counts);
    calls.tell(&rt, b"host calls");
    words::tell_counts(&rt, &counts);
}
