// Compares the operations call by call with the oracle, which shares no code with them: on the examples of document 01, on random lists of calls, and on edits of
// large records that are full of wires. It writes what came out wrong, how many checks of each part are right and wrong, how often an "all wired" finds the least
// length and how often a greater one, and how many wires edits leave and take out.
#![tactic(auto)]

mod calls; // random lists of calls
mod draws; // random arguments
mod edited; // the examples of K5 and K7
mod edits; // the calls that make or edit a job
mod examples; // the examples of document 01
mod expect; // what a call has to answer
mod full; // edits of full records
mod kept; // the wires that an edit leaves
mod lookup; // a part in a listing
mod steps; // the parts and the links of a wire

use compare::shortened::tell_found;
use verdict::bytes::{Tally, line};

// The parts are kept apart, since the pages of all together are more than a stack holds.
#[inline(never)]
fn random_calls(rt: &impl Print) {
    let mut calls = Tally::NONE;
    let mut direct = [0u64; 2];
    let mut kept = kept::Kept::NONE;
    let mut found = [0u64; 2];
    calls::calls(rt, &mut calls, &mut found, &mut direct, &mut kept);
    calls.tell(rt, b"random calls");
    tell_found(rt, &found);
    line(rt, b"calls after which a wire leaves directly", direct[0]);
    line(rt, b"calls after which none does", direct[1]);
    kept.tell(rt);
}

#[inline(never)]
fn full_records(rt: &impl Print) {
    let mut full = Tally::NONE;
    let mut kept = kept::Kept::NONE;
    let mut found = [0u64; 2];
    full::full(rt, &mut full, &mut found, &mut kept);
    full.tell(rt, b"edits of full records");
    tell_found(rt, &found);
    kept.tell(rt);
}

#[inline(never)]
fn given_examples(rt: &impl Print) {
    let mut examples = Tally::NONE;
    examples::examples(rt, &mut examples);
    edited::edited(rt, &mut examples);
    examples.tell(rt, b"examples");
}

fn main(rt: HostRuntime) {
    given_examples(&rt);
    random_calls(&rt);
    full_records(&rt);
}
