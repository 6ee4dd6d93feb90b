// What a record is held to by docs/RECORD.md alone, with no code of the router: whether it is legal, which pins have a wire, and which job it holds. And the tally
// of what a program of tests has checked.
#![tactic(auto)]

pub mod bytes; // bytes, and the tally
pub mod ends; // a record's links
pub mod legal; // whether a record is legal
pub mod record; // records with a margin, held to a job or to the record before a step
