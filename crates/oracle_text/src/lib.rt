// Jobs and their text in the second implementation of document 01, for tests to compare the router with. It shares no code with the router: the job is a plain
// array of cells, and a text is matched against templates. Each function is proved safe and ending, and no more: what it computes is what the tests compare.
#![tactic(auto)]

pub mod job; // a job as an array of cells
pub mod page; // bytes written one after the other
pub mod scan; // a text held to a template
pub mod text; // job text read and written
pub mod random; // jobs drawn at random
pub mod trial; // the jobs of load trials
