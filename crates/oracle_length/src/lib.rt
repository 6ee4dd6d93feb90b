// The least total length of a job's wires, for tests to compare the router with, on the arcs of the second implementation: a shortest way out after another, by
// labels that are corrected until none is wrong. It shares no code with the router, and keeps no prices. Each function is proved safe and ending, and no more.
#![tactic(auto)]

pub mod costs; // what a wire more on an arc adds
pub mod labels; // the least cost to come to each node
pub mod least; // the least length
pub mod lines; // the two lines behind the wires of a listing
