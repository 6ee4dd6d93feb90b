// The second implementation of document 01, for tests to compare the router with. It shares no code with the router: the network is an explicit list of arcs,
// and the greatest number comes from Dinic's phases of levels. Each function is proved safe and ending, and no more: what it computes is what the tests compare.
#![tactic(auto)]

pub mod net; // arcs, and what is left to them
pub mod arcs; // the arcs of a job
pub mod path; // a path that grows and shrinks
pub mod flow; // phases of levels
pub mod near; // the greatest number, and the near side
pub mod lines; // the listing of a short or refused job
