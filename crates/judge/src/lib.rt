// The wires that `escape` lists, judged on the arcs of the second implementation.
#![tactic(auto)]

pub mod fault; // what can be wrong
pub mod walk; // how far the check is
pub mod ways; // the nodes and darts that a listing names
pub mod links; // what the wires use of each link
pub mod rounds; // the pairing inside each place
pub mod totals; // the two lines behind the wires
pub mod listing; // the check
