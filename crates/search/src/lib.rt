// The wire search: over the channel map's published promise alone.
#![tactic(auto)]

pub mod untangle; // loops taken out
pub mod fill; // wires laid until no more fits
pub mod step; // one wire more in a record
pub mod route; // all wires, and what is lacking

pub use route::{lacking, shortfall};
