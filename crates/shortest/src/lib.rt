// The least length: prices at the spots of a record, and what moves leave.
#![tactic(auto)]

pub mod slack; // what a move leaves
pub mod expand; // one spot of the search along tight moves
pub mod grow; // a wire more at the least cost, with prices raised until there is a way
pub mod first; // first prices
pub mod wiring; // the pins, one after the other, on a copy
pub mod shorten; // the wires of a record, shortened
