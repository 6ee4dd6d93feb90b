// One wire more: over the channel map's published promise alone.
#![tactic(auto)]

pub mod work; // what the search for a wire works on
mod lists; // the spots that wait, by how far they are from the rim
pub mod reach; // from a pin, the spots nearest to the rim first, to the outside or to a closed set
pub mod ways; // the way that a search found: laid, and its marks taken back
pub mod next; // the pins, one after the other
