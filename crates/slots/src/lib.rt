// The slots of a spot as the bits of a number: those along which the search may move, and those that lead to spots with no mark. Each spot is tested once,
// by its kind.
#![tactic(auto)]

mod ahead; // the slots that lead to spots with no mark
mod slots; // the slots along which the search may move

pub use ahead::unmarked;
pub use slots::move_slots;
