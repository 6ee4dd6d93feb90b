// The channel map in code: the constant table, the job and the loads of a record, limits and moves. A crate above calls these functions by their contracts.
pub mod bits; // the lowest bit of a number
pub mod table; // the table's rows, and the way back of a dart
pub mod header; // the job that a record holds
pub mod loads; // how many wires go along a dart
pub mod limits; // how many wires a dart takes
pub mod places; // the places that darts lead to
pub mod moves; // the moves of the search, and what a move stores
pub mod write; // a new job, one mark, state, own D or count, no wires
pub mod copy; // the bytes of a record

pub use bits::lowest;
pub use header::{
    chosen_at, columns, diagonal, diagonal_at, extra, is_chosen, is_missing, is_open, is_tile,
    laid_on, mark_at, mark_of, missing_at, open_at, orthogonal, pin_at, rows, state_of, tile_at,
};
pub use loads::{
    carried, is_fresh, load_against, load_along, loaded_slots, origin, passing, stale_run,
};
pub use moves::{can_move, is_outside, is_start, lay, wire_starts};
pub use table::{head_of, reverse};
pub use write::{clear, set_extra, set_laid, set_mark, set_own, set_state, unwire, write_fresh};
