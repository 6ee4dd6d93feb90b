// The listing of document 01: the bytes that `escape` prints, laid into pages that the caller lends, and the whole listing of a record's wires.
#![tactic(auto)]

pub mod page; // bytes, words and numbers
pub mod near; // the near side of a short job, and a refusal
pub mod wires; // the wires of a legal record
pub mod totals; // the total length and the mean, behind the wires
pub mod whole; // the whole listing in one output

pub use near::{near_page, refused_page, short_page};
pub use page::Page;
pub use totals::totals_page;
pub use whole::write;
pub use wires::{Cursor, Position, count_page, first_wire, wires_page};
