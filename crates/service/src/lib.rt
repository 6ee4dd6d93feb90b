// The operations of document 01, and the listing of a record's wires, on lent buffers. Each takes any bytes and any numbers, refuses by the first number that fits, and says what it leaves in
// every byte.
pub use answers::{Refusal, Stepped, Verdict};
pub use editing::{close, diagonal, extra, lay, mark};
pub use making::{new, read_text, write_text};
pub use routing::{list_wires, part, shortfall, step};
pub use sheets::sheet;
pub use trials::{Draws, trial};
