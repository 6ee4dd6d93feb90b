// The operations that make a job, and its text.
#![tactic(auto)]

pub mod anew; // New
pub mod texts; // Read text, Write text

pub use anew::new;
pub use texts::{read_text, write_text};
