// The text that a job gives.
#![tactic(auto)]

pub mod count; // the length of a job's text
pub mod output; // words and numbers put in an output
pub mod writer; // the text of a record's job

pub use writer::write_text;
