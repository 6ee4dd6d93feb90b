// Job text: the judgement of a text, the job that a text gives, and the text that a job gives.
#![tactic(auto)]

pub mod reader; // which line may stand where, and the judgement of a whole text
pub mod into; // the job of a text in a record

pub use into::read_into;
pub use reader::{WrongLine, judge};
pub use writing::write_text;
