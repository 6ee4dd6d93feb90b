// One line of job text: the fixed words, which the writer writes too, and the line at an offset of a text.
#![tactic(auto)]

pub mod words; // the fixed byte strings
pub mod scan; // words and numbers at an offset
pub mod group; // the groups of lines
pub mod lines; // the forms of a line
pub mod held; // a reader that holds the text and the offset of its next line
