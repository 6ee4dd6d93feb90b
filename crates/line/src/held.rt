// A reader that holds the text and the offset of its next line, and is taken apart for the function on lines.
ghost use Rattle.std.specs.Prelude.{◌≡◌, ◌≤◌, length};
ghost use Rattle.line.specs.Lines.{LineAt};

use crate::lines::{Line, line_at};
use crate::scan::Read;

#[derive(Clone, Copy)]
pub struct Reader<'a> {
    pub text: &'a [u8],
    pub at: usize,
}

impl<'a> Reader<'a> {
    // A reader of the text whose next line begins at an offset.
    pub fn new(text: &'a [u8], at: usize) -> Reader<'a>
        ensures { (result.text ≡ text.entry) × (result.at ≡ at) }
    {
        Reader { text, at }
    }

    // Its next line: of a group, or the end line.
    pub fn line(self) -> Option<Read<Line>>
        requires { self.at ≤ length self.text.now }
        ensures { LineAt self.entry.text.now self.entry.at result }
    {
        line_at(self.text, self.at)
    }
}

// The line at an offset, by a reader that stands there: its callers see no reader.
pub fn next_line(text: &[u8], at: usize) -> Option<Read<Line>>
    requires { at ≤ length text.now }
    ensures { LineAt text.now at result }
{
    Reader::new(text, at).line()
}
