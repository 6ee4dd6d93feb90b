// The groups of a job text's lines, in their order, and what each has around the numbers of its lines.
ghost use Rattle.std.specs.Prelude.{◌≡◌};
ghost use Rattle.model.specs.Text.{group_of};
ghost use Rattle.line.specs.Groups.{text_group};
ghost use Rattle.line.specs.Lines.{opening, stop};

use crate::words::{CHOSEN, CLOSED, LAID, MISSING, OWN};

#[derive(Debug, Clone, Copy, PartialEq, Eq, PartialOrd, Ord)]
pub enum Group {
    Chosen,
    Missing,
    Closed,
    Own,
    Laid,
}

impl Group {
    pub const ALL: [Group; 5] = [
        Group::Chosen,
        Group::Missing,
        Group::Closed,
        Group::Own,
        Group::Laid,
    ];

    // What its lines begin with: a parenthesis, the word and a space.
    pub fn opening(self) -> &'static [u8]
        ensures { result.now ≡ opening (text_group self) }
    {
        match self {
            Group::Chosen => CHOSEN,
            Group::Missing => MISSING,
            Group::Closed => CLOSED,
            Group::Own => OWN,
            Group::Laid => LAID,
        }
    }

    // The byte after the column: the parenthesis that ends the line, or the space before its tail.
    pub fn stop(self) -> u8
        ensures { result ≡ stop (text_group self) }
    {
        match self {
            Group::Chosen | Group::Missing | Group::Closed => b')',
            Group::Own | Group::Laid => b' ',
        }
    }
}

// The group of a rank: 2 to 5 for the first four, and every other number is the last.
impl From<usize> for Group {
    ghost from_gives = { λ n g. text_group g ≡ group_of n };

    fn from(rank: usize) -> Group {
        match rank {
            2 => Group::Chosen,
            3 => Group::Missing,
            4 => Group::Closed,
            5 => Group::Own,
            _ => Group::Laid,
        }
    }
}
