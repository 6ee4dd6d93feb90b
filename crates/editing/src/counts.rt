// The edit of the count of wires already laid on a side of a tile.
ghost use Rattle.std.specs.Prelude.{◌≤◌, T};
ghost use Rattle.model.specs.Job.{side_of, laid_by, is_tile};
ghost use Rattle.model.specs.Left.{laid_left};
ghost use Rattle.model.specs.Calls.{laid_in};

use crate::edit::Edit;
use answers::Refusal;
use channel::{is_tile, laid_on, orthogonal};
use takeout::lay_keeping;

// The count of a side, n, e, s, w for 0 to 3.
#[derive(Debug, Clone, Copy, PartialEq, Eq)]
pub struct Laying {
    pub row: usize,
    pub column: usize,
    pub side: usize,
    pub count: usize,
}

impl Edit for Laying {
    ghost leaves = { λ s. laid_in s.row s.column s.side s.count };

    ghost admits = { λ s J. T (is_tile J s.row s.column) × (s.side ≤ 3) × (s.count ≤ J.O) };

    ghost job = { λ s J. laid_by J (side_of s.row s.column s.side) s.count };

    ghost left = { λ s J f. laid_left J f (side_of s.row s.column s.side) s.count };

    fn admit(&self, rec: &[u8]) -> Result<(), Refusal> {
        if !is_tile(rec, self.row, self.column) {
            return Err(Refusal::NoSuchPlace);
        }
        if self.side > 3 {
            return Err(Refusal::UnknownValue);
        }
        if self.count > orthogonal(rec) {
            return Err(Refusal::CountAboveO);
        }
        Ok(())
    }

    fn stands(&self, rec: &[u8]) -> bool {
        laid_on(rec, self.row, self.column, self.side) == self.count
    }

    fn store(&self, was: &[u8], rec: &mut [u8]) {
        lay_keeping(was, rec, self.row, self.column, self.side, self.count);
    }
}
