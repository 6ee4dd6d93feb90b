// The edits of a value in a cell: the mark of a pin, and the state of a tile.
ghost use Rattle.std.specs.Prelude.{◌≤◌, T, true, false};
ghost use Rattle.model.specs.Job.{marked, closed, is_pin, is_tile};
ghost use Rattle.model.specs.Left.{mark_left, close_left};
ghost use Rattle.model.specs.Calls.{marked_by, closed_by};

use crate::edit::Edit;
use answers::Refusal;
use channel::{is_tile, mark_of, pin_at, state_of};
use takeout::{close_keeping, mark_keeping};

// The mark of a pin.
#[derive(Debug, Clone, Copy, PartialEq, Eq)]
pub struct Marking {
    pub row: usize,
    pub column: usize,
    pub mark: usize,
}

impl Edit for Marking {
    ghost leaves = { λ s. marked_by s.row s.column s.mark };

    ghost admits = { λ s J. T (is_pin J s.row s.column) × (s.mark ≤ 2) };

    ghost job = { λ s J. marked J s.row s.column s.mark };

    ghost left = { λ s J f. mark_left J f s.row s.column };

    fn admit(&self, rec: &[u8]) -> Result<(), Refusal> {
        if !pin_at(rec, self.row, self.column) {
            return Err(Refusal::NoSuchPlace);
        }
        if self.mark > 2 {
            return Err(Refusal::UnknownValue);
        }
        Ok(())
    }

    fn stands(&self, rec: &[u8]) -> bool {
        mark_of(rec, self.row, self.column) == self.mark
    }

    fn store(&self, was: &[u8], rec: &mut [u8]) {
        mark_keeping(was, rec, self.row, self.column, self.mark);
    }
}

// The state of a tile.
#[derive(Debug, Clone, Copy, PartialEq, Eq)]
pub struct Closing {
    pub row: usize,
    pub column: usize,
    pub state: usize,
}

impl Edit for Closing {
    ghost leaves = { λ s. closed_by s.row s.column s.state };

    ghost admits = { λ s J. T (is_tile J s.row s.column) × (s.state ≤ 1) };

    ghost job = { λ s J. closed J s.row s.column s.state };

    ghost left = { λ s J f. close_left J f s.row s.column };

    fn admit(&self, rec: &[u8]) -> Result<(), Refusal> {
        if !is_tile(rec, self.row, self.column) {
            return Err(Refusal::NoSuchPlace);
        }
        if self.state > 1 {
            return Err(Refusal::UnknownValue);
        }
        Ok(())
    }

    fn stands(&self, rec: &[u8]) -> bool {
        state_of(rec, self.row, self.column) == self.state
    }

    fn store(&self, was: &[u8], rec: &mut [u8]) {
        close_keeping(was, rec, self.row, self.column, self.state);
    }
}
