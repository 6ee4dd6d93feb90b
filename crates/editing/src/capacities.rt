// The edits of capacities: the D of a tile, and the E of a job.
ghost use Rattle.std.specs.Prelude.{◌≡◌, ◌*◌, ◌≤◌, T, length};
ghost use Rattle.model.specs.Job.{own_for, diagonal_by, in_range, is_tile, with_extra};
ghost use Rattle.model.specs.Record.{job_of};
ghost use Rattle.model.specs.Left.{centre_left, extra_left};
ghost use Rattle.model.specs.Calls.{diagonal_in, extra_in};

use crate::edit::Edit;
use answers::Refusal;
use channel::{diagonal_at, is_tile, orthogonal};
use model::in_range;
use takeout::{diagonal_keeping, extra_keeping};

// What a tile keeps of a D: the job's is none of its own.
fn own_of(rec: &[u8], d: usize) -> usize
    requires { 32768 ≤ length rec.now }
    ensures { (result ≡ own_for (job_of rec.now) d) × (result ≤ d) }
{
    if d == channel::diagonal(rec) { 0 } else { d }
}

// The D of a tile.
#[derive(Debug, Clone, Copy, PartialEq, Eq)]
pub struct OwnDiagonal {
    pub row: usize,
    pub column: usize,
    pub d: usize,
}

impl Edit for OwnDiagonal {
    ghost leaves = { λ s. diagonal_in s.row s.column s.d };

    ghost admits = { λ s J. T (is_tile J s.row s.column) × T (in_range J.O (2 * J.O) s.d) };

    ghost job = { λ s J. diagonal_by J s.row s.column s.d };

    ghost left = { λ s J f. centre_left J f s.row s.column };

    fn admit(&self, rec: &[u8]) -> Result<(), Refusal> {
        if !is_tile(rec, self.row, self.column) {
            return Err(Refusal::NoSuchPlace);
        }
        let o = orthogonal(rec);
        if !in_range(o, 2 * o, self.d) {
            return Err(Refusal::Capacities);
        }
        Ok(())
    }

    fn stands(&self, rec: &[u8]) -> bool {
        diagonal_at(rec, 41 + 40 * self.row + self.column) == self.d
    }

    fn store(&self, was: &[u8], rec: &mut [u8]) {
        let own = own_of(was, self.d);
        diagonal_keeping(was, rec, self.row, self.column, own);
    }
}

// A lower E.
#[derive(Debug, Clone, Copy, PartialEq, Eq)]
pub struct LowerExtra {
    pub e: usize,
}

impl Edit for LowerExtra {
    ghost leaves = { λ s. extra_in s.e };

    ghost admits = { λ s J. s.e ≤ J.E };

    ghost job = { λ s J. with_extra J s.e };

    ghost left = { λ s J f. extra_left J f };

    fn admit(&self, rec: &[u8]) -> Result<(), Refusal> {
        if self.e > channel::extra(rec) {
            return Err(Refusal::Capacities);
        }
        Ok(())
    }

    fn stands(&self, rec: &[u8]) -> bool {
        self.e == channel::extra(rec)
    }

    fn store(&self, was: &[u8], rec: &mut [u8]) {
        extra_keeping(was, rec, self.e);
    }
}
