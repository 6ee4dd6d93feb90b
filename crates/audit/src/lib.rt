#![tactic(auto)]

mod header; // the five numbers
mod cells; // the tests of all cells
pub mod loops; // closed chains of loaded links

ghost use Rattle.model.specs.Record.{Legal};
ghost use Rattle.audit.specs.Feasible.{FeasibleRecord, Decides};

use cell::unused_clear;
use cells::cells;
use header::numbers_fit;
use loops::stands;

// Whether the record is in order, loops apart.
pub fn feasible(rec: &[u8]) -> bool
    ensures { Decides (FeasibleRecord rec.now) result }
{
    if rec.len() < 32768 {
        return false;
    }
    if !numbers_fit(rec) {
        return false;
    }
    if !unused_clear(rec) {
        return false;
    }
    cells(rec)
}

// Whether the record is neither short nor damaged.
pub fn sound(rec: &[u8]) -> bool
    ensures { Decides (Legal rec.now) result }
{
    if !feasible(rec) {
        return false;
    }
    !stands(rec)
}
