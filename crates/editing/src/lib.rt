// Mark, Close, the counts of wires already laid, the D of a tile, and a lower E. Each takes out only the wires that it has to.
#![tactic(auto)]

mod edit; // what an edit is, and how one is made
mod values; // the mark of a pin, the state of a tile
mod counts; // the count of wires already laid on a side
mod capacities; // the D of a tile, the E of a job

ghost use Rattle.std.specs.Prelude.{[]};
ghost use Rattle.model.specs.Calls.{mark as Mark, close as Close, lay as Lay, diagonal as Diagonal, extra as Extra, after, Did};
ghost use Rattle.answers.specs.Answers.{answered, as_done};

use crate::capacities::{LowerExtra, OwnDiagonal};
use crate::counts::Laying;
use crate::edit::make;
use crate::values::{Closing, Marking};
use answers::Refusal;

// The mark of a pin.
pub fn mark(rec: &mut [u8], row: usize, column: usize, mark: usize) -> Result<(), Refusal>
    ensures { Did (Mark row column mark) rec.old (after (answered as_done result) rec.new [] []) }
{
    make(rec, &Marking { row, column, mark })
}

// The state of a tile.
pub fn close(rec: &mut [u8], row: usize, column: usize, state: usize) -> Result<(), Refusal>
    ensures { Did (Close row column state) rec.old (after (answered as_done result) rec.new [] []) }
{
    make(rec, &Closing { row, column, state })
}

// The count of wires already laid on a side of a tile: n, e, s, w for 0 to 3.
pub fn lay(
    rec: &mut [u8],
    row: usize,
    column: usize,
    side: usize,
    count: usize,
) -> Result<(), Refusal>
    ensures { Did (Lay row column side count) rec.old (after (answered as_done result) rec.new [] []) }
{
    let laying = Laying {
        row,
        column,
        side,
        count,
    };
    make(rec, &laying)
}

// The D of a tile; the job's D means that it has none of its own.
pub fn diagonal(rec: &mut [u8], row: usize, column: usize, d: usize) -> Result<(), Refusal>
    ensures { Did (Diagonal row column d) rec.old (after (answered as_done result) rec.new [] []) }
{
    make(rec, &OwnDiagonal { row, column, d })
}

// A lower E.
pub fn extra(rec: &mut [u8], e: usize) -> Result<(), Refusal>
    ensures { Did (Extra e) rec.old (after (answered as_done result) rec.new [] []) }
{
    make(rec, &LowerExtra { e })
}
