// New.
ghost use Rattle.std.specs.Prelude.{[]};
ghost use Rattle.model.specs.Calls.{new as New, after, Did};
ghost use Rattle.answers.specs.Answers.{answered, as_done};

use answers::Refusal;
use channel::write_fresh;
use model::{Array, Capacities};

// An idle, open, unwired job.
pub fn new(rec: &mut [u8], array: Array, capacities: Capacities) -> Result<(), Refusal>
    ensures { Did (New array.rows array.columns capacities.orthogonal capacities.diagonal capacities.extra) rec.old
        (after (answered as_done result) rec.new [] []) }
{
    if rec.len() < 32768 {
        return Err(Refusal::Damaged);
    }
    if !array.fits() {
        return Err(Refusal::Size);
    }
    if !capacities.admitted() {
        return Err(Refusal::Capacities);
    }
    write_fresh(
        rec,
        array.rows,
        array.columns,
        capacities.orthogonal,
        capacities.diagonal,
        capacities.extra,
    );
    Ok(())
}
