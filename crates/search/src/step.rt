// Step: one wire more, if one fits. It works on a copy of the record, so that a record that takes no wire more is not touched.
ghost use Rattle.model.specs.Record.{Legal};
ghost use Rattle.search.specs.Outcome.{StepDid};

use crate::untangle::untangle;
use augment::next::next_wire;
use channel::copy::copy;

// One wire more is laid; or no wire more fits.
#[derive(Clone, Copy)]
pub enum Progress {
    Added,
    Full,
}

// One wire more in the record, if one fits.
pub fn step(rec: &mut [u8]) -> Progress
    requires { Legal rec.old }
    ensures { StepDid rec.old rec.new result }
{
    let mut loads = [0u8; 32768];
    copy(rec, &mut loads);
    let mut marks = [0u8; 13128];
    let mut queue = [0u16; 13128];
    let mut parent = [0u16; 13128];
    let mut slot = [0u8; 13128];
    let mut lists = [0u16; 28154];
    match next_wire(
        rec,
        &mut loads,
        &mut marks,
        &mut queue,
        &mut parent,
        &mut slot,
        &mut lists,
    ) {
        Some(_) => {
            untangle(rec, &mut loads, &mut queue, &mut parent, &mut slot);
            copy(&loads, rec);
            Progress::Added
        }
        None => Progress::Full,
    }
}
