// Step, Shortfall, Part and the listing: the wires of a record.
#![tactic(auto)]

ghost use Rattle.std.specs.Prelude.{[]};
ghost use Rattle.model.specs.Calls.{step as Step, shortfall as Shortfall, part as PartCall, listing as Listing, after, Did, lacks, wrote};
ghost use Rattle.answers.specs.Answers.{answered, as_stepped, as_listed};

use answers::{Refusal, Stepped, undamaged};
use channel::{clear, is_chosen};
use search::lacking;
use search::step::Progress;
use shortest::shorten::shorten;
use wire::{Part, part_at};

// One wire more, if one fits; where every chosen pin is wired, wires of the least total length.
pub fn step(rec: &mut [u8], scratch: &mut [u8]) -> Result<Stepped, Refusal>
    ensures { Did (Step scratch.old) rec.old (after (answered as_stepped result) rec.new scratch.new []) }
{
    undamaged(rec)?;
    if scratch.len() < 65536 {
        return Err(Refusal::ShortScratch);
    }
    clear(&mut scratch[..65536]);
    let Progress::Full = search::step::step(rec) else {
        return Ok(Stepped::Added);
    };
    if lacking(rec) == 0 {
        shorten(rec);
        return Ok(Stepped::AllWired);
    }
    Ok(Stepped::Short)
}

// The chosen pins less the greatest number, and the near side where that is not 0.
pub fn shortfall(rec: &[u8], scratch: &mut [u8], output: &mut [u8]) -> Result<usize, Refusal>
    ensures { Did (Shortfall scratch.old output.old) rec.now
        (after (answered lacks result) rec.now scratch.new output.new) }
{
    undamaged(rec)?;
    if scratch.len() < 65536 {
        return Err(Refusal::ShortScratch);
    }
    if output.len() < 32768 {
        return Err(Refusal::ShortOutput);
    }
    clear(&mut scratch[..65536]);
    let lack = search::shortfall(rec, output);
    Ok(lack)
}

// The part of a pin's wire at an index.
pub fn part(rec: &[u8], row: usize, column: usize, index: usize) -> Result<Part, Refusal>
    ensures { Did (PartCall row column index) rec.now (after (answered as_listed result) rec.now [] []) }
{
    undamaged(rec)?;
    if !is_chosen(rec, row, column) {
        return Err(Refusal::NoSuchPlace);
    }
    Ok(part_at(rec, row, column, index))
}

// The listing of the wires that the record holds.
pub fn list_wires(rec: &[u8], output: &mut [u8]) -> Result<usize, Refusal>
    ensures { Did (Listing output.old) rec.now (after (answered wrote result) rec.now [] output.new) }
{
    undamaged(rec)?;
    listing::write(rec, output).ok_or(Refusal::ShortOutput)
}
