// The operations as functions for hosts. Each passes its buffers on and returns the word of an answer with which the operation did what it promises.
ghost use Rattle.std.specs.Prelude.{◌≡◌, []};
ghost use Rattle.model.specs.Calls.{new as New, mark as Mark, close as Close, lay as Lay, diagonal as Diagonal, step as Step, shortfall as Shortfall, part as Part, read_text, write_text, listing as Listing, trial as Trial, extra as Extra, sheet as Sheet};
ghost use Rattle.model.specs.Trial.{trial_of};
ghost use Rattle.model.specs.Calls.{Answer, after, Did};
ghost use Rattle.talusdish.specs.Words.{word};

use crate::word::word_of;
use model::{Array, Capacities};
use service::Draws;

// An idle, open, unwired job.
#[unsafe(no_mangle)]
pub extern "C" fn talusdish_new(
    rec: &mut [u8],
    rows: u64,
    columns: u64,
    o: u64,
    d: u64,
    e: u64,
) -> u64
    ensures { (a : Answer) × (result ≡ word a)
        × Did (New rows columns o d e) rec.old (after a rec.new [] []) }
{
    let array = Array {
        rows: rows as usize,
        columns: columns as usize,
    };
    let capacities = Capacities {
        orthogonal: o as usize,
        diagonal: d as usize,
        extra: e as usize,
    };
    word_of(service::new(rec, array, capacities))
}

// The mark of a pin.
#[unsafe(no_mangle)]
pub extern "C" fn talusdish_mark(rec: &mut [u8], row: u64, column: u64, mark: u64) -> u64
    ensures { (a : Answer) × (result ≡ word a)
        × Did (Mark row column mark) rec.old (after a rec.new [] []) }
{
    word_of(service::mark(rec, row as usize, column as usize, mark as usize))
}

// The state of a tile.
#[unsafe(no_mangle)]
pub extern "C" fn talusdish_close(rec: &mut [u8], row: u64, column: u64, state: u64) -> u64
    ensures { (a : Answer) × (result ≡ word a)
        × Did (Close row column state) rec.old (after a rec.new [] []) }
{
    word_of(service::close(rec, row as usize, column as usize, state as usize))
}

// The count of wires already laid on a side of a tile.
#[unsafe(no_mangle)]
pub extern "C" fn talusdish_lay(rec: &mut [u8], row: u64, column: u64, side: u64, count: u64) -> u64
    ensures { (a : Answer) × (result ≡ word a)
        × Did (Lay row column side count) rec.old (after a rec.new [] []) }
{
    word_of(service::lay(
        rec,
        row as usize,
        column as usize,
        side as usize,
        count as usize,
    ))
}

// The D of a tile.
#[unsafe(no_mangle)]
pub extern "C" fn talusdish_diagonal(rec: &mut [u8], row: u64, column: u64, d: u64) -> u64
    ensures { (a : Answer) × (result ≡ word a)
        × Did (Diagonal row column d) rec.old (after a rec.new [] []) }
{
    word_of(service::diagonal(rec, row as usize, column as usize, d as usize))
}

// A lower E.
#[unsafe(no_mangle)]
pub extern "C" fn talusdish_extra(rec: &mut [u8], e: u64) -> u64
    ensures { (a : Answer) × (result ≡ word a) × Did (Extra e) rec.old (after a rec.new [] []) }
{
    word_of(service::extra(rec, e as usize))
}

// One wire more, or the greatest number.
#[unsafe(no_mangle)]
pub extern "C" fn talusdish_step(rec: &mut [u8], scratch: &mut [u8]) -> u64
    ensures { (a : Answer) × (result ≡ word a)
        × Did (Step scratch.old) rec.old (after a rec.new scratch.new []) }
{
    word_of(service::step(rec, scratch))
}

// The chosen pins less the greatest number, and the near side.
#[unsafe(no_mangle)]
pub extern "C" fn talusdish_shortfall(rec: &[u8], scratch: &mut [u8], output: &mut [u8]) -> u64
    ensures { (a : Answer) × (result ≡ word a)
        × Did (Shortfall scratch.old output.old) rec.now
        (after a rec.now scratch.new output.new) }
{
    word_of(service::shortfall(rec, scratch, output))
}

// The part of a pin's wire at an index.
#[unsafe(no_mangle)]
pub extern "C" fn talusdish_part(rec: &[u8], row: u64, column: u64, index: u64) -> u64
    ensures { (a : Answer) × (result ≡ word a)
        × Did (Part row column index) rec.now (after a rec.now [] []) }
{
    word_of(service::part(rec, row as usize, column as usize, index as usize))
}

// The job of a text.
#[unsafe(no_mangle)]
pub extern "C" fn talusdish_read_text(rec: &mut [u8], text: &[u8]) -> u64
    ensures { (a : Answer) × (result ≡ word a)
        × Did (read_text text.now) rec.old (after a rec.new [] []) }
{
    word_of(service::read_text(rec, text))
}

// The text of the job.
#[unsafe(no_mangle)]
pub extern "C" fn talusdish_write_text(rec: &[u8], output: &mut [u8]) -> u64
    ensures { (a : Answer) × (result ≡ word a)
        × Did (write_text output.old) rec.now (after a rec.now [] output.new) }
{
    word_of(service::write_text(rec, output))
}

// The listing of the wires that the record holds.
#[unsafe(no_mangle)]
pub extern "C" fn talusdish_listing(rec: &[u8], output: &mut [u8]) -> u64
    ensures { (a : Answer) × (result ≡ word a)
        × Did (Listing output.old) rec.now (after a rec.now [] output.new) }
{
    word_of(service::list_wires(rec, output))
}

// The job of a trial.
#[unsafe(no_mangle)]
pub extern "C" fn talusdish_trial(
    rec: &mut [u8],
    rows: u64,
    columns: u64,
    o: u64,
    d: u64,
    e: u64,
    seed: u64,
    chosen: u64,
    missing: u64,
    closed: u64,
) -> u64
    ensures { (a : Answer) × (result ≡ word a)
        × Did (Trial (trial_of rows columns o d e seed chosen missing closed)) rec.old (after a rec.new [] []) }
{
    let array = Array {
        rows: rows as usize,
        columns: columns as usize,
    };
    let capacities = Capacities {
        orthogonal: o as usize,
        diagonal: d as usize,
        extra: e as usize,
    };
    let draws = Draws {
        seed: seed as usize,
        chosen: chosen as usize,
        missing: missing as usize,
        closed: closed as usize,
    };
    word_of(service::trial(rec, array, capacities, draws))
}

// Whether the tiles carry a sheet of side loads.
#[unsafe(no_mangle)]
pub extern "C" fn talusdish_sheet(rec: &[u8], sheet: &[u8]) -> u64
    ensures { (a : Answer) × (result ≡ word a)
        × Did (Sheet sheet.now) rec.now (after a rec.now [] []) }
{
    word_of(service::sheet(rec, sheet))
}
