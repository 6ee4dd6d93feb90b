// The operations, exported.
ghost use Rattle.std.specs.Prelude.{◌≡◌, []};
ghost use Rattle.model.specs.Calls.{new as New, mark as Mark, close as Close, lay as Lay, diagonal as Diagonal, step as Step, shortfall as Shortfall, part as Part, read_text, write_text, listing as Listing, trial as Trial, extra as Extra, sheet as Sheet};
ghost use Rattle.model.specs.Trial.{trial_of};
ghost use Rattle.model.specs.Calls.{Answer, after, Did};
ghost use Rattle.talusdish.specs.Words.{word};

use talusdish::exports;

// An idle, open, unwired job.
#[unsafe(no_mangle)]
pub extern "C" fn talusdish_new(
    rec: &mut [u8],
    rows: u64,
    columns: u64,
    o: u64,
    d: u64,
    e: u64,
) -> u64
    ensures { (a : Answer) × (result ≡ word a)
        × Did (New rows columns o d e) rec.old (after a rec.new [] []) }
{
    exports::talusdish_new(rec, rows, columns, o, d, e)
}

// The mark of a pin.
#[unsafe(no_mangle)]
pub extern "C" fn talusdish_mark(rec: &mut [u8], row: u64, column: u64, mark: u64) -> u64
    ensures { (a : Answer) × (result ≡ word a)
        × Did (Mark row column mark) rec.old (after a rec.new [] []) }
{
    exports::talusdish_mark(rec, row, column, mark)
}

// The state of a tile.
#[unsafe(no_mangle)]
pub extern "C" fn talusdish_close(rec: &mut [u8], row: u64, column: u64, state: u64) -> u64
    ensures { (a : Answer) × (result ≡ word a)
        × Did (Close row column state) rec.old (after a rec.new [] []) }
{
    exports::talusdish_close(rec, row, column, state)
}

// The count of wires already laid on a side of a tile.
#[unsafe(no_mangle)]
pub extern "C" fn talusdish_lay(rec: &mut [u8], row: u64, column: u64, side: u64, count: u64) -> u64
    ensures { (a : Answer) × (result ≡ word a)
        × Did (Lay row column side count) rec.old (after a rec.new [] []) }
{
    exports::talusdish_lay(rec, row, column, side, count)
}

// The D of a tile.
#[unsafe(no_mangle)]
pub extern "C" fn talusdish_diagonal(rec: &mut [u8], row: u64, column: u64, d: u64) -> u64
    ensures { (a : Answer) × (result ≡ word a)
        × Did (Diagonal row column d) rec.old (after a rec.new [] []) }
{
    exports::talusdish_diagonal(rec, row, column, d)
}

// A lower E.
#[unsafe(no_mangle)]
pub extern "C" fn talusdish_extra(rec: &mut [u8], e: u64) -> u64
    ensures { (a : Answer) × (result ≡ word a) × Did (Extra e) rec.old (after a rec.new [] []) }
{
    exports::talusdish_extra(rec, e)
}

// One wire more, or the greatest number.
#[unsafe(no_mangle)]
pub extern "C" fn talusdish_step(rec: &mut [u8], scratch: &mut [u8]) -> u64
    ensures { (a : Answer) × (result ≡ word a)
        × Did (Step scratch.old) rec.old (after a rec.new scratch.new []) }
{
    exports::talusdish_step(rec, scratch)
}

// The chosen pins less the greatest number, and the near side.
#[unsafe(no_mangle)]
pub extern "C" fn talusdish_shortfall(rec: &[u8], scratch: &mut [u8], output: &mut [u8]) -> u64
    ensures { (a : Answer) × (result ≡ word a)
        × Did (Shortfall scratch.old output.old) rec.now
        (after a rec.now scratch.new output.new) }
{
    exports::talusdish_shortfall(rec, scratch, output)
}

// The part of a pin's wire at an index.
#[unsafe(no_mangle)]
pub extern "C" fn talusdish_part(rec: &[u8], row: u64, column: u64, index: u64) -> u64
    ensures { (a : Answer) × (result ≡ word a)
        × Did (Part row column index) rec.now (after a rec.now [] []) }
{
    exports::talusdish_part(rec, row, column, index)
}

// The job of a text.
#[unsafe(no_mangle)]
pub extern "C" fn talusdish_read_text(rec: &mut [u8], text: &[u8]) -> u64
    ensures { (a : Answer) × (result ≡ word a)
        × Did (read_text text.now) rec.old (after a rec.new [] []) }
{
    exports::talusdish_read_text(rec, text)
}

// The text of the job.
#[unsafe(no_mangle)]
pub extern "C" fn talusdish_write_text(rec: &[u8], output: &mut [u8]) -> u64
    ensures { (a : Answer) × (result ≡ word a)
        × Did (write_text output.old) rec.now (after a rec.now [] output.new) }
{
    exports::talusdish_write_text(rec, output)
}

// The listing of the wires that the record holds.
#[unsafe(no_mangle)]
pub extern "C" fn talusdish_listing(rec: &[u8], output: &mut [u8]) -> u64
    ensures { (a : Answer) × (result ≡ word a)
        × Did (Listing output.old) rec.now (after a rec.now [] output.new) }
{
    exports::talusdish_listing(rec, output)
}

// The job of a trial.
#[unsafe(no_mangle)]
pub extern "C" fn talusdish_trial(
    rec: &mut [u8],
    rows: u64,
    columns: u64,
    o: u64,
    d: u64,
    e: u64,
    seed: u64,
    chosen: u64,
    missing: u64,
    closed: u64,
) -> u64
    ensures { (a : Answer) × (result ≡ word a)
        × Did (Trial (trial_of rows columns o d e seed chosen missing closed)) rec.old (after a rec.new [] []) }
{
    exports::talusdish_trial(rec, rows, columns, o, d, e, seed, chosen, missing, closed)
}

// Whether the tiles carry a sheet of side loads.
#[unsafe(no_mangle)]
pub extern "C" fn talusdish_sheet(rec: &[u8], sheet: &[u8]) -> u64
    ensures { (a : Answer) × (result ≡ word a)
        × Did (Sheet sheet.now) rec.now (after a rec.now [] []) }
{
    exports::talusdish_sheet(rec, sheet)
}
