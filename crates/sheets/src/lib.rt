// Document 02, K10: whether the tiles of a job carry a sheet of side loads, and the first that does not.
#![tactic(auto)]

mod table; // the constant array
mod tile; // what one tile carries
mod fits; // which jobs and sheets are turned away

ghost use Rattle.std.specs.Prelude.{◌≡◌, [], MatchOption, ◌<◌, ◌≤◌, length};
ghost use Rattle.model.specs.Record.{job_of};
ghost use Rattle.model.specs.Calls.{sheet as Sheet, after, Did};
ghost use Rattle.answers.specs.Answers.{answered, as_verdict};
ghost use Rattle.sheets.specs.Tiles.{Ready};
ghost use Rattle.sheets.specs.First.{First, passes_at};

use answers::{Refusal, Verdict, undamaged};
use fits::{fits, job_fits};
pub use tile::entry;
use tile::passes;

// The first failing tile by its number, 40 to a row.
fn first_failing(rec: &[u8], loads: &[u8]) -> Option<usize>
    requires { (32768 ≤ length rec.now) × Ready (job_of rec.now) loads.now }
    ensures { MatchOption result (First (passes_at (job_of rec.now) loads.now) 1600 1600)
        (λ i. (i < 1600) × First (passes_at (job_of rec.now) loads.now) 1600 i) }
{
    (0..1600).find(|i| !passes(rec, loads, *i / 40, *i % 40))
}

// Whether the tiles carry the sheet, or which does not.
pub fn sheet(rec: &[u8], loads: &[u8]) -> Result<Verdict, Refusal>
    ensures { Did (Sheet loads.now) rec.now (after (answered as_verdict result) rec.now [] []) }
{
    undamaged(rec)?;
    if !job_fits(rec) {
        return Err(Refusal::UnfitJob);
    }
    if !fits(rec, loads) {
        return Err(Refusal::UnfitSheet);
    }
    Ok(match first_failing(rec, loads) {
        None => Verdict::Carried,
        Some(i) => Verdict::Fails {
            row: i / 40,
            column: i % 40,
        },
    })
}
