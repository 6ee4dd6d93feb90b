// Read text and Write text.
ghost use Rattle.std.specs.Prelude.{[]};
ghost use Rattle.model.specs.Calls.{read_text, write_text, wrote, after, Did};
ghost use Rattle.answers.specs.Answers.{answered, as_done};

use answers::{Refusal, undamaged};
use text::read_into;

// The job of a text.
pub fn read_text(rec: &mut [u8], text: &[u8]) -> Result<(), Refusal>
    ensures { Did (read_text text.now) rec.old (after (answered as_done result) rec.new [] []) }
{
    if rec.len() < 32768 {
        return Err(Refusal::Damaged);
    }
    read_into(text, rec)?;
    Ok(())
}

// The text of the job, wires left out.
pub fn write_text(rec: &[u8], output: &mut [u8]) -> Result<usize, Refusal>
    ensures { Did (write_text output.old) rec.now (after (answered wrote result) rec.now [] output.new) }
{
    undamaged(rec)?;
    text::write_text(rec, output).ok_or(Refusal::ShortOutput)
}
