// The job of a text in a record. The text is judged as a whole first, so a text that is wrong leaves every byte.
ghost use Rattle.std.specs.Prelude.{◌≡◌, ◌≤◌, ◌<◌, length};
ghost use Rattle.model.specs.Record.{record_size};
ghost use Rattle.text.specs.Into.{Names, Readable, Holds, ReadsInto};

use crate::reader::{WrongLine, judge};
use line::group::Group;
use line::held::next_line;
use line::lines::{Entry, Line, array_at};

// The value of an entry in the record: a pin's mark, a closed tile's state, a tile's own D, or a side's count.
fn write_entry(rec: &mut [u8], entry: Entry)
    requires record_size_in_bounds { record_size ≤ length rec.old }
    requires cell { (entry.row < 40) × (entry.column < 40) × (entry.group ≡ Group.Laid → (entry.row < 39) × (entry.column < 39)) × (entry.value < 100) }
    ensures { Names rec.old entry rec.new }
{
    let (row, column, value) = (entry.row, entry.column, entry.value);
    match entry.group {
        Group::Chosen | Group::Missing => channel::set_mark(rec, row, column, value),
        Group::Closed => channel::set_state(rec, row, column, value),
        Group::Own => channel::set_own(rec, row, column, value),
        Group::Laid => channel::set_laid(rec, row, column, entry.side, value),
    }
}

// The job of a text that reads, line by line.
fn write_job(text: &[u8], rec: &mut [u8])
    requires record_size_in_bounds { record_size ≤ length rec.old }
    requires readable { Readable text.now }
    ensures { Holds text.now rec.old rec.new }
{
    let Some(opening) = array_at(text) else {
        return;
    };
    let array = opening.value.array;
    let capacities = opening.value.capacities;
    channel::write_fresh(
        rec,
        array.rows,
        array.columns,
        capacities.orthogonal,
        capacities.diagonal,
        capacities.extra,
    );
    let mut at = opening.next;
    while let Some(line) = next_line(text, at) {
        let Line::Tells(entry) = line.value else {
            return;
        };
        write_entry(rec, entry);
        at = line.next;
    }
}

// The judgement of a text, and its job in the record if it reads.
pub fn read_into(text: &[u8], rec: &mut [u8]) -> Result<(), WrongLine>
    requires { record_size ≤ length rec.old }
    ensures { ReadsInto text.now rec.old rec.new result }
{
    judge(text)?;
    write_job(text, rec);
    Ok(())
}
