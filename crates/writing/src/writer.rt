// The text of a record's job, written line by line. Its length is counted first, so an output that is too short keeps every byte.
ghost use Rattle.std.specs.Prelude.{◌≡◌, [], ◌<◌};
ghost use Rattle.model.specs.Record.{job_of, Legal};
ghost use Rattle.model.specs.Text.{line_bytes, group_text, text_of};
ghost use Rattle.model.specs.Calls.{written};
ghost use Rattle.line.specs.Groups.{text_group};
ghost use Rattle.line.specs.Lines.{after_stop, heading_line, Small};
ghost use Rattle.writing.specs.Writer.{array_text, line_parts, side_text, cell_text, row_text, groups_text, Sized, wrote_text};
ghost use Rattle.writing.specs.Output.{Fits, Appends};

use crate::count::{count_text, value_in};
use crate::output::Output;
use line::group::Group;
use line::lines::{Entry, Heading};
use line::words::{ARRAY, ARRAY_END, CAPS, END, GROUP_END};
use model::{Array, Capacities};

impl<'a> Output<'a> {
    // A line's tail behind the byte after the column: nothing, a value, or a side and a value.
    fn put_tail(&mut self, group: Group, side: usize, value: usize)
        requires side_bound { (side < 4) × (value < 100) }
        requires room { Fits (after_stop (text_group group) side value []) self.old }
        ensures { Appends (after_stop (text_group group) side value []) self.old self.new }
    {
        match group {
            Group::Chosen | Group::Missing | Group::Closed => {}
            Group::Own => self.put_number(value, b')'),
            Group::Laid => {
                self.put_side(side);
                self.put_number(value, b')');
            }
        }
    }

    // The line that tells an entry.
    fn put_line(&mut self, entry: Entry)
        requires small { (entry.row < 100) × (entry.column < 100) × (entry.side < 4) × (entry.value < 100) }
        requires room { Fits (line_parts (text_group entry.group) entry.row entry.column entry.side entry.value) self.old }
        ensures { Appends (line_parts (text_group entry.group) entry.row entry.column entry.side entry.value) self.old self.new }
    {
        let group = entry.group;
        self.put_word(group.opening());
        self.put_two(entry.row, entry.column, group.stop());
        self.put_tail(group, entry.side, entry.value);
        self.put_word(GROUP_END);
    }

    // What a group has on a side of a cell: its line, or nothing.
    fn put_value(&mut self, rec: &[u8], group: Group, row: usize, column: usize, side: usize)
        requires sized { Sized rec.now × (row < 100) × (column < 100) × (side < 4) }
        requires room { Fits (side_text (job_of rec.now) (text_group group) row column side) self.old }
        ensures { Appends (side_text (job_of rec.now) (text_group group) row column side) self.old self.new }
    {
        let value = value_in(rec, group, row, column, side);
        if value == 0 {
            return;
        }
        self.put_line(Entry {
            group,
            row,
            column,
            side,
            value,
        });
    }

    // What a group has at a cell, side by side.
    fn put_cell(&mut self, rec: &[u8], group: Group, row: usize, column: usize)
        requires sized { Sized rec.now × (row < 100) × (column < 100) }
        requires room { Fits (cell_text (job_of rec.now) (text_group group) row column) self.old }
        ensures { Appends (cell_text (job_of rec.now) (text_group group) row column) self.old self.new }
    {
        for side in 0..4 {
            self.put_value(rec, group, row, column, side);
        }
    }

    // A group's lines of a row.
    fn put_row(&mut self, rec: &[u8], group: Group, row: usize)
        requires sized { Sized rec.now × (row < 100) }
        requires room { Fits (row_text (job_of rec.now) (text_group group) row) self.old }
        ensures { Appends (row_text (job_of rec.now) (text_group group) row) self.old self.new }
    {
        for column in 0..channel::columns(rec) {
            self.put_cell(rec, group, row, column);
        }
    }

    // A group's lines.
    fn put_group(&mut self, rec: &[u8], group: Group)
        requires sized { Sized rec.now }
        requires room { Fits (group_text (job_of rec.now) (text_group group)) self.old }
        ensures { Appends (group_text (job_of rec.now) (text_group group)) self.old self.new }
    {
        for row in 0..channel::rows(rec) {
            self.put_row(rec, group, row);
        }
    }

    // The groups' lines.
    fn put_groups(&mut self, rec: &[u8])
        requires sized { Sized rec.now }
        requires room { Fits (groups_text (job_of rec.now) 5) self.old }
        ensures { Appends (groups_text (job_of rec.now) 5) self.old self.new }
    {
        for &group in &Group::ALL {
            self.put_group(rec, group);
        }
    }

    // The array line of a heading.
    fn put_heading(&mut self, heading: Heading)
        requires small { Small heading }
        requires room { Fits (line_bytes (heading_line heading)) self.old }
        ensures { Appends (line_bytes (heading_line heading)) self.old self.new }
    {
        let array = heading.array;
        let capacities = heading.capacities;
        self.put_word(ARRAY);
        self.put_two(array.rows, array.columns, b')');
        self.put_word(CAPS);
        self.put_number(capacities.orthogonal, b' ');
        self.put_two(capacities.diagonal, capacities.extra, b')');
        self.put_word(ARRAY_END);
    }

    // The array line of the job.
    fn put_array(&mut self, rec: &[u8])
        requires sized { Sized rec.now }
        requires room { Fits (array_text (job_of rec.now)) self.old }
        ensures { Appends (array_text (job_of rec.now)) self.old self.new }
    {
        let array = Array {
            rows: channel::rows(rec),
            columns: channel::columns(rec),
        };
        let capacities = Capacities {
            orthogonal: channel::orthogonal(rec),
            diagonal: channel::diagonal(rec),
            extra: channel::extra(rec),
        };
        self.put_heading(Heading { array, capacities });
    }

    // The whole text.
    fn put_text(&mut self, rec: &[u8])
        requires sized { Sized rec.now }
        requires room { Fits (text_of (job_of rec.now)) self.old }
        ensures { Appends (text_of (job_of rec.now)) self.old self.new }
    {
        self.put_array(rec);
        self.put_groups(rec);
        self.put_word(END);
    }
}

// The text of the record's job, if the output has room for it: its length, or none and nothing written.
pub fn write_text(rec: &[u8], out: &mut [u8]) -> Option<usize>
    requires { Legal rec.now }
    ensures { wrote_text result rec.now out.new ≡ written out.old rec.now }
{
    let n = count_text(rec);
    if out.len() < n {
        return None;
    }
    let mut output = Output {
        bytes: out,
        length: 0,
    };
    output.put_text(rec);
    Some(output.length)
}
