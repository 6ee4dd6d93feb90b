// How many bytes the text of a record's job has: its lines, cell by cell.
ghost use Rattle.std.specs.Prelude.{◌≡◌, [], ℕ, ◌≤◌, ◌<◌, length};
ghost use Rattle.sums.specs.Counting.{when};
ghost use Rattle.model.specs.Job.{is_tile};
ghost use Rattle.model.specs.Record.{job_of};
ghost use Rattle.model.specs.Text.{laid_sides, decimal, value_at, group_text, text_of, group_of};
ghost use Rattle.line.specs.Groups.{text_group};
ghost use Rattle.line.specs.Lines.{after_stop};
ghost use Rattle.writing.specs.Writer.{array_text, line_parts, side_text, cell_text, row_text, groups_text, Sized};

use line::group::Group;
use line::lines::writes_side;
use line::words::{ARRAY, ARRAY_END, CAPS, END, GROUP_END};

// The digits of a number.
fn digits(n: usize) -> usize
    ensures { (result ≡ length (decimal n)) × (result ≤ 2) }
{
    if n < 10 { 1 } else { 2 }
}

// A number where a test is met, else 0.
fn number_if(test: bool, n: usize) -> usize
    ensures { result ≡ when test n }
{
    if test { n } else { 0 }
}

// The D that a tile has of its own: 0 for none, and where there is no tile.
fn own_at(rec: &[u8], row: usize, column: usize) -> usize
    requires { Sized rec.now }
    ensures { result ≡ when (is_tile (job_of rec.now) row column) ((job_of rec.now).added.own_d row column) }
{
    if !channel::is_tile(rec, row, column) {
        return 0;
    }
    channel::header::byte(rec, 19, row, column)
}

// The count of a side that its tile writes: 0 for none.
fn laid_at(rec: &[u8], row: usize, column: usize, side: usize) -> usize
    requires { Sized rec.now × (side < 4) }
    ensures { result ≡ value_at (job_of rec.now) laid_sides row column side }
{
    if !channel::is_tile(rec, row, column) {
        return 0;
    }
    number_if(
        writes_side(row, column, side),
        channel::laid_on(rec, row, column, side),
    )
}

// The value that the job has in a group, at a pin or tile and on a side: 0 for none.
pub fn value_in(rec: &[u8], group: Group, row: usize, column: usize, side: usize) -> usize
    requires { Sized rec.now × (side < 4) }
    ensures { result ≡ value_at (job_of rec.now) (text_group group) row column side }
{
    match group {
        Group::Chosen => number_if((side == 0) & channel::is_chosen(rec, row, column), 1),
        Group::Missing => number_if((side == 0) & channel::is_missing(rec, row, column), 2),
        Group::Closed => {
            let closed = channel::is_tile(rec, row, column)
                & (channel::state_of(rec, row, column) == 1);
            number_if((side == 0) & closed, 1)
        }
        Group::Own => number_if(side == 0, own_at(rec, row, column)),
        Group::Laid => laid_at(rec, row, column, side),
    }
}

// The same in the group of a rank.
pub fn value_at(rec: &[u8], group: usize, row: usize, column: usize, side: usize) -> usize
    requires { Sized rec.now × (side < 4) }
    ensures { result ≡ value_at (job_of rec.now) (group_of group) row column side }
{
    value_in(rec, Group::from(group), row, column, side)
}

// The length of a line's tail behind the byte after the column: nothing, a value, or a side and a value.
fn count_tail(group: Group, value: usize) -> usize
    ensures { ((d : ℕ) → result ≡ length (after_stop (text_group group) d value [])) × (result ≤ 5) }
{
    match group {
        Group::Chosen | Group::Missing | Group::Closed => 0,
        Group::Own => digits(value) + 1,
        Group::Laid => 2 + digits(value) + 1,
    }
}

// The length of a group's line.
fn count_line(group: Group, row: usize, column: usize, value: usize) -> usize
    ensures { ((d : ℕ) → result ≡ length (line_parts (text_group group) row column d value)) × (result ≤ 32) }
{
    let two = digits(row) + digits(column) + 2;
    group.opening().len() + two + count_tail(group, value) + GROUP_END.len()
}

// The length of what a group has on a side of a cell: its line, or nothing.
fn count_side(rec: &[u8], group: Group, row: usize, column: usize, side: usize) -> usize
    requires { Sized rec.now × (side < 4) }
    ensures { (result ≡ length (side_text (job_of rec.now) (text_group group) row column side)) × (result ≤ 32) }
{
    let value = value_in(rec, group, row, column, side);
    if value > 0 {
        count_line(group, row, column, value)
    } else {
        0
    }
}

// The length of what a group has at a cell, side by side.
fn count_cell(rec: &[u8], group: Group, row: usize, column: usize) -> usize
    requires { Sized rec.now }
    ensures { (result ≡ length (cell_text (job_of rec.now) (text_group group) row column)) × (result ≤ 128) }
{
    let mut n = 0;
    for side in 0..4 {
        n += count_side(rec, group, row, column, side);
    }
    n
}

// The length of a group's lines of a row.
fn count_row(rec: &[u8], group: Group, row: usize) -> usize
    requires { Sized rec.now }
    ensures { (result ≡ length (row_text (job_of rec.now) (text_group group) row)) × (result ≤ 32768) }
{
    let columns = channel::columns(rec);
    let mut n = 0;
    for column in 0..columns {
        n += count_cell(rec, group, row, column);
    }
    n
}

// The length of a group's lines.
fn count_group(rec: &[u8], group: Group) -> usize
    requires { Sized rec.now }
    ensures { (result ≡ length (group_text (job_of rec.now) (text_group group))) × (result ≤ 8388608) }
{
    let rows = channel::rows(rec);
    let mut n = 0;
    for row in 0..rows {
        n += count_row(rec, group, row);
    }
    n
}

// The length of the groups' lines.
fn count_groups(rec: &[u8]) -> usize
    requires { Sized rec.now }
    ensures { (result ≡ length (groups_text (job_of rec.now) 5)) × (result ≤ 41943040) }
{
    let mut n = 0;
    for &group in &Group::ALL {
        n += count_group(rec, group);
    }
    n
}

// The length of the array line.
fn count_array(rec: &[u8]) -> usize
    requires { Sized rec.now }
    ensures { (result ≡ length (array_text (job_of rec.now))) × (result ≤ 40) }
{
    let pins = digits(channel::rows(rec)) + digits(channel::columns(rec));
    let caps = digits(channel::orthogonal(rec))
        + digits(channel::diagonal(rec))
        + digits(channel::extra(rec));
    ARRAY.len() + pins + 2 + CAPS.len() + caps + 3 + ARRAY_END.len()
}

// The length of the text.
pub fn count_text(rec: &[u8]) -> usize
    requires { Sized rec.now }
    ensures { result ≡ length (text_of (job_of rec.now)) }
{
    count_array(rec) + count_groups(rec) + END.len()
}
