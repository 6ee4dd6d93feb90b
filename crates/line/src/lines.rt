// The forms of a line: the array, a pin, tile or side of a group, the end.
ghost use Rattle.std.specs.Prelude.{◌≡◌, ◌≤◌, length};
ghost use Rattle.model.specs.Text.{own_ds, laid_sides, writes_side};
ghost use Rattle.line.specs.Groups.{text_group};
ghost use Rattle.line.specs.Lines.{TailAt, RestAt, LineAt, ArrayAt};

use crate::group::Group;
use crate::scan::{Read, number_at, side_at, two_at, word_at};
use crate::words::{ARRAY, ARRAY_END, CAPS, END, GROUP_END};
use model::{Array, Capacities};

// What a line of a group tells: the mark, the state, the D or the count that a pin, a tile or a tile's side gets.
#[derive(Clone, Copy)]
pub struct Entry {
    pub group: Group,
    pub row: usize,
    pub column: usize,
    pub side: usize,
    pub value: usize,
}

// A line after the array line.
#[derive(Clone, Copy)]
pub enum Line {
    Tells(Entry),
    End,
}

// Whether a tile writes a side: n in the first row alone, w in the first column alone.
pub fn writes_side(row: usize, column: usize, side: usize) -> bool
    ensures { result ≡ writes_side row column side }
{
    match side {
        0 => row == 0,
        1 | 2 => true,
        _ => column == 0,
    }
}

// A tile's own D, 1 or more.
fn own_at(text: &[u8], at: usize) -> Option<Read<(usize, usize)>>
    requires { at ≤ length text.now }
    ensures { TailAt text.now at own_ds result }
{
    let own = number_at(text, at, b')')?;
    if own.value == 0 {
        return None;
    }
    Some(Read {
        value: (0, own.value),
        next: own.next,
    })
}

// A side and a count of laid wires, 1 or more.
fn count_at(text: &[u8], at: usize) -> Option<Read<(usize, usize)>>
    requires { at ≤ length text.now }
    ensures { TailAt text.now at laid_sides result }
{
    let side = side_at(text, at)?;
    let count = number_at(text, side.next, b')')?;
    if count.value == 0 {
        return None;
    }
    Some(Read {
        value: (side.value, count.value),
        next: count.next,
    })
}

// The side and the value of a line whose column ends before an offset: what the group's word says, or what its tail does.
fn tail_at(text: &[u8], at: usize, group: Group) -> Option<Read<(usize, usize)>>
    requires { at ≤ length text.now }
    ensures { TailAt text.now at (text_group group) result }
{
    match group {
        Group::Chosen | Group::Closed => Some(Read {
            value: (0, 1),
            next: at,
        }),
        Group::Missing => Some(Read {
            value: (0, 2),
            next: at,
        }),
        Group::Own => own_at(text, at),
        Group::Laid => count_at(text, at),
    }
}

// A line of a group behind its opening: a row, a column and a tail, to the end of the line.
fn rest_at(text: &[u8], at: usize, group: Group) -> Option<Read<Entry>>
    requires { at ≤ length text.now }
    ensures { RestAt text.now at group result }
{
    let cell = two_at(text, at, group.stop())?;
    let tail = tail_at(text, cell.next, group)?;
    let next = word_at(text, tail.next, GROUP_END)?;
    let (row, column) = cell.value;
    let (side, value) = tail.value;
    let entry = Entry {
        group,
        row,
        column,
        side,
        value,
    };
    Some(Read { value: entry, next })
}

// The line of a group or the end line at an offset.
pub fn line_at(text: &[u8], at: usize) -> Option<Read<Line>>
    requires { at ≤ length text.now }
    ensures { LineAt text.now at result }
{
    for &group in &Group::ALL {
        if let Some(behind) = word_at(text, at, group.opening()) {
            let rest = rest_at(text, behind, group)?;
            return Some(Read {
                value: Line::Tells(rest.value),
                next: rest.next,
            });
        }
    }
    let next = word_at(text, at, END)?;
    Some(Read {
        value: Line::End,
        next,
    })
}

// What the array line tells.
#[derive(Clone, Copy)]
pub struct Heading {
    pub array: Array,
    pub capacities: Capacities,
}

// The array line at the start of a text.
pub fn array_at(text: &[u8]) -> Option<Read<Heading>>
    ensures { ArrayAt text.now result }
{
    let pins = word_at(text, 0, ARRAY)?;
    let size = two_at(text, pins, b')')?;
    let caps = word_at(text, size.next, CAPS)?;
    let orthogonal = number_at(text, caps, b' ')?;
    let others = two_at(text, orthogonal.next, b')')?;
    let next = word_at(text, others.next, ARRAY_END)?;
    let (rows, columns) = size.value;
    let (diagonal, extra) = others.value;
    let heading = Heading {
        array: Array { rows, columns },
        capacities: Capacities {
            orthogonal: orthogonal.value,
            diagonal,
            extra,
        },
    };
    Some(Read {
        value: heading,
        next,
    })
}
