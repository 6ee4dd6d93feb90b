// The reader of a job text: a cursor by value, which takes each line that may stand where it stands, and the judgement of a whole text.
ghost use Rattle.std.specs.Prelude.{◌≡◌, ◌&&◌, suc, ◌+◌, ◌*◌, ◌≤◌, ◌<◌, length, get_or, eqb, ltb};
ghost use Rattle.model.specs.Text.{rank, within, key_of};
ghost use Rattle.line.specs.Groups.{text_group};
ghost use Rattle.text.specs.Reader.{stage_of, turn_fits, names_fit, Opens, Leads, Judges};

use line::group::Group;
use line::held::next_line;
use line::lines::{Entry, Heading, Line, array_at, writes_side};
use line::scan::Read;
use model::{Array, in_range};

// The first line of a text that may not stand there, by its offset.
#[derive(Debug, Clone, Copy, PartialEq, Eq)]
pub struct WrongLine {
    pub offset: usize,
}

// The array line, if it may stand at the start.
pub fn opened(text: &[u8]) -> Option<Read<Heading>>
    ensures { Opens text.now result }
{
    let opening = array_at(text)?;
    if !opening.value.array.fits() {
        return None;
    }
    if !opening.value.capacities.admitted() {
        return None;
    }
    Some(opening)
}

// Whether the array has a pin.
fn has_pin(array: Array, row: usize, column: usize) -> bool
    ensures { result ≡ (ltb row array.rows && ltb column array.columns) }
{
    (row < array.rows) & (column < array.columns)
}

// Whether the array has a tile.
fn has_tile(array: Array, row: usize, column: usize) -> bool
    requires { (row < 100) × (column < 100) }
    ensures { result ≡ (ltb (suc row) array.rows && ltb (suc column) array.columns) }
{
    (row + 1 < array.rows) & (column + 1 < array.columns)
}

// Whether the array has the pin, tile or side that a line of a group names, and no other group names the pin; an own D is in range and not the job's, a count at
// most O.
fn names(heading: Heading, chosen: &[u8; 1600], entry: Entry) -> bool
    requires array { (heading.array.rows ≤ 40) × (heading.array.columns ≤ 40) × (heading.capacities.orthogonal ≤ 8) }
    requires cell { (entry.row < 100) × (entry.column < 100) }
    ensures { result ≡ names_fit heading (eqb (get_or chosen.now (40 * entry.row + entry.column) 0) 1) (text_group entry.group) entry.row entry.column entry.side entry.value }
{
    let (row, column, value) = (entry.row, entry.column, entry.value);
    let array = heading.array;
    let o = heading.capacities.orthogonal;
    match entry.group {
        Group::Chosen => has_pin(array, row, column),
        Group::Missing => {
            if has_pin(array, row, column) {
                chosen[40 * row + column] != 1
            } else {
                false
            }
        }
        Group::Closed => has_tile(array, row, column),
        Group::Own => {
            let own = in_range(o, 2 * o, value) & (value != heading.capacities.diagonal);
            has_tile(array, row, column) & own
        }
        Group::Laid => {
            let counted = writes_side(row, column, entry.side) & (value <= o);
            has_tile(array, row, column) & counted
        }
    }
}

// The offset of the next line, the group of the last line, none after the array line, and the least key that this group may still have.
#[derive(Clone, Copy)]
pub struct Cursor {
    pub at: usize,
    pub group: Option<Group>,
    pub from: usize,
}

// The place of an entry among those of its group: by row, then column, then side.
fn key(entry: Entry) -> usize
    requires { (entry.row < 100) × (entry.column < 100) × (entry.side < 4) }
    ensures { result ≡ key_of entry.row entry.column entry.side }
{
    4 * (40 * entry.row + entry.column) + entry.side
}

impl Cursor {
    // Whether a group's line with a key is in turn.
    fn in_turn(self, group: Group, key: usize) -> bool
        ensures { result ≡ turn_fits (rank (stage_of self.group)) self.from (rank (within (text_group group))) key }
    {
        match self.group {
            None => true,
            Some(last) if last == group => self.from <= key,
            Some(last) => last < group,
        }
    }

    // The next line, if it may stand there.
    pub fn next(self, text: &[u8], heading: Heading, chosen: &[u8; 1600]) -> Option<Read<Line>>
        requires { (self.at ≤ length text.now) × (heading.array.rows ≤ 40) × (heading.array.columns ≤ 40) × (heading.capacities.orthogonal ≤ 8) }
        ensures { Leads text.now self heading chosen.now result }
    {
        let line = next_line(text, self.at)?;
        if let Line::Tells(entry) = line.value {
            if !self.in_turn(entry.group, key(entry)) {
                return None;
            }
            if !names(heading, chosen, entry) {
                return None;
            }
        }
        Some(line)
    }
}

// The judgement of a text: a job's, or its first line that may not stand there.
pub fn judge(text: &[u8]) -> Result<(), WrongLine>
    ensures { Judges text.now result }
{
    let Some(opening) = opened(text) else {
        return Err(WrongLine { offset: 0 });
    };
    let mut chosen = [0u8; 1600];
    let mut cursor = Cursor {
        at: opening.next,
        group: None,
        from: 0,
    };
    loop {
        let Some(line) = cursor.next(text, opening.value, &chosen) else {
            return Err(WrongLine { offset: cursor.at });
        };
        let Line::Tells(entry) = line.value else {
            return if line.next < text.len() {
                Err(WrongLine { offset: line.next })
            } else {
                Ok(())
            };
        };
        if entry.group == Group::Chosen {
            chosen[40 * entry.row + entry.column] = 1;
        }
        cursor = Cursor {
            at: line.next,
            group: Some(entry.group),
            from: key(entry) + 1,
        };
    }
}
