// The listing of the wires of a legal record, page by page: the line that counts them, and a line for each chosen pin, each wire walked once. A wire's line may
// be longer than a page, so pages end between parts. Callers have audited the record.
ghost use Rattle.std.specs.Prelude.{◌≡◌, ◌+◌, ◌≤◌, ◌<◌};
ghost use Rattle.model.specs.Record.{job_of, load, Legal};
ghost use Rattle.model.specs.Wires.{wire_count};
ghost use Rattle.model.specs.Listing.{letter_of, place_lane, part_bytes, wires_line, wires_from};
ghost use Rattle.wire.specs.Hops.{as_kind, as_part};
ghost use Rattle.listing.specs.Puts.{Puts};
ghost use Rattle.listing.specs.Writes.{Writes};
ghost use Rattle.listing.specs.Left.{Inside, Stands, hop_left, left_at, ahead, ahead_at, line_start, Passes};

use crate::page::Page;
use wire::{Hop, Part, Place, first_hop, next_hop, part_for};

// The letter of a place.
fn letter(place: Place) -> u8
    ensures { result ≡ letter_of (as_kind place) }
{
    match place {
        Place::Missing => b'r',
        Place::Pin => b'p',
        Place::North => b'n',
        Place::East => b'e',
        Place::South => b's',
        Place::West => b'w',
        Place::Centre => b'c',
    }
}

// A place, the lane and the closing parenthesis of a part.
fn put_place(page: &mut Page, place: Place, lane: usize)
    requires { page.old.length + 23 ≤ 32768 }
    ensures { Writes (place_lane (as_kind place) lane) page.old page.new × (page.new.length ≤ page.old.length + 23) }
{
    page.put_byte(letter(place));
    page.put_spaced(lane);
    page.put_byte(b')');
}

// A part of a wire.
fn put_part(page: &mut Page, part: Part)
    requires { page.old.length + 80 ≤ 32768 }
    ensures { Writes (part_bytes (as_part part)) page.old page.new × (page.new.length ≤ page.old.length + 80) }
{
    match part {
        Part::Unwired | Part::PastTheEnd => {}
        Part::To {
            row,
            column,
            place,
            lane,
        } => {
            page.put_pair(b" (to", row, column, b" ");
            put_place(page, place, lane);
        }
        Part::Out { side, lane } => {
            page.put_word(b" (out ");
            put_place(page, side, lane);
        }
    }
}

// A part inside a line: its index, which is not 0 where a page begins with it, and its hop.
#[derive(Clone, Copy, Debug, PartialEq, Eq)]
pub struct Position {
    pub index: usize,
    pub hop: Hop,
}

// Where a page begins: with the line of a cell's wire, or inside it. Cell p is the pin (p / 40, p % 40).
#[derive(Clone, Copy, Debug, PartialEq, Eq)]
pub struct Cursor {
    pub cell: usize,
    pub inside: Option<Position>,
}

// The cursor at the line of a cell, `None` behind the last cell.
fn line_start(cell: usize) -> Option<Cursor>
    ensures { result ≡ line_start cell }
{
    if cell < 1600 {
        return Some(Cursor { cell, inside: None });
    }
    None
}

// The part at a position inside a wire, and the end of the line behind the last.
fn put_hop(rec: &[u8], cell: usize, at: Position, page: &mut Page) -> Option<Cursor>
    requires legal { Legal rec.now × Inside rec.now cell at.index at.hop.dart at.hop.lane }
    requires page_bound { page.old.length + 82 ≤ 32768 }
    ensures passes { Passes rec.now (hop_left (job_of rec.now) (load rec.now) cell at.index) page.old.length page.old.bytes
        page.new.bytes page.new.length result }
    ensures length_bound { (page.new.length ≤ page.old.length + 82) × (ahead_at result < ahead cell at.index) }
{
    put_part(page, part_for(rec, at.hop));
    let Some(hop) = next_hop(rec, at.hop) else {
        page.put_word(b")\n");
        return line_start(cell + 1);
    };
    let index = at.index + 1;
    Some(Cursor {
        cell,
        inside: Some(Position { index, hop }),
    })
}

// The first part of a cell's wire, if it is that of a chosen pin.
fn put_cell(rec: &[u8], cell: usize, page: &mut Page) -> Option<Cursor>
    requires legal { Legal rec.now × (cell < 1600) }
    requires page_bound { page.old.length + 160 ≤ 32768 }
    ensures passes { Passes rec.now (wires_from (job_of rec.now) (load rec.now) cell) page.old.length page.old.bytes
        page.new.bytes page.new.length result }
    ensures length_bound { (page.new.length ≤ page.old.length + 160) × (ahead_at result < ahead cell 0) }
{
    let row = cell / 40;
    let column = cell % 40;
    if !channel::is_chosen(rec, row, column) {
        return line_start(cell + 1);
    }
    let Some(hop) = first_hop(rec, row, column) else {
        return line_start(cell + 1);
    };
    page.put_pair(b"(wire (pin", row, column, b")");
    put_hop(rec, cell, Position { index: 0, hop }, page)
}

// What follows at a cursor: a part, with what stands before it in its line.
fn put_next(rec: &[u8], from: Cursor, page: &mut Page) -> Option<Cursor>
    requires legal { Legal rec.now × Stands rec.now from }
    requires page_bound { page.old.length + 160 ≤ 32768 }
    ensures passes { Passes rec.now (left_at (job_of rec.now) (load rec.now) (Some from)) page.old.length page.old.bytes
        page.new.bytes page.new.length result }
    ensures length_bound { (page.new.length ≤ page.old.length + 160) × (ahead_at result < ahead_at (Some from)) }
{
    let Some(at) = from.inside else {
        return put_cell(rec, from.cell, page);
    };
    put_hop(rec, from.cell, at, page)
}

// The wires from a cursor on, as much as the page takes, from its start. Gives where the next page begins, `None` where nothing is left.
pub fn wires_page(rec: &[u8], from: Cursor, page: &mut Page) -> Option<Cursor>
    requires { Legal rec.now × Stands rec.now from }
    ensures passes { Passes rec.now (left_at (job_of rec.now) (load rec.now) (Some from)) 0 page.old.bytes page.new.bytes
        page.new.length result }
    ensures length_bound { (page.new.length ≤ 32768) × (ahead_at result < ahead_at (Some from)) }
{
    page.length = 0;
    let mut next = Some(from);
    while let Some(at) = next {
        if page.length > 32600 {
            return next;
        }
        next = put_next(rec, at, page);
    }
    None
}

// Where the wires begin.
pub fn first_wire() -> Cursor
    ensures { (result.cell ≡ 0) × (result.inside ≡ None) }
{
    Cursor {
        cell: 0,
        inside: None,
    }
}

// How many wires the record has.
pub fn count_wires(rec: &[u8]) -> usize
    requires { Legal rec.now }
    ensures { result ≡ wire_count (job_of rec.now) (load rec.now) }
{
    let mut n: usize = 0;
    for x in 0..1641 {
        n += channel::wire_starts(rec, rec, 8 * x + 1);
    }
    n
}

// The first line of the listing, which counts the wires, from the start of the page.
pub fn count_page(rec: &[u8], page: &mut Page)
    requires { Legal rec.now }
    ensures { Puts (wires_line (job_of rec.now) (load rec.now)) 0 page.old.bytes page.new.bytes page.new.length
        × (page.new.length ≤ 33) }
{
    let n = count_wires(rec);
    page.length = 0;
    page.put_line(b"(wires", n);
}
