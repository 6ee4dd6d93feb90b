// The listing of a job that is short: how many wires are lacking, and the near side that Shortfall gives; and the line of a refused text.
ghost use Rattle.std.specs.Prelude.{◌≡◌, ◌+◌, ◌/◌, ◌≤◌, ◌<◌, length, IfSome};
ghost use Rattle.model.specs.Record.{job_of};
ghost use Rattle.listing.specs.Near.{near_line, chosen_line, missing_lines, side_lines, centre_lines, tile_lines, group_lines, short_word, near_from, near_left, refused_listing};
ghost use Rattle.listing.specs.Spots.{kind_of, front_of, end_of, rank_of};
ghost use Rattle.model.specs.Listing.{line};
ghost use Rattle.listing.specs.Puts.{Puts, Parts};
ghost use Rattle.listing.specs.Writes.{Writes};

use crate::page::Page;

// A spot that the near side may have in a cell: a chosen pin, the entry or exit of a missing pin, a side of a tile, or the way into or out of its centre.
#[derive(Clone, Copy)]
enum Spot {
    Pin,
    Entry,
    Exit,
    North,
    East,
    South,
    West,
    CentreIn,
    CentreOut,
}

impl Spot {
    // Where its byte stands among the eight of a cell.
    fn kind(self) -> usize
        ensures { (result ≡ kind_of self) × (result < 8) }
    {
        match self {
            Spot::Entry => 0,
            Spot::Pin | Spot::Exit => 1,
            Spot::North => 2,
            Spot::East => 3,
            Spot::South => 4,
            Spot::West => 5,
            Spot::CentreIn => 6,
            Spot::CentreOut => 7,
        }
    }

    // What its line begins with.
    fn front(self) -> &'static [u8]
        ensures { (result.now ≡ front_of self) × (length result.now ≤ 10) }
    {
        match self {
            Spot::Pin => b"(near pin",
            Spot::Entry => b"(near ri",
            Spot::Exit => b"(near ro",
            _ => b"(near",
        }
    }

    // What its line ends with.
    fn end(self) -> &'static [u8]
        ensures { (result.now ≡ end_of self) × (length result.now ≤ 5) }
    {
        match self {
            Spot::Pin | Spot::Entry | Spot::Exit => b")\n",
            Spot::North => b" n)\n",
            Spot::East => b" e)\n",
            Spot::South => b" s)\n",
            Spot::West => b" w)\n",
            Spot::CentreIn => b" ci)\n",
            Spot::CentreOut => b" co)\n",
        }
    }
}

// The groups of the lines, in their order.
#[derive(Clone, Copy)]
enum Group {
    Chosen,
    Missing,
    Tiles,
}

impl Group {
    // The group of an entry.
    fn at(entry: usize) -> Group
        requires { entry < 4800 }
        ensures { rank_of result ≡ entry / 1600 }
    {
        if entry < 1600 {
            return Group::Chosen;
        }
        if entry < 3200 {
            return Group::Missing;
        }
        Group::Tiles
    }
}

// The line of a spot of a cell, if its byte says near.
fn near_line(near: &[u8], page: &mut Page, cell: usize, spot: Spot)
    requires { (32768 ≤ length near.now) × (cell < 1600) × (page.old.length + 57 ≤ 32768) }
    ensures { Writes (near_line near.now (kind_of spot) (front_of spot) (end_of spot) cell) page.old page.new
        × (page.new.length ≤ page.old.length + 57) }
{
    if near[8 * (41 + cell) + spot.kind()] != 1 {
        return;
    }
    page.put_pair(spot.front(), cell / 40, cell % 40, spot.end());
}

// The line of a chosen pin.
fn chosen_line(rec: &[u8], near: &[u8], page: &mut Page, cell: usize)
    requires { (32768 ≤ length rec.now) × (32768 ≤ length near.now) × (cell < 1600) × (page.old.length + 342 ≤ 32768) }
    ensures { Writes (chosen_line (job_of rec.now) near.now cell) page.old page.new
        × (page.new.length ≤ page.old.length + 342) }
{
    if !channel::is_chosen(rec, cell / 40, cell % 40) {
        return;
    }
    near_line(near, page, cell, Spot::Pin);
}

// The lines of a missing pin, entry before exit.
fn missing_lines(rec: &[u8], near: &[u8], page: &mut Page, cell: usize)
    requires { (32768 ≤ length rec.now) × (32768 ≤ length near.now) × (cell < 1600) × (page.old.length + 342 ≤ 32768) }
    ensures { Writes (missing_lines (job_of rec.now) near.now cell) page.old page.new
        × (page.new.length ≤ page.old.length + 342) }
{
    if !channel::is_missing(rec, cell / 40, cell % 40) {
        return;
    }
    near_line(near, page, cell, Spot::Entry);
    near_line(near, page, cell, Spot::Exit);
}

// The lines of the sides of a tile: n, e, s, w.
fn side_lines(near: &[u8], page: &mut Page, cell: usize)
    requires { (32768 ≤ length near.now) × (cell < 1600) × (page.old.length + 228 ≤ 32768) }
    ensures { Writes (side_lines near.now cell) page.old page.new × (page.new.length ≤ page.old.length + 228) }
{
    near_line(near, page, cell, Spot::North);
    near_line(near, page, cell, Spot::East);
    near_line(near, page, cell, Spot::South);
    near_line(near, page, cell, Spot::West);
}

// The lines of its centre: ci, co.
fn centre_lines(near: &[u8], page: &mut Page, cell: usize)
    requires { (32768 ≤ length near.now) × (cell < 1600) × (page.old.length + 114 ≤ 32768) }
    ensures { Writes (centre_lines near.now cell) page.old page.new × (page.new.length ≤ page.old.length + 114) }
{
    near_line(near, page, cell, Spot::CentreIn);
    near_line(near, page, cell, Spot::CentreOut);
}

// The lines of a tile.
fn tile_lines(near: &[u8], page: &mut Page, cell: usize)
    requires { (32768 ≤ length near.now) × (cell < 1600) × (page.old.length + 342 ≤ 32768) }
    ensures { Writes (tile_lines near.now cell) page.old page.new × (page.new.length ≤ page.old.length + 342) }
{
    side_lines(near, page, cell);
    centre_lines(near, page, cell);
}

// The lines of a cell in one of the three groups.
fn cell_lines(rec: &[u8], near: &[u8], page: &mut Page, group: Group, cell: usize)
    requires { (32768 ≤ length rec.now) × (32768 ≤ length near.now) × (cell < 1600) × (page.old.length + 342 ≤ 32768) }
    ensures { Writes (group_lines (job_of rec.now) near.now (rank_of group) cell) page.old page.new
        × (page.new.length ≤ page.old.length + 342) }
{
    match group {
        Group::Chosen => chosen_line(rec, near, page, cell),
        Group::Missing => missing_lines(rec, near, page, cell),
        Group::Tiles => tile_lines(near, page, cell),
    }
}

// The lines of the near side from this entry on, as many as the page takes, from its start. Entry q is the cell q % 1,600 in the group q / 1,600. Gives the
// first entry of the next page, `None` where nothing is left.
pub fn near_page(rec: &[u8], near: &[u8], from: usize, page: &mut Page) -> Option<usize>
    requires { (32768 ≤ length rec.now) × (32768 ≤ length near.now) × (from < 4800) }
    ensures parts { Parts (near_from (job_of rec.now) near.now from) (near_left (job_of rec.now) near.now result) 0
        page.old.bytes page.new.bytes page.new.length }
    ensures from_lt_next { IfSome result (λ next. (from < next) × (next < 4800)) }
    ensures page_len_bound { page.new.length ≤ 32768 }
{
    page.length = 0;
    for entry in from..4800 {
        if page.length > 32400 {
            return Some(entry);
        }
        cell_lines(rec, near, page, Group::at(entry), entry % 1600);
    }
    None
}

// The first line of a job that lacks `short` wires, from the start of the page.
pub fn short_page(short: usize, page: &mut Page)
    ensures { Puts (line short_word short) 0 page.old.bytes page.new.bytes page.new.length × (page.new.length ≤ 33) }
{
    page.length = 0;
    page.put_line(b"(short", short);
}

// The listing of a text that is refused at this offset, from the start of the page.
pub fn refused_page(offset: usize, page: &mut Page)
    ensures { Puts (refused_listing offset) 0 page.old.bytes page.new.bytes page.new.length × (page.new.length ≤ 33) }
{
    page.length = 0;
    page.put_line(b"(refused 6", offset);
}
