// Whether a record is legal, by docs/RECORD.md alone. Every loaded link is looked at once: its two ends, its limit, and what it brings to the place that it
// leads to and takes from the other. A loop is what is left when the places to which no wire leads from a place that is left have all been struck out.
ghost use Rattle.std.specs.Prelude.{IfSome, ◌<◌};

use crate::bytes::{all, span};
use crate::ends::{End, Fields, Link, Place, Plane, Spot};
use oracle_text::job::Side;

// How many wires a load byte says, if it says anything.
fn amount(load: usize) -> Option<usize>
    ensures { IfSome result (λ n. n < 32) }
{
    match load {
        0..=31 => Some(load),
        33..=63 => Some(load - 32),
        _ => None,
    }
}

// The limit of the link, if it has one of its own.
fn limit(fields: Fields, link: Link) -> Option<usize> {
    let side = fields.side();
    match link.plane {
        Plane::NorthSide => Some(side.saturating_sub(fields.laid_north(link.cell))),
        Plane::WestSide => Some(side.saturating_sub(fields.laid_west(link.cell))),
        Plane::Corner(_) => Some(side / 2),
        Plane::Spoke(_) => None,
        Plane::Leg(_) | Plane::Exit => {
            if fields.is_chosen(link.cell) {
                Some(1)
            } else {
                None
            }
        }
    }
}

// As many wires as the link's load says may be on it.
fn is_within(fields: Fields, link: Link) -> bool {
    match (amount(fields.load(link)), limit(fields, link)) {
        (Some(n), Some(most)) => n <= most,
        (Some(_), None) => true,
        (None, _) => false,
    }
}

// The link exists, and its wires may go the way that they go: none comes from outside, and none to a chosen pin.
fn goes_right(fields: Fields, link: Link) -> bool {
    let Some(way) = fields.way(link) else {
        return false;
    };
    match link.plane {
        Plane::NorthSide | Plane::WestSide => way.from != End::Outside,
        Plane::Corner(_) | Plane::Spoke(_) => true,
        Plane::Leg(_) | Plane::Exit => !fields.is_chosen(link.cell) || fields.load(link) < 32,
    }
}

// The load of the link is 0, or the link exists, within its limit and the way it leads.
fn load_fits(fields: Fields, link: Link) -> bool {
    fields.load(link) == 0 || (is_within(fields, link) && goes_right(fields, link))
}

fn plane_fits(fields: Fields, plane: Plane) -> bool {
    (0..1600).all(|cell| load_fits(fields, Link { plane, cell }))
}

fn loads_fit(fields: Fields) -> bool {
    Plane::ALL.iter().all(|plane| plane_fits(fields, *plane))
}

fn in_range(x: usize, least: usize, most: usize) -> bool {
    x >= least && x <= most
}

fn header_fits(fields: Fields) -> bool {
    let o = fields.side();
    in_range(fields.rows(), 2, 40)
        && in_range(fields.columns(), 2, 40)
        && in_range(o, 1, 8)
        && in_range(fields.diagonal(), o, 2 * o)
        && fields.extra() <= 16
}

// The own D of the tile p, 40 r + c, is a value that may stand there: none, or from O to twice O and not the job's.
fn own_fits(fields: Fields, p: usize) -> bool {
    let v = fields.own(p);
    let o = fields.side();
    let tile = p / 40 + 1 < fields.rows() && p % 40 + 1 < fields.columns();
    v == 0 || (tile && in_range(v, o, 2 * o) && v != fields.diagonal())
}

// The number, where it may be other than 0.
fn only_if(holds: bool, most: usize) -> usize {
    if holds { most } else { 0 }
}

// The counts of the sides at the cell p, 40 r + c, are values that may stand there.
fn counts_fit(fields: Fields, p: usize) -> bool {
    let (down, right) = (p / 40 + 1, p % 40 + 1);
    let north = down <= fields.rows() && right < fields.columns();
    let west = down < fields.rows() && right <= fields.columns();
    fields.laid_north(p) <= only_if(north, fields.side())
        && fields.laid_west(p) <= only_if(west, fields.side())
}

// The mark and the state of the cell p, 40 r + c, are values that may stand there.
fn cell_fits(fields: Fields, p: usize) -> bool {
    let (down, right) = (p / 40 + 1, p % 40 + 1);
    let pin = down <= fields.rows() && right <= fields.columns();
    let tile = down < fields.rows() && right < fields.columns();
    fields.mark(p) <= only_if(pin, 2)
        && fields.state(p) <= only_if(tile, 1)
        && counts_fit(fields, p)
        && own_fits(fields, p)
}

fn cells_fit(fields: Fields) -> bool {
    (0..1600).all(|p| cell_fits(fields, p))
}

// A number for each place.
#[derive(Clone, Copy)]
struct Counts {
    numbers: [[u16; 6]; 1600],
}

impl Counts {
    const NONE: Counts = Counts {
        numbers: [[0; 6]; 1600],
    };

    // One for each place.
    const ONES: Counts = Counts {
        numbers: [[1; 6]; 1600],
    };

    fn at(&self, place: Place) -> usize {
        if place.cell < 1600 {
            usize::from(self.numbers[place.cell][place.spot.index()])
        } else {
            0
        }
    }

    // The number of the end, 0 for the outside.
    fn of(&self, end: End) -> usize {
        match end {
            End::At(place) => self.at(place),
            End::Outside => 0,
        }
    }

    // Adds n to the number of the end, if it is a place.
    fn add(&mut self, end: End, n: usize) {
        let End::At(place) = end else {
            return;
        };
        if place.cell < 1600 {
            let sum = self.at(place).wrapping_add(n);
            if sum < 65536 {
                self.numbers[place.cell][place.spot.index()] = sum as u16;
            }
        }
    }

    // How many places have another number than 0.
    fn count(&self) -> usize
        ensures { result < 9601 }
    {
        self.numbers
            .as_flattened()
            .iter()
            .filter(|n| **n != 0)
            .count()
    }
}

// How many wires come to each place, and how many leave it.
#[derive(Clone, Copy)]
struct Traffic {
    into: Counts,
    out: Counts,
}

impl Traffic {
    fn tally_load(&mut self, fields: Fields, link: Link) {
        let load = fields.load(link);
        if load == 0 {
            return;
        }
        if let Some(way) = fields.way(link) {
            let n = amount(load).unwrap_or(0);
            self.into.add(way.to, n);
            self.out.add(way.from, n);
        }
    }

    fn tally_plane(&mut self, fields: Fields, plane: Plane) {
        for cell in 0..1600 {
            self.tally_load(fields, Link { plane, cell });
        }
    }

    fn tally_loads(&mut self, fields: Fields) {
        for plane in Plane::ALL {
            self.tally_plane(fields, plane);
        }
    }

    // As many wires leave the place as come to it, and not too many; one at most starts at a chosen pin.
    fn is_even(&self, fields: Fields, place: Place) -> bool {
        let into = self.into.at(place);
        let out = self.out.at(place);
        if place.spot == Spot::Pin && fields.is_chosen(place.cell) {
            return out <= 1;
        }
        into == out && pass_limit(fields, place).is_none_or(|most| into <= most)
    }

    fn is_even_cell(&self, fields: Fields, cell: usize) -> bool {
        Spot::ALL
            .iter()
            .all(|spot| self.is_even(fields, Place { cell, spot: *spot }))
    }
}

// How many wires may pass the place, if not any number.
fn pass_limit(fields: Fields, place: Place) -> Option<usize> {
    match place.spot {
        Spot::Pin => Some(fields.extra()),
        Spot::Centre => Some(
            fields
                .figure(place.cell)
                .wrapping_sub(2 * (fields.side() / 2)),
        ),
        Spot::Side(_) => None,
    }
}

fn places_even(fields: Fields) -> bool {
    let mut traffic = Traffic {
        into: Counts::NONE,
        out: Counts::NONE,
    };
    traffic.tally_loads(fields);
    (0..1600).all(|cell| traffic.is_even_cell(fields, cell))
}

// Counts the place that the link's wires come to, if they leave a place that is left.
fn lead(fields: Fields, left: &Counts, next: &mut Counts, link: Link) {
    if fields.load(link) == 0 {
        return;
    }
    if let Some(way) = fields.way(link) {
        if left.of(way.from) != 0 {
            next.add(way.to, 1);
        }
    }
}

fn lead_plane(fields: Fields, left: &Counts, next: &mut Counts, plane: Plane) {
    for cell in 0..1600 {
        lead(fields, left, next, Link { plane, cell });
    }
}

// The places to which a wire leads from a place that is left.
fn led(fields: Fields, left: &Counts, next: &mut Counts) {
    *next = Counts::NONE;
    for plane in Plane::ALL {
        lead_plane(fields, left, next, plane);
    }
}

// A loop stands.
fn loops(fields: Fields) -> bool {
    let mut left = Counts::ONES;
    let mut next = Counts::NONE;
    let mut n = left.count();
    for _ in 0..13000 {
        led(fields, &left, &mut next);
        left = next;
        let m = left.count();
        if m >= n {
            break;
        }
        n = m;
    }
    n > 0
}

// The record is legal.
pub fn is_legal(rec: &[u8]) -> bool {
    let fields = Fields::of(rec);
    rec.len() >= 32768
        && header_fits(fields)
        && all(span(rec, 5, 763), 0)
        && cells_fit(fields)
        && loads_fit(fields)
        && places_even(fields)
        && !loops(fields)
}

// The pin p is chosen, and has a wire on its link of the plane.
fn leaves_by(fields: Fields, plane: Plane, cell: usize) -> bool {
    fields.is_chosen(cell) && fields.load(Link { plane, cell }) != 0
}

// A wire leaves the pin p directly.
pub fn is_direct(rec: &[u8], p: usize) -> bool {
    leaves_by(Fields::of(rec), Plane::Exit, p)
}

// A wire starts at the pin p.
pub fn is_wired(rec: &[u8], p: usize) -> bool {
    let fields = Fields::of(rec);
    is_direct(rec, p)
        || Side::ALL
            .iter()
            .any(|side| leaves_by(fields, Plane::Leg(*side), p))
}
