// The wires of a listing step by step, and the link by which each step goes.
use oracle_text::job::Side;
use oracle_text::scan::{Found, scan};
use verdict::ends::{Link, Place, Plane, Spot, clockwise};

// Where a step leads: to a place, or outside by a pin or a side.
#[derive(Clone, Copy, PartialEq, Eq, Debug)]
pub enum Goal {
    At(Place),
    Out(Spot),
}

// A step of a wire by a lane.
#[derive(Clone, Copy, PartialEq, Eq, Debug)]
pub struct Step {
    pub from: Place,
    pub to: Goal,
    pub lane: usize,
}

// The place of the cell at row r, column c, if there is such a cell.
fn place(r: usize, c: usize, spot: Spot) -> Option<Place> {
    if r < 40 && c < 40 {
        Some(Place {
            cell: 40 * r + c,
            spot,
        })
    } else {
        None
    }
}

// The pin that a template has found by its first two numbers.
pub fn pin(found: Found) -> Option<Place> {
    place(found.value(0), found.value(1), Spot::Pin)
}

// What a letter of the listing stands for.
fn spot(letter: usize) -> Option<Spot> {
    match u8::try_from(letter).ok()? {
        b'p' | b'r' => Some(Spot::Pin),
        b'c' => Some(Spot::Centre),
        side => Some(Spot::Side(Side::from_letter(side)?)),
    }
}

// The rest of a wire: the list has its parts from the offset on, and they lead on from a place.
#[derive(Clone, Copy)]
pub struct Wire<'a> {
    list: &'a [u8],
    at: usize,
    from: Place,
}

impl<'a> Wire<'a> {
    pub fn new(list: &'a [u8], at: usize, from: Place) -> Wire<'a> {
        Wire { list, at, from }
    }

    // The offset of its parts.
    pub fn at(self) -> usize {
        self.at
    }

    // Takes its next step, if there is one.
    pub fn step(&mut self) -> Option<Step> {
        let from = self.from;
        if let Some(found) = scan(self.list, self.at, b" (to # # @ #)") {
            let next = place(found.value(0), found.value(1), spot(found.value(2))?)?;
            self.at = found.at;
            self.from = next;
            return Some(Step {
                from,
                to: Goal::At(next),
                lane: found.value(3),
            });
        }
        let found = scan(self.list, self.at, b" (out @ #))\n")?;
        let to = Goal::Out(spot(found.value(0))?);
        self.at = found.at;
        Some(Step {
            from,
            to,
            lane: found.value(1),
        })
    }
}

// The link that leads across this side of the tile.
pub fn side_at(tile: usize, side: Side) -> Link {
    let (plane, cell) = match side {
        Side::North => (Plane::NorthSide, tile),
        Side::East => (Plane::WestSide, tile.wrapping_add(1)),
        Side::South => (Plane::NorthSide, tile.wrapping_add(40)),
        Side::West => (Plane::WestSide, tile),
    };
    Link { plane, cell }
}

// The corner between two sides that follow one another.
fn corner(a: Side, b: Side) -> Plane {
    Plane::Corner(if b == clockwise(a) { a } else { b })
}

// The link between two places.
fn link_between(from: Place, to: Place) -> Option<Link> {
    let (plane, cell) = match (from.spot, to.spot) {
        (Spot::Pin, Spot::Side(side)) => (Plane::Leg(side), from.cell),
        (Spot::Side(side), Spot::Pin) => (Plane::Leg(side), to.cell),
        (Spot::Centre, Spot::Side(side)) => (Plane::Spoke(side), to.cell),
        (Spot::Side(side), Spot::Centre) => (Plane::Spoke(side), from.cell),
        (Spot::Side(a), Spot::Side(b)) => {
            if from.cell != to.cell {
                return Some(side_at(from.cell, a));
            }
            (corner(a, b), from.cell)
        }
        _ => return None,
    };
    Some(Link { plane, cell })
}

impl Step {
    // The link by which it goes.
    pub fn link(self) -> Option<Link> {
        match (self.from.spot, self.to) {
            (_, Goal::At(to)) => link_between(self.from, to),
            (Spot::Pin, Goal::Out(_)) => Some(Link {
                plane: Plane::Exit,
                cell: self.from.cell,
            }),
            (Spot::Side(side), Goal::Out(_)) => Some(side_at(self.from.cell, side)),
            (Spot::Centre, Goal::Out(_)) => None,
        }
    }

    // It goes the positive way: away from a pin or a centre, clockwise, north or east.
    pub fn goes_forth(self) -> bool {
        let Spot::Side(side) = self.from.spot else {
            return true;
        };
        if let Goal::At(to) = self.to {
            let Spot::Side(next) = to.spot else {
                return false;
            };
            if to.cell == self.from.cell {
                return next == clockwise(side);
            }
        }
        side == Side::North || side == Side::East
    }
}
