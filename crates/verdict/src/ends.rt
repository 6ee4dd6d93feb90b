// The bytes of a record by docs/RECORD.md, and the two ends of each link.
ghost use Rattle.std.specs.Prelude.{◌<◌};

use crate::bytes::wide;
use oracle_text::job::Side;

// What a place of a cell is: its pin, the middle of a side of its tile, or the tile's centre.
#[derive(Clone, Copy, PartialEq, Eq, Debug)]
pub enum Spot {
    Pin,
    Side(Side),
    Centre,
}

impl Spot {
    pub const ALL: [Spot; 6] = [
        Spot::Pin,
        Spot::Side(Side::North),
        Spot::Side(Side::East),
        Spot::Side(Side::South),
        Spot::Side(Side::West),
        Spot::Centre,
    ];

    // Its index in ALL.
    pub fn index(self) -> usize
        ensures { result < 6 }
    {
        match self {
            Spot::Pin => 0,
            Spot::Side(Side::North) => 1,
            Spot::Side(Side::East) => 2,
            Spot::Side(Side::South) => 3,
            Spot::Side(Side::West) => 4,
            Spot::Centre => 5,
        }
    }
}

// A place of the cell 40 r + c.
#[derive(Clone, Copy, PartialEq, Eq, Debug)]
pub struct Place {
    pub cell: usize,
    pub spot: Spot,
}

// Where a link ends.
#[derive(Clone, Copy, PartialEq, Eq, Debug)]
pub enum End {
    Outside,
    At(Place),
}

// A plane of links: the northern and the western sides of the tiles, the corners, clockwise from a side, the spokes, from the centre to a side, the legs, from the
// pin to a place on a side of this name, and the direct exits.
#[derive(Clone, Copy, PartialEq, Eq, Debug)]
pub enum Plane {
    NorthSide,
    WestSide,
    Corner(Side),
    Spoke(Side),
    Leg(Side),
    Exit,
}

impl Plane {
    // In the order of the record.
    pub const ALL: [Plane; 15] = [
        Plane::NorthSide,
        Plane::WestSide,
        Plane::Corner(Side::North),
        Plane::Corner(Side::East),
        Plane::Corner(Side::South),
        Plane::Corner(Side::West),
        Plane::Spoke(Side::North),
        Plane::Spoke(Side::East),
        Plane::Spoke(Side::South),
        Plane::Spoke(Side::West),
        Plane::Leg(Side::West),
        Plane::Leg(Side::North),
        Plane::Leg(Side::East),
        Plane::Leg(Side::South),
        Plane::Exit,
    ];

    // Its index in ALL.
    pub fn index(self) -> usize
        ensures { result < 15 }
    {
        match self {
            Plane::NorthSide => 0,
            Plane::WestSide => 1,
            Plane::Corner(Side::North) => 2,
            Plane::Corner(Side::East) => 3,
            Plane::Corner(Side::South) => 4,
            Plane::Corner(Side::West) => 5,
            Plane::Spoke(Side::North) => 6,
            Plane::Spoke(Side::East) => 7,
            Plane::Spoke(Side::South) => 8,
            Plane::Spoke(Side::West) => 9,
            Plane::Leg(Side::West) => 10,
            Plane::Leg(Side::North) => 11,
            Plane::Leg(Side::East) => 12,
            Plane::Leg(Side::South) => 13,
            Plane::Exit => 14,
        }
    }

    // The plane is one of sides.
    pub fn is_side(self) -> bool {
        match self {
            Plane::NorthSide | Plane::WestSide => true,
            _ => false,
        }
    }
}

// The link of a plane at the cell 40 r + c.
#[derive(Clone, Copy, PartialEq, Eq, Debug)]
pub struct Link {
    pub plane: Plane,
    pub cell: usize,
}

impl Link {
    // Where its load stands in a record, if the cell is one.
    pub fn offset(self) -> Option<usize> {
        if self.cell < 1600 {
            Some(3968 + 1600 * self.plane.index() + self.cell)
        } else {
            None
        }
    }
}

// The bytes of a record, looked at by what they stand for.
#[derive(Clone, Copy)]
pub struct Fields<'a> {
    bytes: &'a [u8],
}

impl<'a> Fields<'a> {
    pub fn of(bytes: &'a [u8]) -> Fields<'a> {
        Fields { bytes }
    }

    // The byte at k, 0 past the record.
    pub fn number(self, k: usize) -> usize
        ensures { result < 256 }
    {
        match self.bytes.get(k) {
            Some(x) => wide(*x),
            None => 0,
        }
    }

    // The byte of the cell `p` in the plane that begins at `base`, 0 where there is no such cell.
    fn entry(self, base: usize, p: usize) -> usize
        requires { base < 32768 }
        ensures { result < 256 }
    {
        if p < 1600 { self.number(base + p) } else { 0 }
    }

    pub fn rows(self) -> usize
        ensures { result < 256 }
    {
        self.number(0)
    }

    pub fn columns(self) -> usize
        ensures { result < 256 }
    {
        self.number(1)
    }

    pub fn side(self) -> usize
        ensures { result < 256 }
    {
        self.number(2)
    }

    pub fn diagonal(self) -> usize
        ensures { result < 256 }
    {
        self.number(3)
    }

    pub fn extra(self) -> usize
        ensures { result < 256 }
    {
        self.number(4)
    }

    pub fn mark(self, p: usize) -> usize
        ensures { result < 256 }
    {
        self.entry(768, p)
    }

    pub fn is_chosen(self, p: usize) -> bool {
        self.mark(p) == 1
    }

    pub fn state(self, p: usize) -> usize
        ensures { result < 256 }
    {
        self.entry(2368, p)
    }

    pub fn load(self, link: Link) -> usize
        ensures { result < 256 }
    {
        match link.offset() {
            Some(at) => self.number(at),
            None => 0,
        }
    }

    // The wires already laid on the north side of the tile p.
    pub fn laid_north(self, p: usize) -> usize
        ensures { result < 256 }
    {
        self.entry(27968, p)
    }

    // Those on its west side.
    pub fn laid_west(self, p: usize) -> usize
        ensures { result < 256 }
    {
        self.entry(29568, p)
    }

    // The D that the tile p has of its own, 0 for none.
    pub fn own(self, p: usize) -> usize
        ensures { result < 256 }
    {
        self.entry(31168, p)
    }

    // The D of the tile p.
    pub fn figure(self, p: usize) -> usize
        ensures { result < 256 }
    {
        let own = self.own(p);
        if own == 0 { self.diagonal() } else { own }
    }

    // The place of the tile at row down - 1, column right - 1, if it is open; outside where there is no such tile.
    fn of_tile(self, down: usize, right: usize, spot: Spot) -> Option<End> {
        if down == 0 || right == 0 || down >= self.rows() || right >= self.columns() {
            return Some(End::Outside);
        }
        let (r, c) = (down - 1, right - 1);
        if r < 40 && c < 40 && self.state(40 * r + c) == 0 {
            return Some(End::At(Place {
                cell: 40 * r + c,
                spot,
            }));
        }
        None
    }

    // The place of the pin p, if it is not idle.
    fn of_pin(self, p: usize) -> Option<End> {
        if self.mark(p) == 0 {
            return None;
        }
        Some(End::At(Place {
            cell: p,
            spot: Spot::Pin,
        }))
    }

    // Where a direct exit of the pin p leads: outside if the pin is chosen and in the first or last row or column.
    fn straight_out(self, p: usize) -> Option<End> {
        let (down, right) = (p / 40 + 1, p % 40 + 1);
        let first = down == 1 || right == 1;
        let last = down == self.rows() || right == self.columns();
        if self.is_chosen(p) && (first || last) {
            return Some(End::Outside);
        }
        None
    }

    // The end that the link leaves the positive way; legs and direct exits leave the pin.
    pub fn behind(self, link: Link) -> Option<End> {
        let (down, right) = (link.cell / 40 + 1, link.cell % 40 + 1);
        match link.plane {
            Plane::NorthSide => self.of_tile(down, right, Spot::Side(Side::North)),
            Plane::WestSide => self.of_tile(down, right - 1, Spot::Side(Side::East)),
            Plane::Corner(side) => self.of_tile(down, right, Spot::Side(side)),
            Plane::Spoke(_) => self.of_tile(down, right, Spot::Centre),
            Plane::Leg(_) | Plane::Exit => self.of_pin(link.cell),
        }
    }

    // The end that it comes to.
    pub fn ahead(self, link: Link) -> Option<End> {
        let (down, right) = (link.cell / 40 + 1, link.cell % 40 + 1);
        match link.plane {
            Plane::NorthSide => self.of_tile(down - 1, right, Spot::Side(Side::South)),
            Plane::WestSide => self.of_tile(down, right, Spot::Side(Side::West)),
            Plane::Corner(side) => self.of_tile(down, right, Spot::Side(clockwise(side))),
            Plane::Spoke(side) => self.of_tile(down, right, Spot::Side(side)),
            Plane::Leg(Side::West) => self.of_tile(down - 1, right, Spot::Side(Side::West)),
            Plane::Leg(Side::North) => self.of_tile(down, right, Spot::Side(Side::North)),
            Plane::Leg(Side::East) => self.of_tile(down, right - 1, Spot::Side(Side::East)),
            Plane::Leg(Side::South) => self.of_tile(down - 1, right - 1, Spot::Side(Side::South)),
            Plane::Exit => self.straight_out(link.cell),
        }
    }

    // The ends of a link that exists, the positive way. A side may have one end outside, and a direct exit has.
    fn ends(self, link: Link) -> Option<Way> {
        let from = self.behind(link)?;
        let to = self.ahead(link)?;
        let outside = (from == End::Outside, to == End::Outside);
        let stands = match outside {
            (true, true) => false,
            (false, false) => true,
            _ => link.plane.is_side() || link.plane == Plane::Exit,
        };
        if stands { Some(Way { from, to }) } else { None }
    }

    // The way that the wires on the link go, if the link exists.
    pub fn way(self, link: Link) -> Option<Way> {
        let Way { from, to } = self.ends(link)?;
        if self.load(link) < 32 {
            Some(Way { from, to })
        } else {
            Some(Way { from: to, to: from })
        }
    }
}

// The ends of a link in an order.
#[derive(Clone, Copy, PartialEq, Eq, Debug)]
pub struct Way {
    pub from: End,
    pub to: End,
}

// The next side of a tile.
pub fn clockwise(side: Side) -> Side {
    match side {
        Side::North => Side::East,
        Side::East => Side::South,
        Side::South => Side::West,
        Side::West => Side::North,
    }
}
