// The arcs of a job.
ghost use Rattle.std.specs.Prelude.{IfSome, ◌<◌};

use crate::net::{FIRST_PIN, NODES, Network, OUTSIDE, START};
use oracle_text::job::{Job, Mark, Side};

// More than any number of wires.
const ANY: usize = 1000000;

// The six nodes of a tile, in their order.
#[derive(Clone, Copy, PartialEq, Eq)]
pub enum Place {
    North,
    East,
    South,
    West,
    In,
    Out,
}

impl Place {
    pub fn number(self) -> usize
        ensures { result < 6 }
    {
        match self {
            Place::North => 0,
            Place::East => 1,
            Place::South => 2,
            Place::West => 3,
            Place::In => 4,
            Place::Out => 5,
        }
    }
}

// The node of a place of the tile at row down - 1, column right - 1, if that is open.
pub fn place_node(job: &Job, down: usize, right: usize, place: Place) -> Option<usize>
    ensures { IfSome result (λ u. u < 12328) }
{
    if down == 0 || right == 0 {
        return None;
    }
    let (r, c) = (down - 1, right - 1);
    if r < 39 && c < 39 && job.is_open(r, c) {
        Some(2 + 6 * (39 * r + c) + place.number())
    } else {
        None
    }
}

// The entry of the pin `p`, if it is one.
pub fn entry_node(p: usize) -> Option<usize>
    ensures { IfSome result (λ u. u < 12328) }
{
    if p < 1600 {
        Some(FIRST_PIN + 2 * p)
    } else {
        None
    }
}

// The exit of the pin `p`, if it is one; a chosen pin is its exit.
pub fn exit_node(p: usize) -> Option<usize>
    ensures { IfSome result (λ u. u < 12328) }
{
    if p < 1600 {
        Some(FIRST_PIN + 2 * p + 1)
    } else {
        None
    }
}

// The tile that a node belongs to, counted from 1; 0 where it belongs to none.
pub fn tile_of(u: usize) -> usize {
    if u < FIRST_PIN { (u + 4) / 6 } else { 0 }
}

// Which of the six nodes of its tile the node is.
pub fn kind_of(u: usize) -> usize
    ensures { result < 6 }
{
    if u < NODES { (u + 4) % 6 } else { 0 }
}

// The four places round the pin at row r, column c: north of the tile south-east of it, and so on.
fn places_round(job: &Job, r: usize, c: usize) -> [Option<usize>; 4]
    requires { (r < 40) × (c < 40) }
{
    [
        place_node(job, r + 1, c + 1, Place::North),
        place_node(job, r + 1, c, Place::East),
        place_node(job, r, c, Place::South),
        place_node(job, r, c + 1, Place::West),
    ]
}

impl Network {
    // A link between two places, used both ways within one limit.
    fn edge(&mut self, u: Option<usize>, v: Option<usize>, limit: usize) {
        let l = self.add_link(limit);
        self.join(l, u, v, limit, limit);
    }

    // A link used from `u` to `v` only.
    fn one_way(&mut self, u: Option<usize>, v: Option<usize>, limit: usize) {
        let l = self.add_link(limit);
        self.join(l, u, v, limit, 0);
    }

    // A link without limit between the place `u` and what has the entry `i` and the exit `o`.
    fn spoke(&mut self, u: Option<usize>, i: Option<usize>, o: Option<usize>) {
        let l = self.add_link(ANY);
        self.join(l, u, i, ANY, 0);
        self.join(l, u, o, 0, ANY);
    }

    // The corners of the tile between its sides, each within `limit`.
    fn corners(&mut self, sides: [Option<usize>; 4], limit: usize) {
        let [n, e, s, w] = sides;
        self.edge(n, e, limit);
        self.edge(e, s, limit);
        self.edge(s, w, limit);
        self.edge(w, n, limit);
    }

    // The centre with the entry `i` and the exit `o`, which passes `limit` wires between the sides.
    fn centre(
        &mut self,
        sides: [Option<usize>; 4],
        i: Option<usize>,
        o: Option<usize>,
        limit: usize,
    ) {
        self.one_way(i, o, limit);
        for side in sides {
            self.spoke(side, i, o);
        }
    }

    // The sides of the tile at row r, column c: the rim sides, and those shared with the tiles north and west of it.
    fn sides(&mut self, job: &Job, r: usize, c: usize)
        requires { (r < 39) × (c < 39) }
    {
        let [n, e, s, w] = tile_sides(job, r, c);
        let outside = Some(OUTSIDE);
        if r == 0 {
            self.one_way(n, outside, job.room(r, c, Side::North));
        } else {
            let north = place_node(job, r, c + 1, Place::South);
            self.edge(n, north, job.room(r, c, Side::North));
        }
        if c == 0 {
            self.one_way(w, outside, job.room(r, c, Side::West));
        } else {
            let west = place_node(job, r + 1, c, Place::East);
            self.edge(w, west, job.room(r, c, Side::West));
        }
        if r + 2 == job.rows() {
            self.one_way(s, outside, job.room(r, c, Side::South));
        }
        if c + 2 == job.columns() {
            self.one_way(e, outside, job.room(r, c, Side::East));
        }
    }

    // The arcs of the tile at row r, column c.
    fn tile(&mut self, job: &Job, r: usize, c: usize)
        requires { (r < 39) × (c < 39) }
    {
        let half = job.side() / 2;
        let diagonal = job.figure(40 * r + c);
        if job.is_open(r, c) && 2 * half <= diagonal {
            let sides = tile_sides(job, r, c);
            let i = place_node(job, r + 1, c + 1, Place::In);
            let o = place_node(job, r + 1, c + 1, Place::Out);
            self.corners(sides, half);
            self.centre(sides, i, o, diagonal - 2 * half);
            self.sides(job, r, c);
        }
    }

    // The arcs of a chosen pin: one wire may start at it, and go to each of the four places round it, and from the rim to the outside.
    fn chosen(&mut self, job: &Job, r: usize, c: usize)
        requires { (r < 40) × (c < 40) }
    {
        let o = exit_node(40 * r + c);
        self.one_way(Some(START), o, 1);
        for place in places_round(job, r, c) {
            self.one_way(o, place, 1);
        }
        if job.is_rim(r, c) {
            self.one_way(o, Some(OUTSIDE), 1);
        }
    }

    // The arcs of a missing pin: it passes E wires, to and from the four places round it.
    fn missing(&mut self, job: &Job, r: usize, c: usize)
        requires { (r < 40) × (c < 40) }
    {
        let i = entry_node(40 * r + c);
        let o = exit_node(40 * r + c);
        self.one_way(i, o, job.extra());
        for place in places_round(job, r, c) {
            self.spoke(place, i, o);
        }
    }

    fn pin(&mut self, job: &Job, r: usize, c: usize)
        requires { (r < 40) × (c < 40) }
    {
        if job.is_pin(r, c) {
            match job.mark(40 * r + c) {
                Mark::Idle => {}
                Mark::Chosen => self.chosen(job, r, c),
                Mark::Missing => self.missing(job, r, c),
            }
        }
    }

    // Adds every arc of the job.
    pub fn build(&mut self, job: &Job) {
        for t in 0..1521 {
            self.tile(job, t / 39, t % 39);
        }
        for p in 0..1600 {
            self.pin(job, p / 40, p % 40);
        }
    }
}

// The sides of the tile at row r, column c, as n, e, s, w.
fn tile_sides(job: &Job, r: usize, c: usize) -> [Option<usize>; 4]
    requires { (r < 39) × (c < 39) }
{
    [
        place_node(job, r + 1, c + 1, Place::North),
        place_node(job, r + 1, c + 1, Place::East),
        place_node(job, r + 1, c + 1, Place::South),
        place_node(job, r + 1, c + 1, Place::West),
    ]
}
