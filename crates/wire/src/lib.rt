// The wire of a pin, followed hop by hop: a hop is a dart along a link and the lane on it. Callers have audited the record.
#![tactic(auto)]

ghost use Rattle.std.specs.Prelude.{◌≡◌, ◌%◌, T};
ghost use Rattle.std.proofs.Math.Option.{some};
ghost use Rattle.model.specs.Job.{is_chosen};
ghost use Rattle.model.specs.Links.{pin, at, around};
ghost use Rattle.model.specs.Record.{job_of, load, Legal};
ghost use Rattle.model.specs.Wires.{first_loaded, onward, part_of, part_at};
ghost use Rattle.channel.specs.Map.Entered.{kind_at};
ghost use Rattle.wire.specs.Hops.{hop_of, Runs, Takes, as_kind, as_part};
ghost use Rattle.wire.specs.Lengths.{Hops};

use crate::lanes::lanes_round;
use channel::places::{column_of, pin_exit, row_of, step_back, wires_out};
use channel::{head_of, is_outside};
use pairing::{Lane, partner};

pub mod lanes; // how many wires come and leave by the slots of an exit
pub mod length; // how long all wires are together

// A hop of a wire: a dart along a link, and the lane on it.
#[derive(Clone, Copy, Debug, PartialEq, Eq)]
pub struct Hop {
    pub dart: usize,
    pub lane: usize,
}

// The kind of a place: a missing pin, a pin that is left directly, a side of a tile, or a tile's centre.
#[derive(Clone, Copy, Debug, PartialEq, Eq)]
pub enum Place {
    Missing,
    Pin,
    North,
    East,
    South,
    West,
    Centre,
}

// The entries of a wire's list.
#[derive(Clone, Copy)]
pub enum Part {
    Unwired,
    To {
        row: usize,
        column: usize,
        place: Place,
        lane: usize,
    },
    Out {
        side: Place,
        lane: usize,
    },
    PastTheEnd,
}

// The first hop of the wire of a chosen pin: lane 0 of the first loaded link. `None` where the pin has no wire.
pub fn first_hop(rec: &[u8], row: usize, column: usize) -> Option<Hop>
    requires { Legal rec.now × T (is_chosen (job_of rec.now) row column) }
    ensures { Takes rec.now result (first_loaded (load rec.now) (around (at pin row column))) }
{
    let first = 8 * pin_exit(row, column);
    for k in 0..5 {
        if 0 < wires_out(rec, first + k) {
            return Some(Hop {
                dart: first + k,
                lane: 0,
            });
        }
    }
    None
}

// The hop after a hop: at the place that the dart leads to, the partner of the lane by which the wire comes. `None` where it is outside.
pub fn next_hop(rec: &[u8], hop: Hop) -> Option<Hop>
    requires { Legal rec.now × Runs rec.now hop.dart hop.lane }
    ensures { Takes rec.now result (onward (job_of rec.now) (load rec.now) (some (hop_of hop))) }
{
    if is_outside(rec, head_of(hop.dart)) {
        return None;
    }
    let back = step_back(hop.dart);
    let u = back / 8;
    let around = lanes_round(rec, u);
    let arrival = Lane {
        slot: back % 8,
        lane: hop.lane,
    };
    let departure = partner(&around, arrival);
    Some(Hop {
        dart: u * 8 + departure.slot,
        lane: departure.lane,
    })
}

// The kind of the place with this spot.
fn place_of(spot: usize) -> Place
    ensures { as_kind result ≡ kind_at (spot % 8) }
{
    match spot % 8 {
        0 => Place::Missing,
        1 => Place::Pin,
        2 => Place::North,
        3 => Place::East,
        4 => Place::South,
        5 => Place::West,
        _ => Place::Centre,
    }
}

// What a hop is listed as.
pub fn part_for(rec: &[u8], hop: Hop) -> Part
    requires { Legal rec.now × Runs rec.now hop.dart hop.lane }
    ensures { as_part result ≡ part_of (job_of rec.now) (load rec.now) (some (hop_of hop)) }
{
    let v = head_of(hop.dart);
    if is_outside(rec, v) {
        return Part::Out {
            side: place_of(hop.dart / 8),
            lane: hop.lane,
        };
    }
    Part::To {
        row: row_of(v / 8),
        column: column_of(v / 8),
        place: place_of(v),
        lane: hop.lane,
    }
}

// The part of a chosen pin's wire at an index. The walk goes no further than the wire.
pub fn part_at(rec: &[u8], row: usize, column: usize, index: usize) -> Part
    requires { Legal rec.now × T (is_chosen (job_of rec.now) row column) }
    ensures { as_part result ≡ part_at (job_of rec.now) (load rec.now) row column index }
{
    let Some(mut hop) = first_hop(rec, row, column) else {
        return Part::Unwired;
    };
    for _ in 0..index {
        let Some(next) = next_hop(rec, hop) else {
            return Part::PastTheEnd;
        };
        hop = next;
    }
    part_for(rec, hop)
}

// How many parts the list of a chosen pin's wire has, 0 where the pin has none. A list is walked like this, from `first_hop` by `next_hop` to the end,
// with `part_for` at each hop.
pub fn wire_parts(rec: &[u8], row: usize, column: usize) -> usize
    requires { Legal rec.now × T (is_chosen (job_of rec.now) row column) }
    ensures { Hops (job_of rec.now) (load rec.now) row column result }
{
    let Some(mut hop) = first_hop(rec, row, column) else {
        return 0;
    };
    let mut n: usize = 1;
    while let Some(next) = next_hop(rec, hop) {
        hop = next;
        n += 1;
    }
    n
}
