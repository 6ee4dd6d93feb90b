// The nodes and darts that the parts of a listing name.
ghost use Rattle.std.specs.Prelude.{◌<◌, IfSome};

use oracle::arcs::{Place, entry_node, place_node, tile_of};
use oracle::net::{FIRST_PIN, NODES, Network, OUTSIDE};
use oracle_text::job::{Job, Mark};

// The node by which a wire comes to what a `to` names, if the job has such a place.
pub fn arrival(job: &Job, r: usize, c: usize, letter: usize) -> Option<usize>
    ensures { IfSome result (λ u. u < 12328) }
{
    if r >= 40 || c >= 40 {
        return None;
    }
    match u8::try_from(letter).ok()? {
        b'n' => place_node(job, r + 1, c + 1, Place::North),
        b'e' => place_node(job, r + 1, c + 1, Place::East),
        b's' => place_node(job, r + 1, c + 1, Place::South),
        b'w' => place_node(job, r + 1, c + 1, Place::West),
        b'c' => place_node(job, r + 1, c + 1, Place::In),
        b'r' if job.mark(40 * r + c) == Mark::Missing => entry_node(40 * r + c),
        _ => None,
    }
}

// The node is the entry of a centre or of a missing pin, and the next node its exit.
pub fn is_entry(u: usize) -> bool {
    if u >= FIRST_PIN {
        u % 2 == 0
    } else {
        u >= 2 && u % 6 == 0
    }
}

// The node by which a wire that came to `u` leaves.
pub fn departure(u: usize) -> usize {
    if u < NODES && is_entry(u) { u + 1 } else { u }
}

// The dart from `u` to `v`, if there is one that lets a wire through. No node but START and OUTSIDE has 16 darts.
pub fn dart(network: &Network, u: usize, v: usize) -> Option<usize> {
    let mut d = network.first(u);
    for _ in 0..16 {
        if d == 0 || network.to(d) == v {
            break;
        }
        d = network.next(d);
    }
    if d != 0 && network.to(d) == v && network.rest(d) > 0 {
        Some(d)
    } else {
        None
    }
}

// What a step from `u` to `v` adds to the length: 10 for a side, 14 for a missing pin, nothing where a wire leaves its pin.
pub fn step_length(u: usize, v: usize) -> usize
    ensures { result < 16 }
{
    if v >= FIRST_PIN {
        14
    } else if u < FIRST_PIN && (v == OUTSIDE || tile_of(u) != tile_of(v)) {
        10
    } else {
        0
    }
}

// The letter of the side or the chosen pin that the node is, if it is one of these.
pub fn letter_of(u: usize) -> Option<u8> {
    if u >= FIRST_PIN {
        return if is_entry(u) { None } else { Some(b'p') };
    }
    if u < 2 {
        return None;
    }
    match u % 6 {
        2 => Some(b'n'),
        3 => Some(b'e'),
        4 => Some(b's'),
        5 => Some(b'w'),
        _ => None,
    }
}
