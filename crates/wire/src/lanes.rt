// How many wires come and leave by each slot of an exit. The byte of a slot's link stands at a place that the word of its row names, so that both are read
// from one byte; at the rim of the grid they are read dart by dart.
ghost use Rattle.std.specs.Prelude.{◌≡◌, ◌≢◌, ℕ, ◌+◌, ◌*◌, ◌/◌, ◌%◌, ◌≤◌, ◌<◌, length};
ghost use Rattle.model.specs.Links.{turn};
ghost use Rattle.model.specs.Record.{load};
ghost use Rattle.channel.specs.Map.{place_of};
ghost use Rattle.channel.specs.Map.Packed.{SlotWords};
ghost use Rattle.wire.specs.Hops.{lanes_at, lanes_of};

use channel::header::wide;
use channel::loads::one_way;
use channel::places::{wires_in, wires_out};
use channel::table::PLACES;
use pairing::Lanes;

// No lanes.
const NONE: Lanes = Lanes {
    arrive: [0; 5],
    depart: [0; 5],
};

// How many wires come and leave by a slot.
#[derive(Clone, Copy)]
struct Both {
    come: u8,
    leave: u8,
}

// By a slot of the cell x, by the word of its row, where x has all its neighbours: their links are on the grid.
fn by_word(rec: &[u8], w: usize, x: usize) -> Both
    requires { (32768 ≤ length rec.now) × (w < 53000) × (w ≢ 1) × (41 ≤ x) × (x < 1600) }
    ensures { (d : ℕ) → d / 64 ≡ x → place_of (d % 64) ≡ w
        → (result.come ≡ lanes_at (λ s. load rec.now (turn s)) d) × (result.leave ≡ lanes_at (load rec.now) d) }
{
    if w == 0 {
        return Both { come: 0, leave: 0 };
    }
    let b = wide(rec[w / 2 + x]);
    Both {
        come: one_way(b, w % 2 != 0) as u8,
        leave: one_way(b, w % 2 == 0) as u8,
    }
}

// The word of slot k, by the two words of a kind of spot.
fn word_at(w: usize, last: usize, k: usize) -> usize
    requires { k < 5 }
    ensures { (q : ℕ) → q < 8 → SlotWords q w last → (result ≡ place_of (8 * q + k)) × (result < 53000) × (result ≢ 1) }
{
    if k < 4 {
        return (w >> (k * 16)) % 65536;
    }
    last % 65536
}

// By the five slots of u, in such a cell, by the words of its kind.
fn by_words(rec: &[u8], w: usize, last: usize, u: usize) -> Lanes
    requires { (32768 ≤ length rec.now) × (41 ≤ u / 8) × (u / 8 < 1600) × SlotWords (u % 8) w last }
    ensures { (result.arrive ≡ lanes_of (λ s. load rec.now (turn s)) (u * 8)) × (result.depart ≡ lanes_of (load rec.now) (u * 8)) }
{
    let mut around = NONE;
    for k in 0..5 {
        let both = by_word(rec, word_at(w, last, k), u / 8);
        around.arrive[k] = both.come;
        around.depart[k] = both.leave;
    }
    around
}

// In any cell.
fn anywhere(rec: &[u8], u: usize) -> Lanes
    requires { (32768 ≤ length rec.now) × (u < 13128) }
    ensures { (result.arrive ≡ lanes_of (λ s. load rec.now (turn s)) (u * 8)) × (result.depart ≡ lanes_of (load rec.now) (u * 8)) }
{
    let mut around = NONE;
    for k in 0..5 {
        around.arrive[k] = wires_in(rec, u * 8 + k);
        around.depart[k] = wires_out(rec, u * 8 + k);
    }
    around
}

// The lanes of the five slots of u: n, e, s, w and the centre by the words of their kind.
pub fn lanes_round(rec: &[u8], u: usize) -> Lanes
    requires { (32768 ≤ length rec.now) × (u < 13128) }
    ensures { (result.arrive ≡ lanes_of (λ s. load rec.now (turn s)) (u * 8)) × (result.depart ≡ lanes_of (load rec.now) (u * 8)) }
{
    if (u / 8 < 41) | (1600 <= u / 8) {
        return anywhere(rec, u);
    }
    match u % 8 {
        2 => by_words(rec, PLACES[4], PLACES[5], u),
        3 => by_words(rec, PLACES[6], PLACES[7], u),
        4 => by_words(rec, PLACES[8], PLACES[9], u),
        5 => by_words(rec, PLACES[10], PLACES[11], u),
        7 => by_words(rec, PLACES[14], PLACES[15], u),
        _ => anywhere(rec, u),
    }
}
