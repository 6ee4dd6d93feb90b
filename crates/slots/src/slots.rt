// Of the slots of a spot that are wanted, those along which the search may move, as the bits of a number. In a cell that has all its neighbours they are read
// by the spot's kind.
ghost use Rattle.std.specs.Prelude.{◌≡◌, ◌||◌, ℕ, min, ◌+◌, ◌*◌, ◌/◌, ◌%◌, ◌^◌, ◌≤◌, ◌<◌, T, eqb, length};
ghost use Rattle.sums.specs.Counting.{when};
ghost use Rattle.model.specs.Record.{load, job_of};
ghost use Rattle.channel.specs.Map.{in_grid, code_of, owner_cell, step_of, cap, free, opposed, moves, place_of};
ghost use Rattle.channel.specs.Map.Packed.{SlotWords};
ghost use Rattle.slots.specs.Ahead.{Bits};
ghost use Rattle.slots.specs.Slots.{has_room, PlaceSlots};

use channel::header::wide;
use channel::limits::{centre_free, corner_limit, pin_free, side_limit};
use channel::loads::{bit, one_way};
use channel::moves::{centre_back, centre_move, spoke_move};
use channel::table::PLACES;
use channel::{can_move, load_against};

// 1 where the search may move along d and the lowest bit of wanted is set.
fn wanted_move(job: &[u8], loads: &[u8], d: usize, wanted: usize) -> usize
    requires { (32768 ≤ length job.now) × (32768 ≤ length loads.now) × (d < 105024) }
    ensures { (result ≡ min (wanted % 2) (when (moves (job_of job.now) loads.now d) 1)) × (result < 2) }
{
    if wanted % 2 == 0 {
        return 0;
    }
    bit(can_move(job, loads, d))
}

// Four darts from d on.
fn four_moves(job: &[u8], loads: &[u8], d: usize, wanted: usize) -> usize
    requires { (32768 ≤ length job.now) × (32768 ≤ length loads.now) × (d + 3 < 105024) }
    ensures { Bits 4 (λ j. min (wanted / 2 ^ j % 2) (when (moves (job_of job.now) loads.now (d + j)) 1)) result }
{
    let a = wanted_move(job, loads, d, wanted);
    let b = wanted_move(job, loads, d + 1, wanted / 2);
    let c = wanted_move(job, loads, d + 2, wanted / 4);
    let e = wanted_move(job, loads, d + 3, wanted / 8);
    a + 2 * b + 4 * c + 8 * e
}

// How many wires go along a dart's link its way, by the word of the dart's row, where the dart's cell x has all its neighbours: the link is on the grid.
fn along(loads: &[u8], w: usize, x: usize) -> usize
    requires { (32768 ≤ length loads.now) × (1 < w) × (w < 53000) × (41 ≤ x) × (x < 1600) }
    ensures { (d : ℕ) → d / 64 ≡ x → place_of (d % 64) ≡ w → result ≡ when (in_grid (owner_cell d)) (load loads.now (step_of d)) }
{
    one_way(wide(loads[w / 2 + x]), w % 2 == 0)
}

// How many go the other way.
fn against(loads: &[u8], w: usize, x: usize) -> usize
    requires { (32768 ≤ length loads.now) × (1 < w) × (w < 53000) × (41 ≤ x) × (x < 1600) }
    ensures { (d : ℕ) → d / 64 ≡ x → place_of (d % 64) ≡ w → result ≡ opposed loads.now d }
{
    one_way(wide(loads[w / 2 + x]), w % 2 != 0)
}

// 1 where fewer wires than most go the dart's way, or some the other way. Nothing branches on the byte.
fn room(loads: &[u8], w: usize, x: usize, most: usize) -> usize
    requires { (32768 ≤ length loads.now) × (1 < w) × (w < 53000) × (41 ≤ x) × (x < 1600) }
    ensures { ((d : ℕ) → d / 64 ≡ x → place_of (d % 64) ≡ w → result ≡ when (has_room loads.now d most) 1) × (result < 2) }
{
    bit((along(loads, w, x) < most) | (0 < against(loads, w, x)))
}

// The slots of n, e, s or w by the place words of its rows: p for slots 0 to 3 and q for slot 4. Slots 5 and 7 lead back along the links of slots 2 and 4.
// Slot 0 stands on across and slot 4 on pin, and no other slot does.
fn by_words(
    loads: &[u8],
    u: usize,
    p: usize,
    q: usize,
    across: usize,
    half: usize,
    centre: bool,
    pin: bool,
) -> usize
    requires { (32768 ≤ length loads.now) × (41 ≤ u / 8) × (u / 8 < 1600) × (2 ≤ u % 8) × (u % 8 < 6) × SlotWords (u % 8) p q }
    ensures { PlaceSlots loads.now u across half centre pin result }
{
    let x = u / 8;
    let side = room(loads, p % 65536, x, across);
    let right = room(loads, (p >> 16) % 65536, x, half);
    let spoke = against(loads, (p >> 32) % 65536, x);
    let left = room(loads, (p >> 48) % 65536, x, half);
    let leg = against(loads, q % 65536, x);
    let into = bit(centre & (spoke == 0));
    let to = bit(pin & (leg == 0));
    side + 2 * right + 4 * into + 8 * left + 16 * to + 32 * bit(0 < spoke) + 128 * bit(0 < leg)
}

// The slots by the kind of the spot: the words are constants.
fn by_kind(loads: &[u8], u: usize, across: usize, half: usize, centre: bool, pin: bool) -> usize
    requires { (32768 ≤ length loads.now) × (41 ≤ u / 8) × (u / 8 < 1600) × (2 ≤ u % 8) × (u % 8 < 6) }
    ensures { PlaceSlots loads.now u across half centre pin result }
{
    match u % 8 {
        2 => by_words(loads, u, PLACES[4], PLACES[5], across, half, centre, pin),
        3 => by_words(loads, u, PLACES[6], PLACES[7], across, half, centre, pin),
        4 => by_words(loads, u, PLACES[8], PLACES[9], across, half, centre, pin),
        _ => by_words(loads, u, PLACES[10], PLACES[11], across, half, centre, pin),
    }
}

// The limit of a side's dart where the lowest bit of wanted is set.
fn wanted_limit(job: &[u8], d: usize, wanted: usize) -> usize
    requires { (32768 ≤ length job.now) × (d < 105024) × (code_of (d % 64) ≡ 1) }
    ensures { wanted % 2 ≡ 1 → result ≡ cap (job_of job.now) d }
{
    if wanted % 2 == 0 {
        return 0;
    }
    side_limit(job, d)
}

// Whether a dart to a pin may be used, where that bit is set.
fn wanted_free(job: &[u8], d: usize, wanted: usize) -> bool
    requires { (32768 ≤ length job.now) × (d < 105024) × T (eqb (code_of (d % 64)) 6 || eqb (code_of (d % 64)) 7) }
    ensures { wanted % 2 ≡ 1 → result ≡ free (job_of job.now) d }
{
    if wanted % 2 == 0 {
        return false;
    }
    pin_free(job, d)
}

// The slots of n, e, s or w.
fn from_place(job: &[u8], loads: &[u8], u: usize, wanted: usize) -> usize
    requires { (32768 ≤ length job.now) × (32768 ≤ length loads.now) × (41 ≤ u / 8) × (u / 8 < 1600) × (2 ≤ u % 8) × (u % 8 < 6) }
    ensures { Bits 8 (λ k. min (wanted / 2 ^ k % 2) (when (moves (job_of job.now) loads.now (8 * u + k)) 1)) result }
{
    let across = wanted_limit(job, 8 * u, wanted);
    let pin = wanted_free(job, 8 * u + 4, wanted / 16);
    let half = corner_limit(job, 8 * u + 1);
    let centre = centre_free(job, 8 * u + 2);
    wanted & by_kind(loads, u, across, half, centre, pin)
}

// The slots of the entry of a centre.
fn from_entry(job: &[u8], loads: &[u8], x: usize, wanted: usize) -> usize
    requires { (32768 ≤ length job.now) × (32768 ≤ length loads.now) × (x < 1641) }
    ensures { Bits 8 (λ k. min (wanted / 2 ^ k % 2) (when (moves (job_of job.now) loads.now (64 * x + 48 + k)) 1)) result }
{
    let d = 64 * x + 48;
    let n = bit(0 < load_against(loads, d));
    let e = bit(0 < load_against(loads, d + 1));
    let s = bit(0 < load_against(loads, d + 2));
    let w = bit(0 < load_against(loads, d + 3));
    let pass = bit(centre_move(job, loads, d + 4));
    wanted & (n + 2 * e + 4 * s + 8 * w + 16 * pass)
}

// The slots of its exit.
fn from_exit(job: &[u8], loads: &[u8], x: usize, wanted: usize) -> usize
    requires { (32768 ≤ length job.now) × (32768 ≤ length loads.now) × (x < 1641) }
    ensures { Bits 8 (λ k. min (wanted / 2 ^ k % 2) (when (moves (job_of job.now) loads.now (64 * x + 56 + k)) 1)) result }
{
    let d = 64 * x + 56;
    let n = bit(spoke_move(job, loads, d));
    let e = bit(spoke_move(job, loads, d + 1));
    let s = bit(spoke_move(job, loads, d + 2));
    let w = bit(spoke_move(job, loads, d + 3));
    let pass = bit(centre_back(loads, d + 5));
    wanted & (n + 2 * e + 4 * s + 8 * w + 32 * pass)
}

// The slots of u among those wanted along which the search may move.
pub fn move_slots(job: &[u8], loads: &[u8], u: usize, wanted: usize) -> usize
    requires { (32768 ≤ length job.now) × (32768 ≤ length loads.now) × (u < 13128) }
    ensures { Bits 8 (λ k. min (wanted / 2 ^ k % 2) (when (moves (job_of job.now) loads.now (8 * u + k)) 1)) result }
{
    let x = u / 8;
    let k = u % 8;
    if (x < 41) | (1600 <= x) | (k < 2) {
        let low = four_moves(job, loads, 8 * u, wanted);
        let high = four_moves(job, loads, 8 * u + 4, wanted / 16);
        return low + 16 * high;
    }
    if k < 6 {
        return from_place(job, loads, u, wanted);
    }
    if k == 6 {
        return from_entry(job, loads, x, wanted);
    }
    from_exit(job, loads, x, wanted)
}
