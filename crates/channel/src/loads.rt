// The loads of a record: how many wires go along a dart, against it, and through a place. A dart's link has one byte.
ghost use Rattle.std.specs.Prelude.{◌≡◌, ◌≢◌, ℕ, ◌+◌, ◌*◌, ◌/◌, ◌%◌, ◌≤◌, ◌<◌, T, ltb, length, get_or};
ghost use Rattle.sums.specs.Counting.{when};
ghost use Rattle.model.specs.Links.{pin, missing, centre, at};
ghost use Rattle.model.specs.Loads.{arrivals, departures};
ghost use Rattle.model.specs.Record.{forth_part, back_part, load};
ghost use Rattle.channel.specs.Map.Fresh.{gains, is_fresh, StaleRun};
ghost use Rattle.channel.specs.Map.LoadedSlots.{loaded_from};
ghost use Rattle.channel.specs.Map.Origins.{origin_of};
ghost use Rattle.channel.specs.Map.Packed.{SlotWords};
ghost use Rattle.channel.specs.Map.{in_grid, row_of, column_of, owner_cell, step_of, carries, is_pass_dart, passed_of, way_part, view, opposed, address, place_of};

use crate::header::{in_grid, wide};
use crate::table::{PLACES, code_of, kind_of, owner_of, seat_of, sign_of};

// What a byte has along the link's positive way.
fn forth(b: usize) -> usize
    ensures { (result ≡ forth_part b) × (result ≤ b) }
{
    if b < 32 { b } else { 0 }
}

// What it has against it.
fn back(b: usize) -> usize
    ensures { (result ≡ back_part b) × (result ≤ b) }
{
    if b < 32 { 0 } else { b - 32 }
}

// What it has one way or the other.
pub fn one_way(b: usize, along: bool) -> usize
    ensures { (result ≡ way_part along b) × (result ≤ b) }
{
    if along {
        return forth(b);
    }
    back(b)
}

// The byte of the dart's link, 0 where no cell of the grid owns it.
fn byte_of(rec: &[u8], d: usize) -> usize
    requires { (32768 ≤ length rec.now) × (d < 105024) }
    ensures { (result ≡ when (in_grid (owner_cell d)) (get_or rec.now (address d) 0)) × (result < 256) }
{
    let i = d % 64;
    let o = d / 64 + owner_of(i);
    if o < 41 {
        return 0;
    }
    if o >= 1641 {
        return 0;
    }
    wide(rec[3927 + 1600 * kind_of(i) + o])
}

// How many wires go along the dart's link its way.
pub fn load_along(rec: &[u8], d: usize) -> usize
    requires { (32768 ≤ length rec.now) × (d < 105024) }
    ensures { (result ≡ when (in_grid (owner_cell d)) (load rec.now (step_of d))) × (result < 256) }
{
    one_way(byte_of(rec, d), sign_of(d % 64) == 0)
}

// How many go the other way.
pub fn load_against(rec: &[u8], d: usize) -> usize
    requires { (32768 ≤ length rec.now) × (d < 105024) }
    ensures { (result ≡ opposed rec.now d) × (result < 256) }
{
    one_way(byte_of(rec, d), sign_of(d % 64) != 0)
}

// What four planes from p on have at the cell x against their links' positive way.
fn back_sum(rec: &[u8], p: usize, x: usize) -> usize
    requires { (32768 ≤ length rec.now) × (p < 20000) × (x < 1641) }
    ensures { (result ≡ back_part (get_or rec.now (p + x) 0) + back_part (get_or rec.now (p + 1600 + x) 0)
        + back_part (get_or rec.now (p + 3200 + x) 0) + back_part (get_or rec.now (p + 4800 + x) 0)) × (result < 1024) }
{
    let n = back(wide(rec[p + x]));
    let e = back(wide(rec[p + 1600 + x]));
    let s = back(wide(rec[p + 3200 + x]));
    let w = back(wide(rec[p + 4800 + x]));
    n + e + s + w
}

// What they have along it.
fn forth_sum(rec: &[u8], p: usize, x: usize) -> usize
    requires { (32768 ≤ length rec.now) × (p < 20000) × (x < 1641) }
    ensures { (result ≡ forth_part (get_or rec.now (p + x) 0) + forth_part (get_or rec.now (p + 1600 + x) 0)
        + forth_part (get_or rec.now (p + 3200 + x) 0) + forth_part (get_or rec.now (p + 4800 + x) 0)) × (result < 1024) }
{
    let n = forth(wide(rec[p + x]));
    let e = forth(wide(rec[p + 1600 + x]));
    let s = forth(wide(rec[p + 3200 + x]));
    let w = forth(wide(rec[p + 4800 + x]));
    n + e + s + w
}

// How many wires come to the centre of the cell's tile.
pub fn through_centre(rec: &[u8], x: usize) -> usize
    requires { (32768 ≤ length rec.now) × (41 ≤ x) × (x < 1641) }
    ensures { (result ≡ arrivals (load rec.now) (at centre (row_of x) (column_of x))) × (result < 1024) }
{
    back_sum(rec, 13527, x)
}

// How many come to the cell's missing pin.
pub fn through_missing(rec: &[u8], x: usize) -> usize
    requires { (32768 ≤ length rec.now) × (41 ≤ x) × (x < 1641) }
    ensures { (result ≡ arrivals (load rec.now) (at missing (row_of x) (column_of x))) × (result < 1024) }
{
    back_sum(rec, 19927, x)
}

// How many leave the cell's pin, by its legs or directly.
pub fn out_of_pin(rec: &[u8], x: usize) -> usize
    requires { (32768 ≤ length rec.now) × (41 ≤ x) × (x < 1641) }
    ensures { (result ≡ departures (load rec.now) (at pin (row_of x) (column_of x))) × (result < 1280) }
{
    forth_sum(rec, 19927, x) + forth(wide(rec[26327 + x]))
}

// Whether a dart of the code carries the load of its step.
pub fn carries_load(c: usize) -> bool
    requires { c < 16 }
    ensures { result ≡ carries c }
{
    let bit: usize = (0b1000_0000_1101_1110 >> c) % 2;
    bit == 1
}

// Whether a dart leads from an entry to its exit.
pub fn is_pass_dart(d: usize) -> bool
    requires { d < 105024 }
    ensures { result ≡ is_pass_dart d }
{
    let c = code_of(d % 64);
    ((c == 5) | (c == 8)) & in_grid(d / 64)
}

// How many wires pass the place of such a dart.
pub fn passing(rec: &[u8], d: usize) -> usize
    requires { (32768 ≤ length rec.now) × (d < 105024) × T (is_pass_dart d) }
    ensures { (result ≡ arrivals (load rec.now) (passed_of d)) × (result < 1024) }
{
    if code_of(d % 64) == 5 {
        return through_centre(rec, d / 64);
    }
    through_missing(rec, d / 64)
}

// How many wires go along a dart.
pub fn carried(rec: &[u8], d: usize) -> usize
    requires { (32768 ≤ length rec.now) × (d < 105024) }
    ensures { (result ≡ view rec.now d) × (result < 1024) }
{
    if carries_load(code_of(d % 64)) {
        return load_along(rec, d);
    }
    if is_pass_dart(d) {
        return passing(rec, d);
    }
    0
}

// Whether wires go along a dart of the cell x, by the word of its row, where x has all its neighbours: their links are on the grid. Nothing branches on
// the byte.
fn loaded_at(rec: &[u8], w: usize, x: usize) -> bool
    requires { (32768 ≤ length rec.now) × (w < 53000) × (w ≢ 1) × (41 ≤ x) × (x < 1600) }
    ensures { (d : ℕ) → d / 64 ≡ x → place_of (d % 64) ≡ w → result ≡ ltb 0 (view rec.now d) }
{
    let b = wide(rec[w / 2 + x]);
    ((w != 0) & (w % 2 == 0) & ((0 < b) & (b < 32))) | ((w % 2 != 0) & (32 < b))
}

// A test as a bit.
pub fn bit(b: bool) -> usize
    ensures { (result ≡ when b 1) × (result < 2) }
{
    if b { 1 } else { 0 }
}

// The loaded slots of u as bits, in such a cell, by the words of its rows.
fn slots_by(rec: &[u8], w: usize, last: usize, u: usize) -> usize
    requires { (32768 ≤ length rec.now) × (41 ≤ u / 8) × (u / 8 < 1600) × SlotWords (u % 8) w last }
    ensures { result ≡ loaded_from rec.now u 0 }
{
    let x = u / 8;
    let a = bit(loaded_at(rec, w % 65536, x));
    let b = bit(loaded_at(rec, (w >> 16) % 65536, x));
    let c = bit(loaded_at(rec, (w >> 32) % 65536, x));
    let d = bit(loaded_at(rec, (w >> 48) % 65536, x));
    let e = bit(loaded_at(rec, last % 65536, x));
    a + 2 * b + 4 * c + 8 * d + 16 * e
}

// The same by the kind of u: the words are constants. Of the first five slots of an entry only the one that leads to its exit carries something.
fn slots_inside(rec: &[u8], u: usize) -> usize
    requires { (32768 ≤ length rec.now) × (41 ≤ u / 8) × (u / 8 < 1600) }
    ensures { result ≡ loaded_from rec.now u 0 }
{
    match u % 8 {
        1 => slots_by(rec, PLACES[2], PLACES[3], u),
        2 => slots_by(rec, PLACES[4], PLACES[5], u),
        3 => slots_by(rec, PLACES[6], PLACES[7], u),
        4 => slots_by(rec, PLACES[8], PLACES[9], u),
        5 => slots_by(rec, PLACES[10], PLACES[11], u),
        7 => slots_by(rec, PLACES[14], PLACES[15], u),
        _ => 16 * bit(carried(rec, 8 * u + 4) != 0),
    }
}

// The same in any cell.
fn slots_anywhere(rec: &[u8], u: usize) -> usize
    requires { (32768 ≤ length rec.now) × (u < 13128) }
    ensures { result ≡ loaded_from rec.now u 0 }
{
    let mut r = 0;
    for k in (0..5).rev() {
        r = 2 * r + bit(carried(rec, 8 * u + k) != 0);
    }
    r
}

// The loaded ones of the first five slots of u as bits, slot 0 the lowest. In a feasible record slots 5 to 7 carry nothing.
pub fn loaded_slots(rec: &[u8], u: usize) -> usize
    requires { (32768 ≤ length rec.now) × (u < 13128) }
    ensures { result ≡ loaded_from rec.now u 0 }
{
    let x = u / 8;
    if (x < 41) | (1600 <= x) {
        return slots_anywhere(rec, u);
    }
    slots_inside(rec, u)
}

// The spot that the wires of the i-th load byte leave; 13,128 where it is 0.
pub fn origin(rec: &[u8], i: usize) -> usize
    requires { (32768 ≤ length rec.now) × (i < 24000) }
    ensures { result ≡ origin_of rec.now i }
{
    let b = wide(rec[3968 + i]);
    if b == 0 {
        return 13128;
    }
    let j = seat_of(i / 1600, b < 32);
    8 * (41 + i % 1600 - owner_of(j)) + j / 8
}

// Whether wires go along the link of the byte b in a direction in which none go by a. It compares bytes and nothing branches, so that a loop of such tests
// can be made one of vectors.
fn gains(a: u8, b: u8) -> bool
    ensures { result ≡ gains a b }
{
    ((0 < b) & (b < 32) & ((a == 0) | (32 <= a))) | ((32 < b) & (a <= 32))
}

// Whether wires go along the i-th link in a direction in which none went by the old loads.
pub fn is_fresh(old: &[u8], rec: &[u8], i: usize) -> bool
    requires { (32768 ≤ length old.now) × (32768 ≤ length rec.now) × (i < 24000) }
    ensures { result ≡ is_fresh old.now rec.now i }
{
    gains(old[3968 + i], rec[3968 + i])
}

// Whether no link of the k-th 16 load bytes is fresh. The loop has no way out, so that it can be made one of vectors.
pub fn stale_run(old: &[u8], rec: &[u8], k: usize) -> bool
    requires { (32768 ≤ length old.now) × (32768 ≤ length rec.now) × (k < 1500) }
    ensures { StaleRun old.now rec.now k result }
{
    let at = 3968 + 16 * k;
    let mut stale = true;
    for j in 0..16 {
        stale = stale & !gains(old[at + j], rec[at + j]);
    }
    stale
}
