// The moves of the search: whether one more wire may go along a dart, or one less along its way back; what such a move stores; where wires start and end.
ghost use Rattle.std.specs.Prelude.{◌≡◌, ◌||◌, ◌/◌, ◌%◌, ◌≤◌, ◌<◌, T, eqb, length};
ghost use Rattle.model.specs.Record.{job_of};
ghost use Rattle.channel.specs.Map.{is_start, outside, starts, moves, is_stored, bump, laid, code_of};
ghost use Rattle.channel.specs.Map.Moving.{through_centre, through_missing};

use crate::header::{chosen_at, in_grid, missing_at, open_at, tile_at};
use crate::limits::{
    centre_free, centre_most, corner_limit, direct_limit, leg_mark, leg_way, missing_most,
    pin_free, side_limit,
};
use crate::loads::{load_against, load_along, out_of_pin, through_centre, through_missing};
use crate::table::{code_of, kind_of, owner_of, sign_of};

// Whether a wire is to start at the spot.
pub fn is_start(job: &[u8], u: usize) -> bool
    requires { (32768 ≤ length job.now) × (u < 13128) }
    ensures { result ≡ is_start (job_of job.now) u }
{
    if u % 8 != 1 {
        return false;
    }
    chosen_at(job, u / 8)
}

// Whether the spot lies outside.
pub fn is_outside(job: &[u8], u: usize) -> bool
    requires { (32768 ≤ length job.now) × (u < 13128) }
    ensures { result ≡ outside (job_of job.now) u }
{
    let k = u % 8;
    if k == 0 {
        return !missing_at(job, u / 8);
    }
    if (k < 2) | (6 <= k) {
        return false;
    }
    !tile_at(job, u / 8)
}

// How many wires start at the spot.
pub fn wire_starts(job: &[u8], loads: &[u8], u: usize) -> usize
    requires { (32768 ≤ length job.now) × (32768 ≤ length loads.now) × (u < 13128) }
    ensures { result ≡ starts (job_of job.now) loads.now u }
{
    if is_start(job, u) {
        return out_of_pin(loads, u / 8);
    }
    0
}

// A side: room, or a wire the other way.
fn side_move(job: &[u8], loads: &[u8], d: usize) -> bool
    requires { (32768 ≤ length job.now) × (32768 ≤ length loads.now) × (d < 105024) × (code_of (d % 64) ≡ 1) }
    ensures { result ≡ moves (job_of job.now) loads.now d }
{
    if 0 < load_against(loads, d) {
        return true;
    }
    load_along(loads, d) < side_limit(job, d)
}

// A corner: the same.
fn corner_move(job: &[u8], loads: &[u8], d: usize) -> bool
    requires { (32768 ≤ length job.now) × (32768 ≤ length loads.now) × (d < 105024) × (code_of (d % 64) ≡ 2) }
    ensures { result ≡ moves (job_of job.now) loads.now d }
{
    if 0 < load_against(loads, d) {
        return true;
    }
    load_along(loads, d) < corner_limit(job, d)
}

// A direct exit: the same.
fn direct_move(job: &[u8], loads: &[u8], d: usize) -> bool
    requires { (32768 ≤ length job.now) × (32768 ≤ length loads.now) × (d < 105024) × (code_of (d % 64) ≡ 15) }
    ensures { result ≡ moves (job_of job.now) loads.now d }
{
    if 0 < load_against(loads, d) {
        return true;
    }
    load_along(loads, d) < direct_limit(job, d)
}

// To or from a centre: no wire the other way.
pub fn spoke_move(job: &[u8], loads: &[u8], d: usize) -> bool
    requires { (32768 ≤ length job.now) × (32768 ≤ length loads.now) × (d < 105024) × T (eqb (code_of (d % 64)) 3 || eqb (code_of (d % 64)) 4) }
    ensures { result ≡ moves (job_of job.now) loads.now d }
{
    centre_free(job, d) & (load_against(loads, d) == 0)
}

// To a missing pin: the same.
fn into_move(job: &[u8], loads: &[u8], d: usize) -> bool
    requires { (32768 ≤ length job.now) × (32768 ≤ length loads.now) × (d < 105024) × (code_of (d % 64) ≡ 6) }
    ensures { result ≡ moves (job_of job.now) loads.now d }
{
    if pin_free(job, d) {
        return load_against(loads, d) == 0;
    }
    false
}

// From a pin: a chosen one's first wire, or a missing one's where no wire goes the other way.
fn pin_move(job: &[u8], loads: &[u8], d: usize) -> bool
    requires { (32768 ≤ length job.now) × (32768 ≤ length loads.now) × (d < 105024) × (code_of (d % 64) ≡ 7) }
    ensures { result ≡ moves (job_of job.now) loads.now d }
{
    let m = leg_mark(job, d);
    if m == 1 {
        return (load_along(loads, d) == 0) & leg_way(job, d);
    }
    if m == 2 {
        return (load_against(loads, d) == 0) & leg_way(job, d);
    }
    false
}

// Through a centre: fewer than its limit pass.
pub fn centre_move(job: &[u8], loads: &[u8], d: usize) -> bool
    requires { (32768 ≤ length job.now) × (32768 ≤ length loads.now) × (d < 105024) × (code_of (d % 64) ≡ 5) }
    ensures { result ≡ moves (job_of job.now) loads.now d }
{
    if open_at(job, d / 64) {
        return through_centre(loads, d / 64) < centre_most(job, d / 64);
    }
    false
}

// Through a missing pin: the same.
fn missing_move(job: &[u8], loads: &[u8], d: usize) -> bool
    requires { (32768 ≤ length job.now) × (32768 ≤ length loads.now) × (d < 105024) × (code_of (d % 64) ≡ 8) }
    ensures { result ≡ moves (job_of job.now) loads.now d }
{
    if missing_at(job, d / 64) {
        return through_missing(loads, d / 64) < missing_most(job);
    }
    false
}

// Back through a centre: some wire passes.
pub fn centre_back(loads: &[u8], d: usize) -> bool
    requires { (32768 ≤ length loads.now) × (d < 105024) }
    ensures { result ≡ through_centre loads.now (d / 64) }
{
    if in_grid(d / 64) {
        return 0 < through_centre(loads, d / 64);
    }
    false
}

// Back through a missing pin: the same.
fn missing_back(loads: &[u8], d: usize) -> bool
    requires { (32768 ≤ length loads.now) × (d < 105024) }
    ensures { result ≡ through_missing loads.now (d / 64) }
{
    if in_grid(d / 64) {
        return 0 < through_missing(loads, d / 64);
    }
    false
}

// Whether the search may go along the dart.
pub fn can_move(job: &[u8], loads: &[u8], d: usize) -> bool
    requires { (32768 ≤ length job.now) × (32768 ≤ length loads.now) × (d < 105024) }
    ensures { result ≡ moves (job_of job.now) loads.now d }
{
    match code_of(d % 64) {
        0 => false,
        1 => side_move(job, loads, d),
        2 => corner_move(job, loads, d),
        3 | 4 => spoke_move(job, loads, d),
        5 => centre_move(job, loads, d),
        6 => into_move(job, loads, d),
        7 => pin_move(job, loads, d),
        8 => missing_move(job, loads, d),
        11 => centre_back(loads, d),
        14 => missing_back(loads, d),
        15 => direct_move(job, loads, d),
        _ => 0 < load_against(loads, d),
    }
}

// Whether a dart of the code has a stored byte.
pub fn is_stored(c: usize) -> bool
    requires { c < 16 }
    ensures { result ≡ is_stored c }
{
    let bit: usize = (0b1011_0110_1101_1110 >> c) % 2;
    bit == 1
}

// The byte b with one more in the direction of sign s.
fn bumped(s: usize, b: u8) -> u8
    ensures { result ≡ bump s b }
{
    if s == 0 {
        if b < 32 {
            return b + 1;
        }
        if b == 33 {
            return 0;
        }
        return b - 1;
    }
    if b == 0 {
        return 33;
    }
    if b < 32 {
        return b - 1;
    }
    if b < 255 {
        return b + 1;
    }
    b
}

// One move along the dart.
pub fn lay(loads: &mut [u8], d: usize)
    requires { (32768 ≤ length loads.old) × (d < 105024) }
    ensures { loads.new ≡ laid loads.old d }
{
    let i = d % 64;
    if !is_stored(code_of(i)) {
        return;
    }
    let o = d / 64 + owner_of(i);
    if !in_grid(o) {
        return;
    }
    let a = 3927 + 1600 * kind_of(i) + o;
    loads[a] = bumped(sign_of(i), loads[a]);
}
