// Wires taken out of a record: the pins whose wires go are marked, a byte for each of the 1,600 cells, and their wires are taken out. Callers lend the record
// as it was, audited, in which wires are followed, and a copy of it that changes.
#![tactic(auto)]

ghost use Rattle.std.specs.Prelude.{List, ℕ, ◌+◌, ◌/◌, ◌%◌, ◌≤◌, ◌<◌, ◌≡◌, [], ◌∷◌, T, length, replicate};
ghost use Rattle.std.specs.Fn.{FnOnceReturnsAtMut};
ghost use Rattle.model.specs.Job.{is_chosen, marked, closed, side_of, laid_by, with_own_d, with_extra};
ghost use Rattle.model.specs.Links.{centre, Place, is_place, pin_at, turn, at};
ghost use Rattle.model.specs.Near.{exit};
ghost use Rattle.model.specs.Record.{job_of, load, Legal, record_of, over};
ghost use Rattle.model.specs.Left.{tile_places, mark_left, close_left, centre_left, laid_left, missing_places, extra_left};
ghost use Rattle.channel.specs.Map.{step_of, is_link_dart, dart_of, laid};
ghost use Rattle.takeout.specs.Taken.{TakesOut};
ghost use Rattle.takeout.specs.LeftRecord.{SameRecord};
ghost use Rattle.takeout.specs.AllTaken.{TakesIf};
ghost use Rattle.takeout.specs.Marks.{is_marked, Adds, OnLanes, Against, ByEnds, ComesTo};
ghost use Rattle.takeout.specs.Edited.{Marks};
ghost use Rattle.takeout.specs.Stored.{Unwired, LeavesLaid};
ghost use Rattle.takeout.specs.Missing.{missing_to};

use crate::back::pin_of;
use channel::places::{pin_exit, step_back, wires_in};
use channel::{
    is_chosen, is_missing, is_open, lay, load_along, orthogonal, set_extra, set_laid, set_mark,
    set_own, set_state,
};
use wire::{Hop, first_hop, next_hop};

pub mod back; // the pin of a wire, from any of its hops

// One wire less along a dart: one move along its step back.
fn lessen(rec: &mut [u8], dart: usize)
    requires { (32768 ≤ length rec.old) × (dart < 105024) × T (is_link_dart dart) }
    ensures { rec.new ≡ laid rec.old (dart_of (turn (step_of dart))) }
{
    lay(rec, step_back(dart));
}

// The wire of a chosen pin, which is listed in `was`, taken out of `rec`: each step has as many wires less as the wire goes by it.
fn take_out(was: &[u8], rec: &mut [u8], row: usize, column: usize)
    requires { Legal was.now × T (is_chosen (job_of was.now) row column) × (32768 ≤ length rec.old) }
    ensures { TakesOut was.now row column rec.old rec.new }
{
    let Some(first) = first_hop(was, row, column) else {
        return;
    };
    lessen(rec, first.dart);
    let mut last = first;
    let mut n: usize = 0;
    while let Some(hop) = next_hop(was, last) {
        lessen(rec, hop.dart);
        last = hop;
        n += 1;
    }
}

// The wire of the pin of the i-th cell taken out, if it is marked.
fn take_if(was: &[u8], rec: &mut [u8], taken: &[u8], i: usize)
    requires { Legal was.now × (32768 ≤ length rec.old) × (i < 1600) × (1600 ≤ length taken.now) }
    ensures { TakesIf was.now (is_marked taken.now) (i / 40) (i % 40) rec.old rec.new }
{
    if taken[i] != 1 {
        return;
    }
    if !is_chosen(was, i / 40, i % 40) {
        return;
    }
    take_out(was, rec, i / 40, i % 40);
}

// The wires of all pins that are marked taken out of `rec`, a copy of the record. The others stay.
pub fn take_marked(was: &[u8], rec: &mut [u8], taken: &[u8])
    requires { Legal was.now × (32768 ≤ length rec.old) × SameRecord was.now rec.old × (1600 ≤ length taken.now) }
    ensures { Unwired was.now taken.now rec.old rec.new }
{
    for i in 0..1600 {
        take_if(was, rec, taken, i);
    }
}

// Marks the pins of the wires on the lanes of a dart from `from` on.
fn mark_lanes(was: &[u8], taken: &mut [u8], dart: usize, from: usize)
    requires { Legal was.now × (1600 ≤ length taken.old) × (dart < 105024) × T (is_link_dart dart) }
    ensures { Adds was.now (OnLanes dart from) taken.old taken.new }
{
    let n = load_along(was, dart);
    for lane in from..n {
        taken[pin_of(was, Hop { dart, lane })] = 1;
    }
}

// Marks the pins of the wires that come along the link of a dart, against it.
fn mark_slot(was: &[u8], taken: &mut [u8], dart: usize)
    requires { Legal was.now × (1600 ≤ length taken.old) × (dart < 105024) }
    ensures { Adds was.now (Against dart) taken.old taken.new }
{
    if wires_in(was, dart) == 0 {
        return;
    }
    mark_lanes(was, taken, step_back(dart), 0);
}

// Marks the pins of the wires that come to the place of which u is the exit. A place without load has no wire that is walked.
pub fn mark_place(was: &[u8], taken: &mut [u8], u: usize)
    requires { Legal was.now × (1600 ≤ length taken.old) × (u < 13128) }
    ensures { (x : Place) → T (is_place (job_of was.now) x) → exit x ≡ u
        → Adds was.now (ComesTo (job_of was.now) x) taken.old taken.new }
{
    for k in 0..5 {
        mark_slot(was, taken, 8 * u + k);
    }
}

// Marks the pins of the wires that meet the pin (r, c): its own, or those that pass it where it is missing.
fn mark_pin(was: &[u8], taken: &mut [u8], r: usize, c: usize)
    requires { Legal was.now × (1600 ≤ length taken.old) × (r < 40) × (c < 40) }
    ensures { Marks was.now taken.old [] → Marks was.now taken.new (pin_at (job_of was.now) r c ∷ []) }
{
    if is_chosen(was, r, c) {
        taken[40 * r + c] = 1;
        return;
    }
    if !is_missing(was, r, c) {
        return;
    }
    mark_place(was, taken, pin_exit(r, c));
}

// Marks the pins of the wires that come into a tile at the place of which u is the exit, by the side or from a pin.
fn mark_entries(was: &[u8], taken: &mut [u8], u: usize)
    requires { Legal was.now × (1600 ≤ length taken.old) × (u < 13128) }
    ensures { Adds was.now (ByEnds u) taken.old taken.new }
{
    mark_slot(was, taken, 8 * u);
    mark_slot(was, taken, 8 * u + 4);
}

// Marks the pins of the wires that meet a place of the tile (r, c): of those that come into it. A closed tile has none.
fn mark_tile(was: &[u8], taken: &mut [u8], r: usize, c: usize)
    requires { Legal was.now × (1600 ≤ length taken.old) × (r < 40) × (c < 40) }
    ensures { Marks was.now taken.old [] → Marks was.now taken.new (tile_places r c) }
{
    if !is_open(was, r, c) {
        return;
    }
    let first = 8 * (41 + 40 * r + c);
    mark_entries(was, taken, first + 5);
    mark_entries(was, taken, first + 4);
    mark_entries(was, taken, first + 3);
    mark_entries(was, taken, first + 2);
}

// Marks the pins of the wires that pass the centre of the tile (r, c); a closed tile has none.
fn mark_centre(was: &[u8], taken: &mut [u8], r: usize, c: usize)
    requires { Legal was.now × (1600 ≤ length taken.old) × (r < 40) × (c < 40) }
    ensures { Marks was.now taken.old [] → Marks was.now taken.new (at centre r c ∷ []) }
{
    if !is_open(was, r, c) {
        return;
    }
    mark_place(was, taken, 8 * (41 + 40 * r + c) + 7);
}

// The wires of the pins that `mark` marks taken out of `rec`, a copy of the record. The others stay.
fn unwire<M: FnOnce(&mut [u8; 1600])>(was: &[u8], rec: &mut [u8], mark: M)
    requires record { Legal was.now × (32768 ≤ length rec.old) × SameRecord was.now rec.old }
    requires mark { M.IsAlwaysCallable mark }
    ensures { (taken : List ℕ) × FnOnceReturnsAtMut M.FnOnce mark (replicate 1600 0) tt taken × Unwired was.now taken rec.old rec.new }
{
    let mut taken = [0u8; 1600];
    mark(&mut taken);
    take_marked(was, rec, &taken);
}

// The mark of a pin, in a record from which only the wires that start at the pin or pass it are taken out.
pub fn mark_keeping(was: &[u8], rec: &mut [u8], r: usize, c: usize, m: usize)
    requires { Legal was.now × (32768 ≤ length rec.old) × SameRecord was.now rec.old × (r < 40) × (c < 40) × (m ≤ 2) }
    ensures { rec.new ≡ over (record_of (marked (job_of was.now) r c m) (mark_left (job_of was.now) (load was.now) r c))
        rec.old }
{
    unwire(was, rec, |taken| mark_pin(was, taken, r, c));
    set_mark(rec, r, c, m);
}

// The state of a tile, in a record from which only the wires that come to a place of the tile are taken out.
pub fn close_keeping(was: &[u8], rec: &mut [u8], r: usize, c: usize, v: usize)
    requires { Legal was.now × (32768 ≤ length rec.old) × SameRecord was.now rec.old × (r < 40) × (c < 40) × (v ≤ 1) }
    ensures { rec.new ≡ over (record_of (closed (job_of was.now) r c v) (close_left (job_of was.now) (load was.now) r c))
        rec.old }
{
    unwire(was, rec, |taken| mark_tile(was, taken, r, c));
    set_state(rec, r, c, v);
}

// The own D of a tile, 0 for none, in a record from which only the wires through the tile's centre are taken out.
pub fn diagonal_keeping(was: &[u8], rec: &mut [u8], r: usize, c: usize, d: usize)
    requires { Legal was.now × (32768 ≤ length rec.old) × SameRecord was.now rec.old × (r < 40) × (c < 40) × (d < 256) }
    ensures { rec.new ≡ over (record_of (with_own_d (job_of was.now) r c d) (centre_left (job_of was.now) (load was.now) r c))
        rec.old }
{
    unwire(was, rec, |taken| mark_centre(was, taken, r, c));
    set_own(rec, r, c, d);
}

// Marks the pins of the wires in the highest lanes of a side: those on which there is none once n wires are laid on it.
fn mark_highest(was: &[u8], taken: &mut [u8], r: usize, c: usize, side: usize, n: usize)
    requires { Legal was.now × (1600 ≤ length taken.old) × (r < 39) × (c < 39) × (side ≤ 3) × (n ≤ (job_of was.now).O) }
    ensures { taken.old ≡ replicate 1600 0 → LeavesLaid was.now taken.new (side_of r c side) n }
{
    let limit = orthogonal(was) - n;
    let dart = 8 * (8 * (41 + 40 * r + c) + 2 + side);
    mark_lanes(was, taken, dart, limit);
    mark_lanes(was, taken, step_back(dart), limit);
}

// The count of a side of a tile, in a record from which only the wires in the side's highest lanes are taken out, just enough.
pub fn lay_keeping(was: &[u8], rec: &mut [u8], r: usize, c: usize, side: usize, n: usize)
    requires { Legal was.now × (32768 ≤ length rec.old) × SameRecord was.now rec.old × (r < 39) × (c < 39) × (side ≤ 3)
        × (n ≤ (job_of was.now).O) }
    ensures { rec.new ≡ over (record_of (laid_by (job_of was.now) (side_of r c side) n)
        (laid_left (job_of was.now) (load was.now) (side_of r c side) n)) rec.old }
{
    unwire(was, rec, |taken| {
        mark_highest(was, taken, r, c, side, n)
    });
    set_laid(rec, r, c, side, n);
}

// Marks the pins of the wires that pass the missing pin of the i-th cell, if there is one.
fn mark_missing_at(was: &[u8], taken: &mut [u8], i: usize)
    requires { Legal was.now × (1600 ≤ length taken.old) × (i < 1600) }
    ensures { Marks was.now taken.old (missing_to (job_of was.now) i)
        → Marks was.now taken.new (missing_to (job_of was.now) (i + 1)) }
{
    if !is_missing(was, i / 40, i % 40) {
        return;
    }
    mark_place(was, taken, pin_exit(i / 40, i % 40));
}

// Marks the pins of the wires that pass a missing pin.
fn mark_missing(was: &[u8], taken: &mut [u8])
    requires { Legal was.now × (1600 ≤ length taken.old) }
    ensures { Marks was.now taken.old [] → Marks was.now taken.new (missing_places (job_of was.now)) }
{
    for i in 0..1600 {
        mark_missing_at(was, taken, i);
    }
}

// A lower E, in a record from which only the wires that pass a missing pin are taken out.
pub fn extra_keeping(was: &[u8], rec: &mut [u8], e: usize)
    requires { Legal was.now × (32768 ≤ length rec.old) × SameRecord was.now rec.old × (e < 256) }
    ensures { rec.new ≡ over (record_of (with_extra (job_of was.now) e) (extra_left (job_of was.now) (load was.now)))
        rec.old }
{
    unwire(was, rec, |taken| mark_missing(was, taken));
    set_extra(rec, e);
}
