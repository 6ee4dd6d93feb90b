// All wires that fit, and what the rest lacks: a copy of the record is filled, and the smallest near side is shown where some chosen pin stays unwired.
ghost use Rattle.std.specs.Prelude.{◌≡◌, ◌-◌, ◌≤◌, ◌<◌, length};
ghost use Rattle.sums.specs.Counting.{when};
ghost use Rattle.model.specs.Record.{record_size, job_of, Legal, over};
ghost use Rattle.model.specs.Route.{chosen_count};
ghost use Rattle.model.specs.Calls.{wires_in, near_bytes};
ghost use Rattle.channel.specs.Map.{spots, want, starts};
ghost use Rattle.augment.specs.Marks.{marked};
ghost use Rattle.augment.specs.Steps.{Whole};
ghost use Rattle.search.specs.Fill.{unwired_count};
ghost use Rattle.search.specs.Outcome.{FilledCopy, Lacks};

use crate::fill::fill;
use crate::untangle::unloop;
use channel::copy::copy;
use channel::{is_start, wire_starts};

// 1 where a wire is wanted at the spot and none starts there, else 0.
fn lacks(job: &[u8], loads: &[u8], u: usize) -> usize
    requires { Whole job.now loads.now × (u < spots) }
    ensures { (result ≡ want (job_of job.now) u - starts (job_of job.now) loads.now u) × (result ≤ 1) }
{
    if !is_start(job, u) {
        return 0;
    }
    if wire_starts(job, loads, u) != 0 {
        return 0;
    }
    1
}

// How many chosen pins have no wire.
fn unwired(job: &[u8], loads: &[u8]) -> usize
    requires { Whole job.now loads.now }
    ensures { result ≡ unwired_count (job_of job.now) loads.now }
{
    let mut n: usize = 0;
    for u in 0..13128 {
        n += lacks(job, loads, u);
    }
    n
}

// How many chosen pins of a record have no wire.
pub fn lacking(rec: &[u8]) -> usize
    requires { Legal rec.now }
    ensures { result ≡ chosen_count (job_of rec.now) - wires_in rec.now }
{
    unwired(rec, rec)
}

// The near side's byte of the spot i: 1 where it is marked, else 0.
fn near_byte(marks: &[u8], i: usize) -> u8
    requires { spots ≤ length marks.now }
    ensures { result ≡ when (marked marks.now i) 1 }
{
    if i >= 13128 {
        return 0;
    }
    if marks[i] != 1 {
        return 0;
    }
    1
}

// The marked spots as a near side.
fn show(marks: &[u8], near: &mut [u8])
    requires { (spots ≤ length marks.now) × (record_size ≤ length near.old) }
    ensures { near.new ≡ over (near_bytes (marked marks.now)) near.old }
{
    for (i, byte) in near[..32768].iter_mut().enumerate() {
        *byte = near_byte(marks, i);
    }
}

// All wires that fit, in a copy of the record, in which loops may stand; how many chosen pins stay unwired, and the near side if any does.
pub fn fill_copy(rec: &[u8], loads: &mut [u8], near: &mut [u8]) -> usize
    requires { Legal rec.now × (length loads.old ≡ record_size) × (record_size ≤ length near.old) }
    ensures { FilledCopy rec.now loads.new near.old near.new result }
{
    copy(rec, loads);
    let mut marks = [0u8; 13128];
    let mut queue = [0u16; 13128];
    let mut parent = [0u16; 13128];
    let mut slot = [0u8; 13128];
    let mut lists = [0u16; 28154];
    fill(
        rec,
        loads,
        &mut marks,
        &mut queue,
        &mut parent,
        &mut slot,
        &mut lists,
    );
    let k = unwired(rec, loads);
    if k == 0 {
        return 0;
    }
    show(&marks, near);
    k
}

// How many chosen pins stay unwired when all wires that fit are laid, and the near side if any does. The record is left as it is.
pub fn shortfall(rec: &[u8], near: &mut [u8]) -> usize
    requires { Legal rec.now × (record_size ≤ length near.old) }
    ensures { Lacks rec.now near.old near.new result }
{
    let mut loads = [0u8; 32768];
    let k = fill_copy(rec, &mut loads, near);
    unloop(&mut loads);
    k
}
