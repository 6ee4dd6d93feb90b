// Taking loops out: one move back along each dart of a closed path of loaded darts, until there is none. The paths are looked for behind the links that are
// fresh, beside old loads that have none of the loops.
ghost use Rattle.std.specs.Prelude.{◌≡◌, map, ◌-◌, ◌≤◌};
ghost use Rattle.channel.specs.Map.{rev};
ghost use Rattle.augment.specs.Laid.{laid_all};
ghost use Rattle.audit.specs.Loops.{ring_darts};
ghost use Rattle.model.specs.Job.{Job};
ghost use Rattle.augment.specs.Pins.{Held};
ghost use Rattle.search.specs.Loose.{Ringed, Tangled, Freed, Unlooped};

use audit::loops::{Ring, clear, find};
use channel::{columns, lay, reverse, rows};
use outward::lead_outward;

// The darts of a ring.
fn take_out(loads: &mut [u8], st: &[u16], sl: &[u8], ring: Ring)
    requires { Ringed loads.old st.now sl.now ring.to × (ring.from ≤ ring.to) }
    ensures { loads.new ≡ laid_all loads.old (map rev (ring_darts st.now sl.now ring.from (ring.to - ring.from))) }
{
    for i in ring.from..ring.to {
        let u = st[i] as usize;
        let k = sl[i] as usize;
        lay(loads, reverse(8 * u + k));
    }
}

// No loop stands any more, if none that could be left is one of the old loads. It works on what is lent to it. Spots that are done stay so as loads are taken out.
pub fn untangle(old: &[u8], loads: &mut [u8], fin: &mut [u16], st: &mut [u16], sl: &mut [u8])
    requires { Tangled old.now loads.old fin.old st.old sl.old }
    ensures { Freed old.now loads.old loads.new }
{
    clear(fin);
    let mut done = 0;
    while let Some(ring) = find(loads, old, fin, st, sl, done) {
        take_out(loads, st, sl, ring);
        done = ring.done;
    }
}

// No loop stands any more. Beside loads that lead outward only the links are fresh along which wires go inward or round.
pub fn unloop(loads: &mut [u8])
    requires { (J : Job) × Held J loads.old }
    ensures { Unlooped loads.old loads.new }
{
    let mut old = [0u8; 32768];
    lead_outward(&mut old, rows(loads), columns(loads));
    let mut fin = [0u16; 13128];
    let mut st = [0u16; 13128];
    let mut sl = [0u8; 13128];
    untangle(&old, loads, &mut fin, &mut st, &mut sl);
}
