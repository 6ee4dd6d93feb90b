// The pin of a wire, from any of its hops: going back hop by hop. Callers have audited the record.
ghost use Rattle.model.specs.Record.{Legal};
ghost use Rattle.wire.specs.Hops.{Runs};
ghost use Rattle.takeout.specs.Back.{Precedes, Home};

use channel::chosen_at;
use channel::places::step_back;
use pairing::{Lane, partner_back};
use wire::Hop;
use wire::lanes::lanes_round;

// The hop before a hop: at the place that the dart leaves, the lane whose partner the wire leaves by. `None` where a chosen pin is left.
fn hop_before(rec: &[u8], hop: Hop) -> Option<Hop>
    requires { Legal rec.now × Runs rec.now hop.dart hop.lane }
    ensures { Precedes rec.now result hop.dart hop.lane }
{
    let u = hop.dart / 8;
    if (u % 8 == 1) & chosen_at(rec, u / 8) {
        return None;
    }
    let around = lanes_round(rec, u);
    let departure = Lane {
        slot: hop.dart % 8,
        lane: hop.lane,
    };
    let arrival = partner_back(&around, departure);
    Some(Hop {
        dart: step_back(u * 8 + arrival.slot),
        lane: arrival.lane,
    })
}

// The cell of the pin whose wire has a hop.
pub fn pin_of(rec: &[u8], hop: Hop) -> usize
    requires { Legal rec.now × Runs rec.now hop.dart hop.lane }
    ensures { Home rec.now hop.dart hop.lane result }
{
    let mut first = hop;
    let mut n: usize = 0;
    while let Some(before) = hop_before(rec, first) {
        first = before;
        n += 1;
    }
    first.dart / 64 - 41
}
