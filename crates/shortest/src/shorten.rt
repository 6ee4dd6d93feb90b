// A record in which every chosen pin is wired, with its wires shortened to the least length; and all wires that fit, shortened where none is lacking.
ghost use Rattle.std.specs.Prelude.{◌≡◌, ◌≤◌, length};
ghost use Rattle.model.specs.Record.{record_size, job_of, load, Legal};
ghost use Rattle.model.specs.Route.{chosen_count};
ghost use Rattle.model.specs.Length.{held_length};
ghost use Rattle.model.specs.Calls.{wires_in, Shortened};
ghost use Rattle.shortest.specs.Wiring.{RoutedLeast};

use crate::first::first_total;
use crate::wiring::least_wiring;
use channel::copy::copy;
use search::route::fill_copy;
use search::untangle::unloop;
use wire::length::total_length;

// The least wiring, if it is shorter than the wires of the record, which have the length t.
fn replace(rec: &mut [u8], t: usize)
    requires { Legal rec.old × (wires_in rec.old ≡ chosen_count (job_of rec.old)) × (t ≡ held_length (job_of rec.old) (load rec.old)) }
    ensures { Shortened rec.old rec.new }
{
    let mut loads = [0u8; 32768];
    least_wiring(rec, &mut loads);
    if total_length(&loads) < t {
        copy(&loads, rec);
    }
}

// The wires of the record get the least length; no byte is changed where they have it. Where they are as short as the first prices say they have it.
pub fn shorten(rec: &mut [u8])
    requires { Legal rec.old × (wires_in rec.old ≡ chosen_count (job_of rec.old)) }
    ensures { Shortened rec.old rec.new }
{
    let t = total_length(rec);
    if t <= first_total(rec) {
        return;
    }
    replace(rec, t);
}

// All wires that fit, of the least length where no chosen pin lacks one: then the wires that fill the copy say only that the least wiring is there.
pub fn route_all(rec: &mut [u8], near: &mut [u8]) -> usize
    requires { Legal rec.old × (record_size ≤ length near.old) }
    ensures { RoutedLeast rec.old rec.new near.old near.new result }
{
    let mut loads = [0u8; 32768];
    let k = fill_copy(rec, &mut loads, near);
    if k == 0 {
        least_wiring(rec, &mut loads);
        copy(&loads, rec);
        return k;
    }
    unloop(&mut loads);
    copy(&loads, rec);
    k
}
