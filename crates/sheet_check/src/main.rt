// Holds the operation that judges a sheet of side loads to the vectors of data/ and to sheets of wired records, and its table to that of data/; and all of it to a second implementation that shares no
// code with them. It writes what came out wrong, and how many checks of each part are right and wrong.
#![tactic(auto)]

mod calls; // sheets of wired records, as they are and with bytes changed
mod judge; // the second implementation's verdict
mod limits; // the sheets that it turns away
mod table; // the table of data/
mod tile; // what one tile carries, by trying every load of its corners
mod vectors; // the vectors of data/

use verdict::bytes::Tally;

fn main(rt: HostRuntime) {
    let mut table = Tally::NONE;
    table::table(&rt, &mut table);
    table.tell(&rt, b"table");
    let mut vectors = Tally::NONE;
    vectors::vectors(&rt, &mut vectors);
    vectors.tell(&rt, b"vectors");
    let mut calls = Tally::NONE;
    calls::calls(&rt, &mut calls);
    calls.tell(&rt, b"sheets of wired records");
}
