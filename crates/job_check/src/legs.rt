// Wires of rim pins that leave by a leg, as the search lays none: chosen pins of the first row go to the tile south-east of them and out of its north side.
use oracle_text::job::{Job, Mark, Side};
use verdict::record::Record;

// The wire of the pin (0, c), where it is chosen, its tile open and the side free: the leg east, at 21,568 + c, and the north side of the tile, at 3,968 + c.
fn lay(rec: &mut Record, job: &Job, c: usize) {
    if c < 39 {
        if job.mark(c) == Mark::Chosen && job.is_open(0, c) && job.room(0, c, Side::North) > 0 {
            rec[21568 + c] = 1;
            rec[3968 + c] = 1;
        }
    }
}

// Lays these wires into a record that has none.
pub fn lay_north(rec: &mut Record, job: &Job) {
    for c in 0..39 {
        lay(rec, job, c);
    }
}
