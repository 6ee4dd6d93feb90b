// The listing that Part gives piece by piece.
use compare::said::{Answer, is_part, put_listed};
use oracle_text::job::{Job, Mark};
use oracle_text::page::Page as Sheet;

// The parts of the wire of the pin (r, c), by Part, from index 0 to the last.
fn put_parts(rec: &[u8], out: &mut Sheet, r: usize, c: usize) {
    for i in 0..20000 {
        let answer = Answer::from(service::part(rec, r, c, i));
        if !is_part(answer) {
            return;
        }
        put_listed(out, answer);
    }
}

// The line of the wire of the pin p, 40 r + c, by Part; nothing where it has none.
pub fn put_wire(rec: &[u8], out: &mut Sheet, p: usize) {
    if is_part(Answer::from(service::part(rec, p / 40, p % 40, 0))) {
        out.word(b"(wire (pin ");
        out.pair(p / 40, p % 40);
        out.push(b')');
        put_parts(rec, out, p / 40, p % 40);
        out.word(b")\n");
    }
}

// The listing of a record with this many wires, by Part alone.
pub fn list_by_parts(rec: &[u8], job: &Job, wires: usize, out: &mut Sheet) {
    out.word(b"(wires ");
    out.decimal(wires);
    out.word(b")\n");
    for p in 0..1600 {
        if job.mark(p) == Mark::Chosen {
            put_wire(rec, out, p);
        }
    }
}
