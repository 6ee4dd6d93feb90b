// The lines that `escape` prints of a refused text and of a short job.
use crate::near::Near;
use oracle_text::job::{Job, Mark};
use oracle_text::page::Page;

// The places of a tile, each with the number of its byte.
const PLACES: [(usize, &[u8]); 6] = [
    (2, b"n"),
    (3, b"e"),
    (4, b"s"),
    (5, b"w"),
    (6, b"ci"),
    (7, b"co"),
];

// The byte `kind` of the cell p, 40 r + c, says near.
fn is_near(near: &Near, p: usize, kind: usize) -> bool {
    p < 1600 && kind < 8 && near[8 * (41 + p) + kind] == 1
}

// The line of the cell p that begins with `word`, if its byte `kind` is near.
fn pin_line(near: &Near, out: &mut Page, p: usize, kind: usize, word: &[u8]) {
    if is_near(near, p, kind) {
        out.word(word);
        out.pair(p / 40, p % 40);
        out.word(b")\n");
    }
}

// The line of the place `word` of the tile p, if its byte `kind` is near.
fn place_line(near: &Near, out: &mut Page, p: usize, kind: usize, word: &[u8]) {
    if is_near(near, p, kind) {
        out.word(b"(near ");
        out.pair(p / 40, p % 40);
        out.push(b' ');
        out.word(word);
        out.word(b")\n");
    }
}

fn chosen_lines(near: &Near, job: &Job, out: &mut Page) {
    for p in 0..1600 {
        if job.mark(p) == Mark::Chosen {
            pin_line(near, out, p, 1, b"(near pin ");
        }
    }
}

fn missing_lines(near: &Near, job: &Job, out: &mut Page) {
    for p in 0..1600 {
        if job.mark(p) == Mark::Missing {
            pin_line(near, out, p, 0, b"(near ri ");
            pin_line(near, out, p, 1, b"(near ro ");
        }
    }
}

fn tile_lines(near: &Near, out: &mut Page) {
    for p in 0..1600 {
        for (kind, word) in PLACES {
            place_line(near, out, p, kind, word);
        }
    }
}

// The listing of a job that is short by `short`, with this near side.
pub fn short_listing(job: &Job, short: usize, near: &Near, out: &mut Page) {
    out.word(b"(short ");
    out.decimal(short);
    out.word(b")\n");
    chosen_lines(near, job, out);
    missing_lines(near, job, out);
    tile_lines(near, out);
}

// The listing of a text that is refused at the offset.
pub fn refused_listing(offset: usize, out: &mut Page) {
    out.word(b"(refused 6 ");
    out.decimal(offset);
    out.word(b")\n");
}
