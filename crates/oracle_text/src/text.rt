// Job text: the reader, which matches a line against the template of each form that may stand there, and the writer.
ghost use Rattle.std.specs.Prelude.{IfSome, ◌<◌};

use crate::job::{Array, Job, Mark, Side};
use crate::page::Page;
use crate::scan::{Found, scan};

// The groups of lines behind the array line, in their order.
#[derive(Clone, Copy, PartialEq, Eq, PartialOrd, Ord)]
enum Group {
    Chosen,
    Missing,
    Closed,
    Own,
    Laid,
}

// Where a line stands: its group, its pin or tile, 40 r + c, and of laid wires the side. The places of lines that follow one another rise.
#[derive(Clone, Copy, PartialEq, Eq, PartialOrd, Ord)]
struct Place {
    group: Group,
    cell: usize,
    side: Option<Side>,
}

impl Place {
    fn new(group: Group, cell: usize) -> Place {
        Place {
            group,
            cell,
            side: None,
        }
    }
}

// The offset of the first line that may not stand where it stands.
#[derive(Clone, Copy, PartialEq, Eq, Debug)]
pub struct Refused {
    pub at: usize,
}

// How far a reading is: the offset of the next line, and the place of the last.
#[derive(Clone, Copy)]
struct Reader<'a> {
    text: &'a [u8],
    at: usize,
    last: Option<Place>,
}

fn in_range(x: usize, least: usize, most: usize) -> bool {
    x >= least && x <= most
}

// What an array line says, if it may say so.
fn array_of(found: &Found) -> Option<Array> {
    let array = Array {
        rows: found.value(0),
        columns: found.value(1),
        side: found.value(2),
        diagonal: found.value(3),
        extra: found.value(4),
    };
    let sized = in_range(array.rows, 2, 40) && in_range(array.columns, 2, 40);
    let capped = in_range(array.side, 1, 8) && in_range(array.diagonal, array.side, 2 * array.side);
    if sized && capped && array.extra <= array.diagonal {
        Some(array)
    } else {
        None
    }
}

// The tile writes the side: s and e always, n and w where no other tile lies behind it.
pub fn is_written(job: &Job, r: usize, c: usize, side: Side) -> bool {
    job.is_tile(r, c)
        && match side {
            Side::North => r == 0,
            Side::East | Side::South => true,
            Side::West => c == 0,
        }
}

// The number of the cell that a line names first, if it is one.
fn cell_of(found: &Found) -> Option<usize>
    ensures { IfSome result (λ p. p < 1600) }
{
    let r = found.value(0);
    let c = found.value(1);
    if r < 40 && c < 40 {
        Some(40 * r + c)
    } else {
        None
    }
}

// The idle pin that a line names.
fn idle_pin(job: &Job, found: &Found) -> Option<usize>
    ensures { IfSome result (λ p. p < 1600) }
{
    let p = cell_of(found)?;
    if job.is_pin(p / 40, p % 40) && job.mark(p) == Mark::Idle {
        Some(p)
    } else {
        None
    }
}

// The tile that a line names.
fn tile(job: &Job, found: &Found) -> Option<usize>
    ensures { IfSome result (λ p. p < 1600) }
{
    let p = cell_of(found)?;
    if job.is_tile(p / 40, p % 40) {
        Some(p)
    } else {
        None
    }
}

impl Reader<'_> {
    // The next line, if it has this form.
    fn scan(&self, template: &[u8]) -> Option<Found> {
        scan(self.text, self.at, template)
    }

    // Goes on behind the line that was found, which stands at this place, if that comes after the last one's.
    fn pass(&mut self, found: &Found, place: Place) -> Option<()> {
        if self.last.is_some_and(|last| place <= last) {
            return None;
        }
        self.at = found.at;
        self.last = Some(place);
        Some(())
    }

    // The array line.
    fn array_line(&mut self, job: &mut Job) -> Option<()> {
        let found = self.scan(b"(array (pins # #) (caps # # #))\n")?;
        *job = Job::new(array_of(&found)?);
        self.at = found.at;
        Some(())
    }

    fn mark_line(&mut self, job: &mut Job, found: &Found, mark: Mark) -> Option<()> {
        let p = idle_pin(job, found)?;
        let group = if mark == Mark::Chosen {
            Group::Chosen
        } else {
            Group::Missing
        };
        self.pass(found, Place::new(group, p))?;
        job.set_mark(p, mark);
        Some(())
    }

    fn closed_line(&mut self, job: &mut Job, found: &Found) -> Option<()> {
        let p = tile(job, found)?;
        self.pass(found, Place::new(Group::Closed, p))?;
        job.set_closed(p, true);
        Some(())
    }

    // The line of a tile's own D.
    fn own_line(&mut self, job: &mut Job, found: &Found) -> Option<()> {
        let p = tile(job, found)?;
        let own = found.value(2);
        if !job.may_own(own) {
            return None;
        }
        self.pass(found, Place::new(Group::Own, p))?;
        job.set_own(p, Some(own));
        Some(())
    }

    // A line of laid wires.
    fn laid_line(&mut self, job: &mut Job, found: &Found) -> Option<()> {
        let p = tile(job, found)?;
        let (r, c) = (p / 40, p % 40);
        let n = found.value(3);
        let side = side_of(found.value(2))?;
        if !is_written(job, r, c, side) || !in_range(n, 1, job.side()) {
            return None;
        }
        let place = Place {
            group: Group::Laid,
            cell: p,
            side: Some(side),
        };
        self.pass(found, place)?;
        job.set_laid(r, c, side, n);
        Some(())
    }

    // Any line of a group.
    fn group_line(&mut self, job: &mut Job) -> Option<()> {
        if let Some(found) = self.scan(b"(chosen # #)\n") {
            return self.mark_line(job, &found, Mark::Chosen);
        }
        if let Some(found) = self.scan(b"(missing # #)\n") {
            return self.mark_line(job, &found, Mark::Missing);
        }
        if let Some(found) = self.scan(b"(closed # #)\n") {
            return self.closed_line(job, &found);
        }
        if let Some(found) = self.scan(b"(d # # #)\n") {
            return self.own_line(job, &found);
        }
        let found = self.scan(b"(laid # # @ #)\n")?;
        self.laid_line(job, &found)
    }

    // Reads on to the last line, with which the text has to end.
    fn lines(&mut self, job: &mut Job) -> Option<()> {
        self.array_line(job)?;
        // The places of the lines rise, so that no text has more.
        for _ in 0..10000 {
            if let Some(end) = self.scan(b"(end)\n") {
                self.at = end.at;
                break;
            }
            self.group_line(job)?;
        }
        if self.at == self.text.len() {
            Some(())
        } else {
            None
        }
    }
}

// The side with the letter of this value.
fn side_of(letter: usize) -> Option<Side> {
    Side::from_letter(u8::try_from(letter).ok()?)
}

// Reads a job text, and `job` is what it says; on a refusal `job` has no meaning.
pub fn read_text(text: &[u8], job: &mut Job) -> Result<(), Refused> {
    let mut reader = Reader {
        text,
        at: 0,
        last: None,
    };
    match reader.lines(job) {
        Some(()) => Ok(()),
        None => Err(Refused { at: reader.at }),
    }
}

// A line of a pin or a tile that says nothing but its word and which.
fn cell_line(out: &mut Page, word: &[u8], p: usize) {
    out.word(word);
    out.pair(p / 40, p % 40);
    out.word(b")\n");
}

fn marks_text(job: &Job, out: &mut Page, mark: Mark, word: &[u8]) {
    for p in 0..1600 {
        if job.mark(p) == mark {
            cell_line(out, word, p);
        }
    }
}

fn closed_text(job: &Job, out: &mut Page) {
    for p in 0..1600 {
        if job.is_closed(p) {
            cell_line(out, b"(closed ", p);
        }
    }
}

fn owns_text(job: &Job, out: &mut Page) {
    for p in 0..1600 {
        if let Some(own) = job.own(p) {
            out.word(b"(d ");
            out.pair(p / 40, p % 40);
            out.push(b' ');
            out.decimal(own);
            out.word(b")\n");
        }
    }
}

// The line of a side of the tile, if the tile writes it and wires are laid there.
fn laid_text(job: &Job, out: &mut Page, r: usize, c: usize, side: Side) {
    let n = job.laid(r, c, side);
    if n > 0 && is_written(job, r, c, side) {
        out.word(b"(laid ");
        out.pair(r, c);
        out.push(b' ');
        out.push(side.letter());
        out.push(b' ');
        out.decimal(n);
        out.word(b")\n");
    }
}

fn counts_text(job: &Job, out: &mut Page) {
    for p in 0..1600 {
        for side in Side::ALL {
            laid_text(job, out, p / 40, p % 40, side);
        }
    }
}

// Writes the job's text.
pub fn write_text(job: &Job, out: &mut Page) {
    out.word(b"(array (pins ");
    out.pair(job.rows(), job.columns());
    out.word(b") (caps ");
    out.pair(job.side(), job.diagonal());
    out.push(b' ');
    out.decimal(job.extra());
    out.word(b"))\n");
    marks_text(job, out, Mark::Chosen, b"(chosen ");
    marks_text(job, out, Mark::Missing, b"(missing ");
    closed_text(job, out);
    owns_text(job, out);
    counts_text(job, out);
    out.word(b"(end)\n");
}
