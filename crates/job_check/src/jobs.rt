// Random jobs: each is read from the oracle's text, stepped to the end, and held to the oracle's greatest number, near side, least length and listing.
use crate::legs::lay_north;
use crate::parts::list_by_parts;
use check::same;
use compare::lent::write_on;
use compare::listed::{Page, listed, only_wired, routed, shown};
use compare::said::{ADDED, ALL_WIRED, Answer, DONE, LACKS, REFUSED, SHORT, WROTE, is, lacks};
use compare::shortened::{Found, hold_shortened, is_least};
use judge::listing::check_listing;
use oracle::near::shortfall;
use oracle_length::least::least_length;
use oracle_length::lines::total_lines;
use oracle_text::job::{Job, Mark};
use oracle_text::page::Page as Sheet;
use oracle_text::random::{Generator, random_job, random_laid, random_own};
use oracle_text::text::write_text;
use verdict::bytes::{Tally, all, begins, line, split_at};
use verdict::record::{
    BEYOND, Record, count_direct, count_wires, hold_added, holds_job, holds_unwired, legal,
};

// What the oracle says of a job: how many chosen pins no wire is left for, and where none, the least length.
#[derive(Clone, Copy)]
struct Asked {
    missed: usize,
    least: Option<usize>,
}

// One step, of which the answer has to be this.
fn step(rt: &impl Print, tally: &mut Tally, rec: &mut Record, expected: usize) {
    let mut scratch = [9u8; 65540];
    tally.hold(
        rt,
        is(Answer::from(service::step(rec, &mut scratch)), expected, 0),
        b"step answers",
    );
    tally.hold(
        rt,
        split_at(&scratch, 65536, 0, 9),
        b"step clears the scratch",
    );
}

// A step that adds a wire.
fn step_more(rt: &impl Print, tally: &mut Tally, rec: &mut Record, job: &Job) {
    let before = *rec;
    step(rt, tally, rec, ADDED);
    hold_added(rt, tally, &before, rec, job);
}

fn is_same(a: &Record, b: &Record) -> bool {
    same(a, b)
}

// The step after which no other changes anything: "all wired", which leaves the least length, or "short".
fn step_last(
    rt: &impl Print,
    tally: &mut Tally,
    found: &mut Found,
    rec: &mut Record,
    job: &Job,
    asked: Asked,
    page: &mut Page,
) {
    let before = *rec;
    if asked.missed == 0 {
        step(rt, tally, rec, ALL_WIRED);
        hold_shortened(rt, tally, found, &before, rec, job, asked.least, page);
    } else {
        step(rt, tally, rec, SHORT);
        tally.hold(rt, is_same(&before, rec), b"a short step changes nothing");
    }
}

// Shortfall says what the oracle says.
fn ask_shortfall(
    rt: &impl Print,
    tally: &mut Tally,
    rec: &Record,
    missed: usize,
    near: &[u8; 32768],
) {
    let mut scratch = [9u8; 65540];
    let mut output = [5u8; 32772];
    tally.hold(
        rt,
        is(
            lacks(service::shortfall(rec, &mut scratch, &mut output)),
            LACKS,
            missed,
        ),
        b"shortfall answers",
    );
    tally.hold(
        rt,
        split_at(&scratch, 65536, 0, 9),
        b"shortfall clears the scratch",
    );
    if missed == 0 {
        tally.hold(rt, all(&output, 5), b"shortfall leaves the output");
    } else {
        tally.hold(
            rt,
            begins(&output, near, 5),
            b"shortfall gives the near side",
        );
    }
}

// The wires of the record are legal, in the job whose other pins are idle; the listing is that which Part gives piece by piece.
fn ask_listing(
    rt: &impl Print,
    tally: &mut Tally,
    rec: &Record,
    job: &Job,
    page: &mut Page,
) -> usize {
    let n = listed(rec, page);
    let checked = check_listing(&only_wired(rec, job), shown(page, n));
    tally.hold(rt, checked.is_ok(), b"the listing is legal");
    n
}

fn steps(rt: &impl Print, tally: &mut Tally, rec: &mut Record, job: &Job, n: usize) {
    for k in 0..n {
        step_more(rt, tally, rec, job);
    }
}

// The near side is that of the oracle; where nothing is missed, it is untouched.
fn near_is(mine: &[u8; 32768], missed: usize, near: &[u8; 32768]) -> bool {
    if missed == 0 {
        all(mine, 5)
    } else {
        same(mine, near)
    }
}

// The search lays all wires that fit at once, and says what the oracle says.
fn ask_route(
    rt: &impl Print,
    tally: &mut Tally,
    rec: &mut Record,
    missed: usize,
    near: &[u8; 32768],
) {
    let mut mine = [5u8; 32768];
    tally.hold(rt, routed(rec, &mut mine) == missed, b"the route lacks");
    tally.hold(rt, near_is(&mine, missed, near), b"the route's near side");
}

// The wires laid at once have the least length, where every chosen pin has one.
fn ask_least(
    rt: &impl Print,
    tally: &mut Tally,
    rec: &Record,
    job: &Job,
    asked: Asked,
    page: &mut Page,
) {
    if asked.missed == 0 {
        tally.hold(
            rt,
            is_least(rec, job, asked.least, page),
            b"the route has the least length",
        );
    }
}

// A copy of the record with all wires laid at once.
fn ask_copy(
    rt: &impl Print,
    tally: &mut Tally,
    rec: &Record,
    job: &Job,
    asked: Asked,
    near: &[u8; 32768],
    page: &mut Page,
) {
    let missed = asked.missed;
    let mut copy = *rec;
    ask_route(rt, tally, &mut copy, missed, near);
    ask_least(rt, tally, &copy, job, asked, page);
    tally.hold(rt, holds_job(&copy, job), b"the route keeps the job");
    tally.hold(rt, legal(&copy), b"the route is legal");
    let n = std::num::wrapping_add_usize(count_wires(&copy), missed);
    tally.hold(
        rt,
        n == job.count_marked(Mark::Chosen),
        b"the route has its wires",
    );
}

// The same from wires of rim pins that leave by a leg.
fn ask_legs(
    rt: &impl Print,
    tally: &mut Tally,
    rec: &Record,
    job: &Job,
    asked: Asked,
    near: &[u8; 32768],
    page: &mut Page,
) {
    let mut laid = *rec;
    lay_north(&mut laid, job);
    tally.hold(rt, legal(&laid), b"the wires of legs are legal");
    ask_copy(rt, tally, &laid, job, asked, near, page);
}

// The most steps taken in one job; what is left is then laid at once.
const MOST: usize = 64;

fn least(a: usize, b: usize) -> usize {
    if a < b { a } else { b }
}

// Steps to the end, with Shortfall asked at the start, half way and at the end.
fn step_on(
    rt: &impl Print,
    tally: &mut Tally,
    found: &mut Found,
    rec: &mut Record,
    job: &Job,
    asked: Asked,
    near: &[u8; 32768],
    page: &mut Page,
) {
    let missed = asked.missed;
    let greatest = std::num::wrapping_sub_usize(job.count_marked(Mark::Chosen), missed);
    let n = least(greatest, MOST);
    ask_shortfall(rt, tally, rec, missed, near);
    steps(rt, tally, rec, job, n / 2);
    ask_shortfall(rt, tally, rec, missed, near);
    ask_listing(rt, tally, rec, job, page);
    steps(rt, tally, rec, job, n - n / 2);
    if n < greatest {
        ask_route(rt, tally, rec, missed, near);
    }
    ask_shortfall(rt, tally, rec, missed, near);
    step_last(rt, tally, found, rec, job, asked, page);
    tally.hold(rt, count_wires(rec) == greatest, b"the greatest number");
}

// Write text gives the text, and no byte more.
fn ask_text(rt: &impl Print, tally: &mut Tally, rec: &Record, text: &[u8]) {
    let n = text.len();
    let mut out = [3u8; 66000];
    let few = write_on(rec, &mut out, std::num::wrapping_sub_usize(n, 1));
    tally.hold(
        rt,
        is(few, REFUSED, 7),
        b"write text refuses a short output",
    );
    tally.hold(rt, all(&out, 3), b"write text leaves a short output");
    tally.hold(
        rt,
        is(write_on(rec, &mut out, n), WROTE, n),
        b"write text answers",
    );
    tally.hold(rt, begins(&out, text, 3), b"write text gives the text");
    let mut more = [3u8; 66000];
    tally.hold(
        rt,
        is(write_on(rec, &mut more, 66000), WROTE, n),
        b"write text answers with room",
    );
    tally.hold(rt, same(&more, &out), b"write text leaves the rest");
}

// The listing again, from what Part answers, with the length that its parts have by the oracle.
fn ask_parts(rt: &impl Print, tally: &mut Tally, rec: &Record, job: &Job, list: &[u8]) {
    let mut sheet = Sheet::EMPTY;
    let wires = count_wires(rec);
    list_by_parts(rec, job, wires, &mut sheet);
    let right = match check_listing(&only_wired(rec, job), list) {
        Ok(length) => {
            total_lines(&mut sheet, wires, length);
            same(sheet.text(), list)
        }
        Err(_) => false,
    };
    tally.hold(rt, right, b"the parts are the listing");
}

// Counts the wires of the record: those that leave directly, and all others.
fn count_exits(exits: &mut [u64; 2], rec: &Record) {
    let n = count_direct(rec);
    let m = std::num::wrapping_sub_usize(count_wires(rec), n);
    exits[0] = std::num::wrapping_add_u64(exits[0], n as u64);
    exits[1] = std::num::wrapping_add_u64(exits[1], m as u64);
}

// The least length of a job that lacks this many wires; none where it lacks some.
fn least_of(job: &Job, missed: usize) -> Option<usize> {
    if missed == 0 { least_length(job) } else { None }
}

// All that is asked of one job; of the parts only where they are few.
fn judge(
    rt: &impl Print,
    tally: &mut Tally,
    exits: &mut [u64; 2],
    found: &mut Found,
    job: &Job,
    page: &mut Page,
    parts: bool,
) {
    let mut sheet = Sheet::EMPTY;
    let mut near = [0u8; 32768];
    let mut rec = [BEYOND; 32800];
    write_text(job, &mut sheet);
    let missed = shortfall(job, &mut near);
    let least = least_of(job, missed);
    let asked = Asked { missed, least };
    tally.hold(
        rt,
        is(
            Answer::from(service::read_text(&mut rec, sheet.text())),
            DONE,
            0,
        ),
        b"read text answers",
    );
    tally.hold(rt, holds_unwired(&rec, job), b"read text gives the job");
    ask_copy(rt, tally, &rec, job, asked, &near, page);
    ask_legs(rt, tally, &rec, job, asked, &near, page);
    step_on(rt, tally, found, &mut rec, job, asked, &near, page);
    count_exits(exits, &rec);
    let m = ask_listing(rt, tally, &rec, job, page);
    ask_text(rt, tally, &rec, sheet.text());
    if parts {
        ask_parts(rt, tally, &rec, job, shown(page, m));
    }
}

// How many rows and columns the k-th job has at most.
fn size(k: usize) -> usize {
    if k % 256 == 255 {
        40
    } else if k % 16 == 15 {
        14
    } else {
        8
    }
}

// Wires are already laid in every other job, on a quarter of its sides.
fn lay_some(generator: &mut Generator, k: usize, job: &mut Job) {
    if k % 2 != 0 {
        random_laid(generator, 250, job);
    }
}

// Tiles have their own D in every third job, a third of them at most.
fn own_some(generator: &mut Generator, k: usize, job: &mut Job) {
    if k % 3 == 0 {
        random_own(generator, 333, job);
    }
}

// The k-th job.
fn draw(
    rt: &impl Print,
    tally: &mut Tally,
    exits: &mut [u64; 2],
    found: &mut Found,
    page: &mut Page,
    generator: &mut Generator,
    k: usize,
) {
    let mut job = Job::BLANK;
    let wrong = tally.wrong();
    let seed = generator.last;
    random_job(generator, size(k), &mut job);
    lay_some(generator, k, &mut job);
    own_some(generator, k, &mut job);
    judge(rt, tally, exits, found, &job, page, k % 32 == 0);
    if tally.wrong() != wrong {
        line(rt, b"in the random job", seed as u64);
    }
}

// Random jobs, each drawn with the number that the one before left. `exits` counts the wires at the end: those that leave directly, and the others; `found` what an
// "all wired" finds.
pub fn jobs(rt: &impl Print, tally: &mut Tally, exits: &mut [u64; 2], found: &mut Found) {
    let mut page = [0u8; 1048576];
    let mut generator = Generator::new(2463534242);
    for k in 0..3000 {
        draw(rt, tally, exits, found, &mut page, &mut generator, k);
    }
}
