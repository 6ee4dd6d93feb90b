// The router's listings, made as `escape` makes them, and its search.
ghost use Rattle.std.specs.Prelude.{◌<◌, ◌≤◌};

use audit::sound;
use listing::{Page as Leaf, near_page, refused_page, short_page};
use oracle_text::job::{Job, Mark};
use service::list_wires;
use shortest::shorten::route_all;
use text::read_into;
use verdict::bytes::first;
use verdict::legal::is_wired;
use verdict::record::Record;

pub type Near = [u8; 32768];

// A whole listing.
pub type Page = [u8; 1048576];

// What `routed` and `listed` answer of a damaged record.
pub const DAMAGED: usize = 100000;

// The first `n` bytes of the page.
pub fn shown(page: &Page, n: usize) -> &[u8] {
    let all: &[u8] = page;
    first(all, n)
}

// Puts the bytes at `at`, as far as the page goes; gives the place after them.
fn append(out: &mut Page, at: usize, s: &[u8]) -> usize {
    let mut n = at;
    for k in 0..s.len() {
        if n < 1048576 {
            out[n] = s[k];
            n += 1;
        }
    }
    n
}

// The wires of a record; gives the length.
pub fn listed(rec: &[u8], page: &mut Page) -> usize {
    let Ok(n) = list_wires(rec, page) else {
        return DAMAGED;
    };
    n
}

fn idle(job: &mut Job, rec: &Record, p: usize) {
    if !is_wired(rec, p) && job.mark(p) == Mark::Chosen {
        job.set_mark(p, Mark::Idle);
    }
}

// The job with every chosen pin idle that has no wire: the one that the record's listing wires.
pub fn only_wired(rec: &Record, job: &Job) -> Job {
    let mut other = *job;
    for p in 0..1600 {
        idle(&mut other, rec, p);
    }
    other
}

// All wires laid that fit; gives how many chosen pins stay unwired, with the near side where some do.
pub fn routed(rec: &mut [u8], near: &mut Near) -> usize {
    if !sound(rec) {
        return DAMAGED;
    }
    route_all(rec, near)
}

// The near side of a job that lacks `short` wires, page by page.
fn list_near(rec: &Near, near: &Near, short: usize, page: &mut Page) -> usize {
    let mut work = Leaf::new();
    short_page(short, &mut work);
    let mut n = append(page, 0, work.filled());
    let mut next = Some(0);
    while let Some(entry) = next {
        next = near_page(rec, near, entry, &mut work);
        n = append(page, n, work.filled());
    }
    n
}

// A refusal at this offset.
fn list_refused(offset: usize, page: &mut Page) -> usize {
    let mut work = Leaf::new();
    refused_page(offset, &mut work);
    append(page, 0, work.filled())
}

// The listing of a text; gives its length.
pub fn list_text(text: &[u8], page: &mut Page) -> usize {
    let mut rec = [0u8; 32768];
    let mut near = [0u8; 32768];
    match read_into(text, &mut rec) {
        Err(wrong) => list_refused(wrong.offset, page),
        Ok(()) => {
            let short = routed(&mut rec, &mut near);
            if short == 0 {
                listed(&rec, page)
            } else {
                list_near(&rec, &near, short, page)
            }
        }
    }
}
