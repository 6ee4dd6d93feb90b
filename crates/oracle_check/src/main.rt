// Runs the oracle on the vectors of data/: NAME.job with NAME.expect, what `escape` is to print for it (of a wired job the first
// line and from K8 on the last two; else the first alone, and beside it NAME.list, a legal listing). It writes the name of each
// vector that does not agree and how many do: texts refused, jobs short, jobs wired. Then it changes each byte of three listings,
// all of which have to be refused, has listings with direct exits and least lengths judged, and random jobs written and read
// back, and the sum of each near side compared with the greatest number.
#![tactic(auto)]

mod direct; // listings with direct exits
mod lengths; // least lengths

use check::same;
use files::load;
use judge::listing::check_listing;
use oracle::lines::{refused_listing, short_listing};
use oracle::near::{shortfall, sum_of};
use oracle_length::least::least_length;
use oracle_length::lines::total_lines;
use oracle_text::job::{Job, Mark};
use oracle_text::page::Page;
use oracle_text::random::{Generator, random_job};
use oracle_text::text::{read_text, write_text};
use std::rt::Files;

// What a vector came to.
#[derive(Clone, Copy, PartialEq, Eq)]
enum Outcome {
    Refused,
    Short,
    Wired,
    Wrong,
}

// How many vectors came to each outcome.
#[derive(Drop)]
struct Outcomes {
    refused: u64,
    short: u64,
    wired: u64,
    wrong: u64,
}

impl Outcomes {
    fn count(&mut self, outcome: Outcome) {
        let n = match outcome {
            Outcome::Refused => &mut self.refused,
            Outcome::Short => &mut self.short,
            Outcome::Wired => &mut self.wired,
            Outcome::Wrong => &mut self.wrong,
        };
        *n = n.wrapping_add(1);
    }
}

// How many came out right, and how many wrong.
#[derive(Clone, Copy)]
struct Judged {
    right: u64,
    wrong: u64,
}

impl Judged {
    fn new() -> Judged {
        Judged { right: 0, wrong: 0 }
    }

    fn count(&mut self, right: bool) {
        let n = if right {
            &mut self.right
        } else {
            &mut self.wrong
        };
        *n = n.wrapping_add(1);
    }
}

type Buffer = [u8; 262144];

// Reads the file of the vector `name` that has this ending.
fn load_vector<'a>(
    rt: &(impl Files + Eprint),
    name: &[u8],
    ending: &[u8],
    buffer: &'a mut Buffer,
) -> &'a [u8] {
    let mut path = Page::EMPTY;
    path.word(name);
    path.word(ending);
    load(rt, path.text(), buffer)
}

// What is in the file of the vector `name` that has this ending.
fn is_file(rt: &(impl Files + Eprint), name: &[u8], ending: &[u8], expected: &[u8]) -> bool {
    let mut buffer = [0u8; 262144];
    same(load_vector(rt, name, ending, &mut buffer), expected)
}

fn refused(rt: &(impl Files + Eprint), name: &[u8], offset: usize) -> Outcome {
    let mut mine = Page::EMPTY;
    refused_listing(offset, &mut mine);
    if is_file(rt, name, b".expect", mine.text()) {
        Outcome::Refused
    } else {
        Outcome::Wrong
    }
}

fn short(
    rt: &(impl Files + Eprint),
    name: &[u8],
    job: &Job,
    missed: usize,
    near: &[u8; 32768],
) -> Outcome {
    let mut mine = Page::EMPTY;
    short_listing(job, missed, near, &mut mine);
    if is_file(rt, name, b".expect", mine.text()) {
        Outcome::Short
    } else {
        Outcome::Wrong
    }
}

// The listing beside the vector is legal, and no shorter than the least length.
fn is_listed(rt: &(impl Files + Eprint), name: &[u8], job: &Job) -> bool {
    let mut buffer = [0u8; 262144];
    let list = load_vector(rt, name, b".list", &mut buffer);
    match (check_listing(job, list), least_length(job)) {
        (Ok(length), Some(least)) => length >= least,
        _ => false,
    }
}

fn wired(rt: &(impl Files + Eprint), name: &[u8], job: &Job) -> Outcome {
    let Some(least) = least_length(job) else {
        return Outcome::Wrong;
    };
    let mut mine = Page::EMPTY;
    let wires = job.count_marked(Mark::Chosen);
    mine.word(b"(wires ");
    mine.decimal(wires);
    mine.word(b")\n");
    let first = is_file(rt, name, b".expect", mine.text());
    total_lines(&mut mine, wires, least);
    let whole = is_file(rt, name, b".expect", mine.text());
    if whole || first && is_listed(rt, name, job) {
        Outcome::Wired
    } else {
        Outcome::Wrong
    }
}

// The text is what the writer makes of the job.
fn is_written(job: &Job, text: &[u8]) -> bool {
    let mut page = Page::EMPTY;
    write_text(job, &mut page);
    same(page.text(), text)
}

// Runs one vector. An accepted text is also what the writer makes of its job.
fn vector(rt: &(impl Files + Eprint), name: &[u8]) -> Outcome {
    let mut buffer = [0u8; 262144];
    let mut job = Job::BLANK;
    let text = load_vector(rt, name, b".job", &mut buffer);
    if let Err(no) = read_text(text, &mut job) {
        return refused(rt, name, no.at);
    }
    if !is_written(&job, text) {
        return Outcome::Wrong;
    }
    let mut near = [0u8; 32768];
    match shortfall(&job, &mut near) {
        0 => wired(rt, name, &job),
        missed => short(rt, name, &job, missed, &near),
    }
}

fn line(rt: &impl Print, word: &[u8], n: u64) {
    let _ = rt.write_all(word);
    let _ = println!(rt; " {n}");
}

fn run(rt: &(impl Files + Print + Eprint), outcomes: &mut Outcomes, name: &[u8]) {
    let outcome = vector(rt, name);
    if outcome == Outcome::Wrong {
        line(rt, name, 0);
    }
    outcomes.count(outcome);
}

// The first `n` vectors of the stem, each with its number in two digits.
fn series(rt: &(impl Files + Print + Eprint), outcomes: &mut Outcomes, stem: &[u8], n: usize) {
    for k in 0..n {
        let mut name = Page::EMPTY;
        name.word(stem);
        if k < 10 {
            name.push(b'0');
        }
        name.decimal(k);
        run(rt, outcomes, name.text());
    }
}

fn vectors(rt: &(impl Files + Print + Eprint)) {
    let mut outcomes = Outcomes {
        refused: 0,
        short: 0,
        wired: 0,
        wrong: 0,
    };
    series(rt, &mut outcomes, b"job0", 60);
    series(rt, &mut outcomes, b"text0", 60);
    run(rt, &mut outcomes, b"empty");
    run(rt, &mut outcomes, b"four");
    series(rt, &mut outcomes, b"K2/job", 16);
    series(rt, &mut outcomes, b"K2/text", 4);
    series(rt, &mut outcomes, b"K8/job", 16);
    series(rt, &mut outcomes, b"K8/text", 4);
    line(rt, b"refused", outcomes.refused);
    line(rt, b"short", outcomes.short);
    line(rt, b"wired", outcomes.wired);
    line(rt, b"wrong", outcomes.wrong);
}

// The listing is refused once its byte `k` is changed.
fn is_noticed(job: &Job, list: &mut [u8], k: usize) -> bool {
    if k >= list.len() {
        return false;
    }
    list[k] ^= 1;
    let noticed = check_listing(job, list).is_err();
    list[k] ^= 1;
    noticed
}

// Changes each of the first 400 bytes of the listing of the vector `name`, one after another, all of which have to be refused.
fn spoil(rt: &(impl Files + Print + Eprint), name: &[u8]) {
    let mut noticed = Judged::new();
    let mut buffer = [0u8; 262144];
    let mut job = Job::BLANK;
    let text = load_vector(rt, name, b".job", &mut buffer);
    let _ = read_text(text, &mut job);
    let n = load_vector(rt, name, b".list", &mut buffer)
        .len()
        .min(262144);
    let list = &mut buffer[..n];
    for k in 0..n.min(400) {
        noticed.count(is_noticed(&job, list, k));
    }
    line(rt, b"changes noticed", noticed.right);
    line(rt, b"changes not noticed", noticed.wrong);
}

// The job comes back from its text.
fn comes_back(job: &Job) -> bool {
    let mut page = Page::EMPTY;
    let mut again = Job::BLANK;
    write_text(job, &mut page);
    read_text(page.text(), &mut again).is_ok() && again == *job
}

// What a random job came to: it is wired, or short with a near side of the right sum.
fn judge(job: &Job) -> Outcome {
    if !comes_back(job) {
        return Outcome::Wrong;
    }
    let mut near = [0u8; 32768];
    let missed = shortfall(job, &mut near);
    if missed == 0 {
        Outcome::Wired
    } else if sum_of(job, &near).wrapping_add(missed) == job.count_marked(Mark::Chosen) {
        Outcome::Short
    } else {
        Outcome::Wrong
    }
}

fn random(rt: &impl Print) {
    let mut outcomes = Outcomes {
        refused: 0,
        short: 0,
        wired: 0,
        wrong: 0,
    };
    let mut generator = Generator::new(2463534242);
    for _ in 0..200 {
        let mut job = Job::BLANK;
        random_job(&mut generator, 12, &mut job);
        outcomes.count(judge(&job));
    }
    line(rt, b"random wired", outcomes.wired);
    line(rt, b"random short", outcomes.short);
    line(rt, b"random wrong", outcomes.wrong);
}

fn direct_exits(rt: &impl Print) {
    let mut judged = Judged::new();
    direct::direct(&mut judged);
    line(rt, b"direct exits judged", judged.right);
    line(rt, b"direct exits misjudged", judged.wrong);
}

fn least_lengths(rt: &impl Print) {
    let mut judged = Judged::new();
    lengths::examples(&mut judged);
    line(rt, b"least lengths judged", judged.right);
    line(rt, b"least lengths misjudged", judged.wrong);
    let drawn = lengths::random();
    line(rt, b"random least lengths right", drawn.settled);
    line(rt, b"random least lengths wrong", drawn.wrong);
    line(rt, b"random jobs that cannot be wired", drawn.unwired);
}

fn main(rt: HostRuntime) {
    vectors(&rt);
    spoil(&rt, b"four");
    spoil(&rt, b"job003");
    spoil(&rt, b"K2/job05");
    direct_exits(&rt);
    least_lengths(&rt);
    random(&rt);
}
