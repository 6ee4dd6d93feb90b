// The vectors of data/: NAME.job with NAME.expect, what `escape` prints for it, of a wired job the first line, and from K8 on the last two. A wired job's listing has
// to be legal, and of the least length.
use check::same;
use compare::listed::{Page, list_text, shown};
use files::load;
use judge::listing::check_least;
use oracle_text::job::Job;
use oracle_text::page::Page as Sheet;
use oracle_text::scan::scan;
use oracle_text::text::read_text;
use std::rt::Files;
use verdict::bytes::{Tally, first, rest};

// Reads the file of the vector `name` that has this ending.
fn load_vector<'a>(
    rt: &(impl Files + Eprint),
    name: &[u8],
    ending: &[u8],
    buffer: &'a mut [u8; 262144],
) -> &'a [u8] {
    let mut path = Sheet::EMPTY;
    path.word(name);
    path.word(ending);
    load(rt, path.text(), buffer)
}

// The listing begins with the first line that is expected, and ends with the other lines.
fn frames(expected: &[u8], list: &[u8]) -> bool {
    let Some(f) = scan(expected, 0, b"(wires #)\n") else {
        return false;
    };
    let last = rest(expected, f.at);
    let from = std::num::wrapping_sub_usize(list.len(), last.len());
    same(first(list, f.at), first(expected, f.at)) && same(rest(list, from), last)
}

// The listing of a wired job is as expected, legal, and of the least length.
fn is_wired(text: &[u8], expected: &[u8], list: &[u8]) -> bool {
    let mut job = Job::BLANK;
    let read = read_text(text, &mut job);
    read.is_ok() && frames(expected, list) && check_least(&job, list).is_ok()
}

// The router's listing of the text is the expected one.
fn is_expected(text: &[u8], expected: &[u8], page: &mut Page) -> bool {
    let n = list_text(text, page);
    if same(first(expected, 7), b"(wires ") {
        return is_wired(text, expected, shown(page, n));
    }
    same(shown(page, n), expected)
}

fn vector(rt: &(impl Files + Print + Eprint), tally: &mut Tally, page: &mut Page, name: &[u8]) {
    let mut text = [0u8; 262144];
    let mut expected = [0u8; 262144];
    let text = load_vector(rt, name, b".job", &mut text);
    let expected = load_vector(rt, name, b".expect", &mut expected);
    tally.hold(rt, is_expected(text, expected, page), name);
}

// The vector STEM with the number k, of two digits.
fn numbered(
    rt: &(impl Files + Print + Eprint),
    tally: &mut Tally,
    page: &mut Page,
    stem: &[u8],
    k: usize,
) {
    let mut name = Sheet::EMPTY;
    name.word(stem);
    if k < 10 {
        name.push(b'0');
    }
    name.decimal(k);
    vector(rt, tally, page, name.text());
}

// The first `n` vectors of the stem.
fn series(
    rt: &(impl Files + Print + Eprint),
    tally: &mut Tally,
    page: &mut Page,
    stem: &[u8],
    n: usize,
) {
    for k in 0..n {
        numbered(rt, tally, page, stem, k);
    }
}

pub fn vectors(rt: &(impl Files + Print + Eprint), tally: &mut Tally) {
    let mut page = [0u8; 1048576];
    series(rt, tally, &mut page, b"job0", 60);
    series(rt, tally, &mut page, b"text0", 60);
    vector(rt, tally, &mut page, b"empty");
    vector(rt, tally, &mut page, b"four");
    series(rt, tally, &mut page, b"K2/job", 16);
    series(rt, tally, &mut page, b"K2/text", 4);
    series(rt, tally, &mut page, b"K3/job", 12);
    series(rt, tally, &mut page, b"K3/text", 8);
    series(rt, tally, &mut page, b"K7/job", 12);
    series(rt, tally, &mut page, b"K7/text", 8);
    series(rt, tally, &mut page, b"K8/job", 16);
    series(rt, tally, &mut page, b"K8/text", 4);
    series(rt, tally, &mut page, b"K9/job", 14);
    series(rt, tally, &mut page, b"K9/text", 6);
}
