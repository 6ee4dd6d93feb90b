// The vectors of data/: a job, a sheet, and the verdict in words, which is the operation's and the second implementation's.
use crate::judge::{CARRIED, REFUSED, judged, said};
use check::same;
use files::load;
use oracle_text::job::Job;
use oracle_text::page::Page;
use oracle_text::text::read_text;
use std::rt::Files;
use verdict::bytes::Tally;

// Reads a file of the vector with the number k, of two digits.
fn part<'a>(
    rt: &(impl Files + Eprint),
    k: usize,
    kind: &[u8],
    buffer: &'a mut [u8; 262144],
) -> &'a [u8] {
    let mut path = Page::EMPTY;
    path.word(b"sheet");
    if k < 10 {
        path.push(b'0');
    }
    path.decimal(k);
    path.word(kind);
    load(rt, path.text(), buffer)
}

// A verdict in words.
fn words(out: &mut Page, verdict: usize) {
    if verdict < CARRIED {
        out.word(b"fails ");
        out.pair(verdict / 40, verdict % 40);
        out.push(b'\n');
    } else if verdict < REFUSED {
        out.word(b"carried\n");
    } else {
        out.word(b"refused ");
        out.decimal(verdict - REFUSED);
        out.push(b'\n');
    }
}

fn hold_words(rt: &impl Print, tally: &mut Tally, verdict: usize, expect: &[u8], what: &[u8]) {
    let mut page = Page::EMPTY;
    words(&mut page, verdict);
    tally.hold(rt, same(page.text(), expect), what);
}

// The record of the text; none where the text is refused.
fn read(text: &[u8], rec: &mut [u8; 32768]) -> bool {
    making::read_text(rec, text).is_ok()
}

// The operation's verdict on the sheet of a vector.
fn ask(rt: &impl Print, tally: &mut Tally, rec: &[u8; 32768], sheet: &[u8], expect: &[u8]) {
    hold_words(rt, tally, said(rec, sheet), expect, b"the verdict");
}

// The second implementation's.
fn ask_other(rt: &impl Print, tally: &mut Tally, text: &[u8], sheet: &[u8], expect: &[u8]) {
    let mut job = Job::BLANK;
    let read = read_text(text, &mut job);
    tally.hold(rt, read.is_ok(), b"the job of the second implementation");
    hold_words(
        rt,
        tally,
        judged(&job, sheet),
        expect,
        b"the verdict of the second implementation",
    );
}

fn vector(rt: &(impl Files + Print + Eprint), tally: &mut Tally, k: usize) {
    let mut text = [0u8; 262144];
    let mut sheet = [0u8; 262144];
    let mut expect = [0u8; 262144];
    let text = part(rt, k, b".job", &mut text);
    let sheet = part(rt, k, b".sheet", &mut sheet);
    let expect = part(rt, k, b".expect", &mut expect);
    let mut rec = [7u8; 32768];
    tally.hold(rt, read(text, &mut rec), b"the job");
    ask(rt, tally, &rec, sheet, expect);
    ask_other(rt, tally, text, sheet, expect);
}

pub fn vectors(rt: &(impl Files + Print + Eprint), tally: &mut Tally) {
    for k in 0..30 {
        vector(rt, tally, k);
    }
}
