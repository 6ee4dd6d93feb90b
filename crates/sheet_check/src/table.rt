// The table of data/: the line of each entry as the second implementation has it, and the router's entry.
ghost use Rattle.std.specs.Prelude.{◌<◌};

use crate::tile::least_passage;
use check::same;
use files::load;
use oracle_text::page::Page;
use std::rt::Files;
use verdict::bytes::{Tally, span, wide};

// The least D that carries the amounts, else 5.
fn least_figure(n: usize, e: usize, s: usize, w: usize) -> usize
    requires { (n < 6) × (e < 6) × (s < 6) × (w < 6) }
{
    let passed = least_passage(n, e, s, w);
    if passed < 3 { 2 + passed } else { 5 }
}

// The amount as it is, of one that is written 2 more, and a space.
fn amount(out: &mut Page, n: usize) {
    if n < 2 {
        out.push(b'-');
        out.decimal(2 - n);
    } else {
        out.decimal(n - 2);
    }
    out.push(b' ');
}

// The line of an entry.
fn line(out: &mut Page, n: usize, e: usize, s: usize, w: usize)
    requires { (n < 6) × (e < 6) × (s < 6) × (w < 6) }
{
    amount(out, n);
    amount(out, e);
    amount(out, s);
    amount(out, w);
    out.word(b"-> ");
    out.decimal(least_figure(n, e, s, w));
    out.push(b'\n');
}

// The digit of i, in base 6, at this weight.
fn digit(i: usize, weight: usize) -> usize
    ensures { result < 6 }
{
    if weight == 0 {
        return 0;
    }
    let x = i / weight % 6;
    if x < 6 { x } else { 0 }
}

// How many bytes lie between.
fn between(at: usize, end: usize) -> usize {
    if at < end { end - at } else { 0 }
}

// Entry i, whose line is the next of `mine`.
fn entry(rt: &impl Print, tally: &mut Tally, text: &[u8], mine: &mut Page, i: usize) {
    let n = digit(i, 216);
    let e = digit(i, 36);
    let s = digit(i, 6);
    let w = digit(i, 1);
    let at = mine.text().len();
    line(mine, n, e, s, w);
    let size = between(at, mine.text().len());
    let entry = span(mine.text(), at, size);
    tally.hold(
        rt,
        text.get(at..).is_some_and(|from| from.starts_with(entry)),
        b"an entry of the second implementation",
    );
    let least = wide(sheets::entry(n, e, s, w));
    tally.hold(rt, least == least_figure(n, e, s, w), b"an entry");
}

pub fn table(rt: &(impl Files + Print + Eprint), tally: &mut Tally) {
    let mut buffer = [0u8; 262144];
    let mut mine = Page::EMPTY;
    let text = load(rt, b"table.txt", &mut buffer);
    for i in 0..1296 {
        entry(rt, tally, text, &mut mine, i);
    }
    tally.hold(rt, same(mine.text(), text), b"the whole table");
}
