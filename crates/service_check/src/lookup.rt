// The part at an index of a pin's wire, looked up in a listing.
use check::same;
use oracle_text::page::Page as Sheet;
use oracle_text::scan::byte_at;
use verdict::bytes::span;
use verdict::legal::is_wired;
use verdict::record::Record;

// Where the bytes stand first in the list; its length where they stand nowhere.
fn find(list: &[u8], w: &[u8]) -> usize {
    let mut i = 0;
    while i < list.len() {
        if same(span(list, i, w.len()), w) {
            return i;
        }
        i += 1;
    }
    i
}

// The place after the next closing parenthesis from `at` on; the list's length where there is none.
fn past(list: &[u8], at: usize) -> usize {
    let mut i = at;
    while i < list.len() {
        if list[i] == b')' {
            return i + 1;
        }
        i += 1;
    }
    i
}

// The place after `index` parts from `at` on, or after as many as there are.
fn skip(list: &[u8], at: usize, index: usize) -> usize {
    let mut i = at;
    let mut k = 0;
    while k < index && byte_at(list, i) == b' ' {
        i = past(list, i);
        k += 1;
    }
    i
}

// Where the parts of the pin p begin.
fn parts_of(list: &[u8], p: usize) -> usize {
    let mut sheet = Sheet::EMPTY;
    sheet.word(b"(wire (pin ");
    sheet.pair(p / 40, p % 40);
    sheet.push(b')');
    std::num::wrapping_add_usize(find(list, sheet.text()), sheet.text().len())
}

// What Part has to answer of the pin p at the index, as the listing prints it.
pub fn put_expected(out: &mut Sheet, rec: &Record, list: &[u8], p: usize, index: usize) {
    if !is_wired(rec, p) {
        out.word(b"unwired");
        return;
    }
    let at = skip(list, parts_of(list, p), index);
    if byte_at(list, at) != b' ' {
        out.word(b"past");
        return;
    }
    let end = past(list, at);
    out.word(span(list, at, std::num::wrapping_sub_usize(end, at)));
}
