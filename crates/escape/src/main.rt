// Document 01's program: routes the job of a text and prints the listing. The text is the first 65,536 bytes of standard input or, where arguments are
// given, of each file that they name, `-` for standard input. What fails is said on standard error.
#![tactic(auto)]

pub mod pages; // listings, printed page by page

ghost use Rattle.std.specs.Prelude.{◌≡◌, ◌≤◌, List, ℕ, IfOk, IfSome, length, take};
ghost use Rattle.model.specs.Record.{job_of, Legal};
ghost use Rattle.escape.specs.Handed.{IsRead, Handed, Held};
ghost use Rattle.escape.specs.Prints.{Lists, Prints};

use pages::{show_near, show_refused, show_wires};
use shortest::shorten::route_all;
use std::env::{Env, FillError};
use std::io::{Error, Read, Write};
use std::{fs, io, str};
use text::read_into;

// The wires of a job in which all are laid, together of the least length, or the near side where some pin stays unwired.
fn show_routed<W: Write>(rec: &mut [u8], out: &mut W) -> io::Result<usize>
    requires { Legal rec.old }
    ensures { (bytes : List ℕ) × Lists (job_of rec.old) bytes × Handed result bytes
        × Held (W.contents out.old) (W.contents out.new) result bytes }
{
    let mut near = [0u8; 32768];
    let short = route_all(rec, &mut near);
    if short == 0 {
        return show_wires(rec, out);
    }
    show_near(rec, &near, short, out)
}

// The listing of a text.
fn show_text<W: Write>(text: &[u8], out: &mut W) -> io::Result<usize>
    ensures { (bytes : List ℕ) × Prints text.now bytes × Handed result bytes
        × Held (W.contents out.old) (W.contents out.new) result bytes }
{
    let mut rec = [0u8; 32768];
    match read_into(text, &mut rec) {
        Ok(()) => show_routed(&mut rec, out),
        Err(wrong) => show_refused(wrong.offset, out),
    }
}

// Reads until the buffer is full or the reader ends, and gives how many bytes it put at the start of the buffer: where the reader's bytes are known, all
// that there are, or as many as the buffer takes.
fn fill<R: Read>(from: &mut R, buf: &mut [u8]) -> io::Result<usize>
    ensures bound { IfOk result (λ n. n ≤ length buf.new) }
    ensures bytes { IfOk result (λ n. IfSome (R.remaining from.old) (λ xs. take n buf.new ≡ take (length buf.new) xs)) }
{
    let mut done = 0;
    while done < buf.len() {
        let n = from.read(&mut buf[done..])?;
        if n == 0 {
            return Ok(done);
        }
        done += n;
    }
    Ok(done)
}

// The listing of the text that a reader gives, handed to a writer: what writing it gives, or an error where reading fails.
fn list<R: Read, W: Write>(from: &mut R, out: &mut W) -> io::Result<io::Result<usize>>
    ensures { IfOk result (λ shown. (text : List ℕ) × (bytes : List ℕ) × IsRead (R.remaining from.old) text × Prints text bytes
        × Handed shown bytes × Held (W.contents out.old) (W.contents out.new) shown bytes) }
{
    let mut text = [0u8; 65536];
    let n = fill(from, &mut text)?;
    Ok(show_text(&text[..n], out))
}

// Says on standard error what failed, and how.
fn say(rt: &impl Eprint, what: &str, error: Error) {
    let _ = eprintln!(rt; "{what}: {error}");
}

// The listing of what a reader gives, on standard output; false where writing fails.
fn show(rt: &HostRuntime, from: &mut impl Read) -> bool {
    match list(from, &mut rt.stdout()) {
        Ok(Ok(_)) => true,
        Ok(Err(error)) => {
            say(rt, "write", error);
            false
        }
        Err(error) => {
            say(rt, "read", error);
            true
        }
    }
}

// The listing of a file; false where writing fails.
fn show_file(rt: &HostRuntime, name: &[u8]) -> bool {
    if name == b"-".as_slice() {
        return show(rt, &mut rt.stdin());
    }
    let Ok(path) = str::from_utf8(name) else {
        say(rt, "argument", Error::from(io::ErrorKind::InvalidFilename));
        return true;
    };
    match fs::open(rt, path) {
        Ok(mut file) => show(rt, &mut file),
        Err(error) => {
            say(rt, path, error);
            true
        }
    }
}

// The listing of the file that argument i names; false where there is no such argument, and where writing fails.
fn show_argument(rt: &HostRuntime, i: usize) -> bool {
    let mut name = [0u8; 4096];
    match rt.arg(i, &mut name) {
        Ok(n) => show_file(rt, &name[..n]),
        Err(FillError::TooLong) => {
            say(rt, "argument", Error::from(io::ErrorKind::InvalidFilename));
            true
        }
        Err(FillError::NotPresent) => false,
    }
}

// Whether an argument is given.
fn is_given(rt: &HostRuntime) -> bool {
    let mut name = [0u8; 4096];
    !matches!(rt.arg(1, &mut name), Err(FillError::NotPresent))
}

fn main(rt: HostRuntime) {
    if !is_given(&rt) {
        show(&rt, &mut rt.stdin());
        return;
    }
    for i in 1..usize::MAX {
        if !show_argument(&rt, i) {
            return;
        }
    }
}
