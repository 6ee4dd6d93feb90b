// Document 02, K6: the program that prints the text of a trial's job. Its arguments are rows, columns, O, D, E, the starting number, and the percentages of
// chosen and missing pins and of closed tiles.
#![tactic(auto)]

use answers::Refusal;
use model::{Array, Capacities};
use rules::argument::read_number;
use std::env::{Env, FillError};
use std::io;
use std::io::Write;
use trials::{Draws, trial};

// The nine numbers, in the order of the arguments.
type Numbers = [usize; 9];

fn usage(rt: &HostRuntime) -> io::Result<()> {
    eprintln!(rt; "usage: trial ROWS COLUMNS O D E SEED CHOSEN MISSING CLOSED, whole numbers")
}

// The number that argument i is.
fn number(rt: &HostRuntime, i: usize) -> Option<u64> {
    let mut text = [0u8; 4096];
    match rt.arg(i, &mut text) {
        Ok(n) => read_number(&text[..n]),
        Err(_) => None,
    }
}

// Whether there is an argument i, of any length.
fn is_given(rt: &HostRuntime, i: usize) -> bool {
    let mut text = [0u8; 4096];
    !matches!(rt.arg(i, &mut text), Err(FillError::NotPresent))
}

// Reads the nine arguments; false where one is no number.
fn read_all(rt: &HostRuntime, numbers: &mut Numbers) -> bool {
    for i in 0..9 {
        let Some(n) = number(rt, i + 1) else {
            return false;
        };
        numbers[i] = n as usize;
    }
    true
}

// The first n bytes of a text, where it has so many.
fn print(rt: &HostRuntime, text: &[u8], n: usize) -> io::Result<()> {
    if n <= text.len() {
        return rt.stdout().write_all(&text[..n]);
    }
    Ok(())
}

// The text of the job that the record holds.
fn show(rt: &HostRuntime, rec: &[u8]) -> io::Result<()> {
    let mut text = [0u8; 49152];
    let Ok(n) = making::write_text(rec, &mut text) else {
        return Ok(());
    };
    print(rt, &text, n)
}

fn refuse(rt: &HostRuntime, refusal: Refusal) -> io::Result<()> {
    eprintln!(rt; "(refused {})", refusal.number())
}

fn run(rt: &HostRuntime, a: &Numbers) -> io::Result<()> {
    let mut rec = [0u8; 32768];
    let array = Array {
        rows: a[0],
        columns: a[1],
    };
    let capacities = Capacities {
        orthogonal: a[2],
        diagonal: a[3],
        extra: a[4],
    };
    let draws = Draws {
        seed: a[5],
        chosen: a[6],
        missing: a[7],
        closed: a[8],
    };
    match trial(&mut rec, array, capacities, draws) {
        Ok(()) => show(rt, &rec),
        Err(refusal) => refuse(rt, refusal),
    }
}

fn main(rt: HostRuntime) -> io::Result<()> {
    let mut numbers = [0usize; 9];
    if is_given(&rt, 10) {
        return usage(&rt);
    }
    if !read_all(&rt, &mut numbers) {
        return usage(&rt);
    }
    run(&rt, &numbers)
}
