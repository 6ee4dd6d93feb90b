// Prints the limits of the four-pin job of document 01: 2 by 2 pins, capacities 1 2 0.
#![tactic(auto)]

use model::{Array, Capacities};
use std::io;

// One line: a word and a number.
fn line(rt: &HostRuntime, word: &str, n: usize) -> io::Result<()> {
    println!(rt; "({word} {n})")
}

fn main(rt: HostRuntime) -> io::Result<()> {
    let array = Array {
        rows: 2,
        columns: 2,
    };
    let caps = Capacities {
        orthogonal: 1,
        diagonal: 2,
        extra: 0,
    };
    if !array.fits() {
        return Ok(());
    }
    if !caps.admitted() {
        return Ok(());
    }
    line(&rt, "side", caps.orthogonal)?;
    line(&rt, "corner", caps.orthogonal / 2)?;
    line(&rt, "centre", caps.centre_limit())?;
    line(&rt, "missing", caps.extra)
}
