// The program of document 02, K1: the capacities that four measures give. Its arguments are pitch, pad diameter, wire width and spacing, in micrometres.
#![tactic(auto)]

use rules::argument::read_number;
use rules::{Figures, Refusal};
use std::env::{Env, FillError};
use std::io;

fn show_figures(rt: &HostRuntime, f: Figures) -> io::Result<()> {
    print!(rt; "(rules (o {} {})", f.orthogonal, f.remainder)?;
    print!(rt; " (k {} {})", f.count, f.left)?;
    println!(rt; " (d {}))", f.diagonal)
}

fn show(rt: &HostRuntime, answer: Result<Figures, Refusal>) -> io::Result<()> {
    match answer {
        Ok(f) => show_figures(rt, f),
        Err(refusal) => println!(rt; "(refused {})", refusal.number()),
    }
}

// The number that argument i is.
fn measure(rt: &HostRuntime, i: usize) -> Option<u64> {
    let mut text = [0u8; 4096];
    match rt.arg(i, &mut text) {
        Ok(n) => read_number(&text[..n]),
        Err(_) => None,
    }
}

// Whether there is an argument i, of any length.
fn is_given(rt: &HostRuntime, i: usize) -> bool {
    let mut text = [0u8; 4096];
    !matches!(rt.arg(i, &mut text), Err(FillError::NotPresent))
}

fn usage(rt: &HostRuntime) -> io::Result<()> {
    eprintln!(rt; "usage: design_rules PITCH PAD WIDTH SPACING, whole numbers of micrometres")
}

fn main(rt: HostRuntime) -> io::Result<()> {
    if is_given(&rt, 5) {
        return usage(&rt);
    }
    let Some(p) = measure(&rt, 1) else {
        return usage(&rt);
    };
    let Some(d) = measure(&rt, 2) else {
        return usage(&rt);
    };
    let Some(w) = measure(&rt, 3) else {
        return usage(&rt);
    };
    let Some(s) = measure(&rt, 4) else {
        return usage(&rt);
    };
    show(&rt, rules::rules(p, d, w, s))
}
