// The operations on the first bytes of a buffer.
use crate::said::{Answer, lacks, wrote};
use model::{Array, Capacities};

pub fn new_on(
    rec: &mut [u8],
    n: usize,
    rows: usize,
    columns: usize,
    o: usize,
    d: usize,
    e: usize,
) -> Answer {
    if n <= rec.len() {
        let array = Array { rows, columns };
        let capacities = Capacities {
            orthogonal: o,
            diagonal: d,
            extra: e,
        };
        return Answer::from(service::new(&mut rec[..n], array, capacities));
    }
    Answer::Done
}

pub fn read_on(rec: &mut [u8], n: usize, text: &[u8]) -> Answer {
    if n <= rec.len() {
        return Answer::from(service::read_text(&mut rec[..n], text));
    }
    Answer::Done
}

pub fn mark_on(rec: &mut [u8], n: usize, row: usize, column: usize, value: usize) -> Answer {
    if n <= rec.len() {
        return Answer::from(service::mark(&mut rec[..n], row, column, value));
    }
    Answer::Done
}

pub fn close_on(rec: &mut [u8], n: usize, row: usize, column: usize, value: usize) -> Answer {
    if n <= rec.len() {
        return Answer::from(service::close(&mut rec[..n], row, column, value));
    }
    Answer::Done
}

pub fn diagonal_on(rec: &mut [u8], n: usize, row: usize, column: usize, d: usize) -> Answer {
    if n <= rec.len() {
        return Answer::from(service::diagonal(&mut rec[..n], row, column, d));
    }
    Answer::Done
}

pub fn extra_on(rec: &mut [u8], n: usize, e: usize) -> Answer {
    if n <= rec.len() {
        return Answer::from(service::extra(&mut rec[..n], e));
    }
    Answer::Done
}

pub fn lay_on(
    rec: &mut [u8],
    n: usize,
    row: usize,
    column: usize,
    side: usize,
    count: usize,
) -> Answer {
    if n <= rec.len() {
        return Answer::from(service::lay(&mut rec[..n], row, column, side, count));
    }
    Answer::Done
}

fn step_scratch(rec: &mut [u8], scratch: &mut [u8], m: usize) -> Answer {
    if m <= scratch.len() {
        return Answer::from(service::step(rec, &mut scratch[..m]));
    }
    Answer::Done
}

pub fn step_on(rec: &mut [u8], n: usize, scratch: &mut [u8], m: usize) -> Answer {
    if n <= rec.len() {
        return step_scratch(&mut rec[..n], scratch, m);
    }
    Answer::Done
}

fn shortfall_scratch(rec: &[u8], scratch: &mut [u8], m: usize, output: &mut [u8]) -> Answer {
    if m <= scratch.len() {
        return lacks(service::shortfall(rec, &mut scratch[..m], output));
    }
    Answer::Done
}

pub fn shortfall_on(
    rec: &[u8],
    scratch: &mut [u8],
    m: usize,
    output: &mut [u8],
    l: usize,
) -> Answer {
    if l <= output.len() {
        return shortfall_scratch(rec, scratch, m, &mut output[..l]);
    }
    Answer::Done
}

pub fn write_on(rec: &[u8], output: &mut [u8], m: usize) -> Answer {
    if m <= output.len() {
        return wrote(service::write_text(rec, &mut output[..m]));
    }
    Answer::Done
}

pub fn list_on(rec: &[u8], output: &mut [u8], m: usize) -> Answer {
    if m <= output.len() {
        return wrote(service::list_wires(rec, &mut output[..m]));
    }
    Answer::Done
}
