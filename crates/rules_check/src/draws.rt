// Measures at random. Most are made so that O is 0 to 10, the others are any four numbers from 0 to 100,001.
ghost use Rattle.std.specs.Prelude.{◌+◌, ◌<◌, ◌≤◌};

use crate::plain::Measures;
use oracle_text::random::Generator;

// The next number below n.
fn number(generator: &mut Generator, n: usize) -> u64
    ensures { result < n + 1 }
{
    generator.below(n) as u64
}

// Any four numbers.
fn anything(generator: &mut Generator) -> Measures {
    Measures {
        p: number(generator, 100002),
        d: number(generator, 100002),
        w: number(generator, 100002),
        s: number(generator, 100002),
    }
}

// How large wires, spacing and pads are at most.
fn scale(x: u32) -> usize
    ensures { result ≤ 16000 }
{
    match x % 4 {
        0 => 5,
        1 => 60,
        2 => 1000,
        _ => 16000,
    }
}

// The space of o wires.
fn wires(o: u64, each: u64) -> u64
    requires { (o ≤ 11) × (each ≤ 40000) }
    ensures { result ≤ 440000 }
{
    o * each
}

// A pitch for O of 0 to 10, or a little less than d + s.
fn spaced(generator: &mut Generator) -> Measures {
    let most = scale(generator.next());
    let w = 1 + number(generator, most);
    let s = 1 + number(generator, most);
    let d = 1 + number(generator, 4 * most);
    let o = number(generator, 11);
    let p = d + s + wires(o, w + s) + number(generator, most);
    Measures {
        p: if p > 3 { p - 3 } else { p },
        d,
        w,
        s,
    }
}

// The next four numbers.
pub fn draw(generator: &mut Generator) -> Measures {
    if generator.last % 8 == 0 {
        anything(generator)
    } else {
        spaced(generator)
    }
}
