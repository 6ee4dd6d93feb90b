// Bytes looked at, and the tally of what was checked.
ghost use Rattle.std.specs.Prelude.{◌<◌};

// How many checks came out right, and how many wrong.
#[derive(Clone, Copy, PartialEq, Eq, Debug)]
pub struct Tally {
    right: u64,
    wrong: u64,
}

impl Tally {
    pub const NONE: Tally = Tally { right: 0, wrong: 0 };

    pub fn wrong(&self) -> u64 {
        self.wrong
    }

    // Counts a check, and writes what it is where it came out wrong.
    pub fn hold(&mut self, rt: &impl Print, right: bool, what: &[u8]) {
        if right {
            self.right = self.right.wrapping_add(1);
        } else {
            self.wrong = self.wrong.wrapping_add(1);
            write(rt, b"wrong: ");
            write(rt, what);
            write(rt, b"\n");
        }
    }

    // How many checks of these are right and wrong.
    pub fn tell(&self, rt: &impl Print, what: &[u8]) {
        write(rt, what);
        line(rt, b" right", self.right);
        write(rt, what);
        line(rt, b" wrong", self.wrong);
    }
}

pub fn wide(x: u8) -> usize
    ensures { result < 256 }
{
    x as usize
}

// The first `n` bytes of `s`, and all where it has fewer.
pub fn first(s: &[u8], n: usize) -> &[u8] {
    s.get(..n).unwrap_or(s)
}

// The bytes of `s` from `n` on, and all where it has fewer.
pub fn rest(s: &[u8], n: usize) -> &[u8] {
    s.get(n..).unwrap_or(s)
}

// The `n` bytes of `s` from `at` on.
pub fn span(s: &[u8], at: usize, n: usize) -> &[u8] {
    first(rest(s, at), n)
}

// Every byte of `s` is `v`.
pub fn all(s: &[u8], v: u8) -> bool {
    s.iter().all(|b| *b == v)
}

// The first `n` bytes of `s` are `v`, and all others `w`.
pub fn split_at(s: &[u8], n: usize, v: u8, w: u8) -> bool {
    all(first(s, n), v) && all(rest(s, n), w)
}

// The first bytes of `s` are those of `t`, and all others `w`.
pub fn begins(s: &[u8], t: &[u8], w: u8) -> bool {
    match s.strip_prefix(t) {
        Some(others) => all(others, w),
        None => false,
    }
}

// Writes the bytes; a standard output that takes them no longer is no error here.
pub fn write(rt: &impl Print, s: &[u8]) {
    let _ = rt.write_all(s);
}

// A line with a number.
pub fn line(rt: &impl Print, w: &[u8], n: u64) {
    write(rt, w);
    let _ = println!(rt; " {n}");
}
