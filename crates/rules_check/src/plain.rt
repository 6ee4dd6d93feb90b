// The second computation: quotients by taking away, the diagonal count by trying 1, 2, 3 and so on. It shares nothing with the crate `rules`.
ghost use Rattle.std.specs.Prelude.{◌<◌, ◌≤◌};

// The pitch, a pad, a wire and the spacing.
#[derive(Clone, Copy)]
pub struct Measures {
    pub p: u64,
    pub d: u64,
    pub w: u64,
    pub s: u64,
}

// The five numbers.
#[derive(Clone, Copy, PartialEq, Eq)]
pub struct Figures {
    pub o: u64,
    pub o_rest: u64,
    pub k: u64,
    pub k_rest: u64,
    pub diagonal: u64,
}

#[derive(Clone, Copy, PartialEq, Eq)]
pub enum Refusal {
    OutOfRange,
    NoCapacity,
}

impl Refusal {
    // The document's number.
    pub fn number(self) -> u64 {
        match self {
            Refusal::OutOfRange => 9,
            Refusal::NoCapacity => 10,
        }
    }
}

// How often something was taken, and what is left.
#[derive(Clone, Copy)]
struct Counted {
    n: u64,
    left: u64,
}

// How often `each` can be taken from `room`.
fn taken(room: u64, each: u64) -> Counted
    requires { 0 < each }
{
    let mut n: u64 = 0;
    let mut left = room;
    while each <= left {
        left -= each;
        n = n.wrapping_add(1);
    }
    Counted { n, left }
}

// How many wires go across: one more as long as the square of the space is at most `whole`, which is below 200,000 squared.
fn tried(ends: u64, each: u64, whole: u64) -> Counted
    requires { (ends ≤ 200000) × (0 < each) × (each ≤ 200000) }
{
    let mut n: u64 = 0;
    let mut space = ends + each;
    let mut left = whole.saturating_sub(ends * ends);
    while space < 200000 {
        if whole < space * space {
            break;
        }
        left = whole - space * space;
        space += each;
        n = n.wrapping_add(1);
    }
    Counted { n, left }
}

// The five numbers for measures in range.
fn inside(m: Measures) -> Result<Figures, Refusal>
    requires { (m.p ≤ 100000) × (m.d ≤ 100000) × (0 < m.w) × (m.w ≤ 100000) × (m.s ≤ 100000) }
{
    if m.p < m.d + m.s {
        return Err(Refusal::NoCapacity);
    }
    let o = taken(m.p - m.d - m.s, m.w + m.s);
    if o.n < 1 || o.n > 8 {
        return Err(Refusal::NoCapacity);
    }
    let k = tried(m.s + m.d, m.w + m.s, 2 * m.p * m.p);
    Ok(Figures {
        o: o.n,
        o_rest: o.left,
        k: k.n,
        k_rest: k.left,
        diagonal: k.n.min(2 * o.n),
    })
}

// What the four numbers come to.
pub fn plain(m: Measures) -> Result<Figures, Refusal> {
    if m.p < 1 || m.d < 1 || m.w < 1 || m.s < 1 {
        return Err(Refusal::OutOfRange);
    }
    if m.p > 100000 || m.d > 100000 || m.w > 100000 || m.s > 100000 {
        return Err(Refusal::OutOfRange);
    }
    inside(m)
}
