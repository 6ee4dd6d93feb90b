// A network: arcs one after another, each of two darts, 2 k and 2 k + 1, with what is left to each. A link without a direction lets its limit through both ways.
// Arcs that belong to one link of document 01 carry the link's number. Node 0 is where wires start, node 1 the outside; tile 39 r + c has six nodes (n, e, s, w,
// centre in, centre out) and pin 40 r + c two (in, out).
ghost use Rattle.std.specs.Prelude.{◌<◌};

pub const START: usize = 0;

pub const OUTSIDE: usize = 1;

pub const FIRST_PIN: usize = 9128;

pub const NODES: usize = 12328;

// More darts than any job has.
pub const DARTS: usize = 76000;

// More links than any job has.
pub const LINKS: usize = 26000;

// A dart: the node that it leads to, the next dart of the node from which it leads, 0 for none, what is left to it, and its link.
#[derive(Clone, Copy)]
struct Dart {
    to: u32,
    next: u32,
    rest: u32,
    link: u32,
}

#[derive(Clone, Copy)]
pub struct Network {
    firsts: [u32; 12328],
    darts: [Dart; 76000],
    limits: [u32; 26000],
    arcs: usize,
    links: u32,
}

// The other dart of the same arc.
pub fn opposite(d: usize) -> usize {
    d ^ 1
}

// The number in 32 bits, 0 where it has more.
pub fn narrow(n: usize) -> u32 {
    if n < 4294967296 { n as u32 } else { 0 }
}

pub fn wide(n: u32) -> usize
    ensures { result < 4294967296 }
{
    n as usize
}

impl Network {
    // No arc, and the link 0, which is none.
    pub const EMPTY: Network = Network {
        firsts: [0; 12328],
        darts: [Dart {
            to: 0,
            next: 0,
            rest: 0,
            link: 0,
        }; 76000],
        limits: [0; 26000],
        arcs: 0,
        links: 1,
    };

    // The first dart of the node, 0 for none.
    pub fn first(&self, u: usize) -> usize
        ensures { result < 4294967296 }
    {
        if u < NODES { wide(self.firsts[u]) } else { 0 }
    }

    // The dart after this one, from the same node, 0 for none.
    pub fn next(&self, d: usize) -> usize
        ensures { result < 4294967296 }
    {
        if d < DARTS {
            wide(self.darts[d].next)
        } else {
            0
        }
    }

    // The node that the dart leads to.
    pub fn to(&self, d: usize) -> usize
        ensures { result < 4294967296 }
    {
        if d < DARTS { wide(self.darts[d].to) } else { 0 }
    }

    // What is left to the dart.
    pub fn rest(&self, d: usize) -> usize
        ensures { result < 4294967296 }
    {
        if d < DARTS {
            wide(self.darts[d].rest)
        } else {
            0
        }
    }

    // The link of the dart.
    pub fn link(&self, d: usize) -> usize
        ensures { result < 4294967296 }
    {
        if d < DARTS {
            wide(self.darts[d].link)
        } else {
            0
        }
    }

    pub fn limit(&self, l: usize) -> usize
        ensures { result < 4294967296 }
    {
        if l < LINKS { wide(self.limits[l]) } else { 0 }
    }

    // Lays one unit on the dart, where something is left to it.
    pub fn lay(&mut self, d: usize) {
        let back = opposite(d);
        if d < DARTS && back < DARTS && self.darts[d].rest > 0 {
            self.darts[d].rest -= 1;
            self.darts[back].rest = self.darts[back].rest.wrapping_add(1);
        }
    }

    // A new link of this limit.
    pub fn add_link(&mut self, limit: usize) -> usize
        ensures { result < 4294967296 }
    {
        let l = wide(self.links);
        if l < LINKS {
            self.limits[l] = narrow(limit);
            self.links = narrow(l + 1);
        }
        l
    }

    // Hangs the dart `d`, which leads from `u` to `v`, in front of the darts of `u`.
    fn hang(&mut self, d: usize, u: usize, v: usize, rest: usize, link: usize) {
        if d < DARTS && u < NODES {
            self.darts[d] = Dart {
                to: narrow(v),
                next: self.firsts[u],
                rest: narrow(rest),
                link: narrow(link),
            };
            self.firsts[u] = narrow(d);
        }
    }

    // An arc between `u` and `v`, of the link `l`, that lets `there` through from `u` and `back` from `v`; nothing where one of them is no node.
    pub fn join(
        &mut self,
        l: usize,
        u: Option<usize>,
        v: Option<usize>,
        there: usize,
        back: usize,
    ) {
        if let (Some(u), Some(v)) = (u, v) {
            let arc = self.arcs;
            if arc < DARTS / 2 - 1 {
                self.arcs = arc + 1;
                self.hang(2 * arc + 2, u, v, there, l);
                self.hang(2 * arc + 3, v, u, back, l);
            }
        }
    }
}
