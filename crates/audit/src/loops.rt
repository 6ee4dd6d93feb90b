// Closed chains of loaded links. A depth-first search with its own stack, from the spots that the wires of fresh links leave, says that there is none behind
// them, with an order along which loaded darts fall, or gives one. A link is fresh that has the first wire of a direction, beside old loads. The search works
// on what is lent to it.
ghost use Rattle.std.specs.Prelude.{◌≡◌, ℕ, ◌+◌, ◌*◌, ◌≤◌, ◌<◌, length, get_or, set};
ghost use Rattle.channel.specs.Map.{spots};
ghost use Rattle.audit.specs.Loops.{LoopStands};
ghost use Rattle.audit.specs.Loops.Answers.{Answer};
ghost use Rattle.audit.specs.Loops.Dfs.{Cleared, Rest, Picked, Placed, Bared, Forgotten, Dfs, Entered};
ghost use Rattle.audit.specs.Loops.Search.{SameLent, ForgetsOnly, Standing, AimedAt, Meets, Idle, RingLeft, Turned, Resumed, Searched, Traced, FreshTraced};

use channel::{columns, rows};
use outward::lead_outward;

// A closed chain: its spots in st and their slots in sl, from `from` to before `to`, and how many spots are done.
#[derive(Clone, Copy)]
pub struct Ring {
    pub from: usize,
    pub to: usize,
    pub done: usize,
}

// A spot to which the top of the stack leads: one that is not seen, or one that is on the stack.
#[derive(Clone, Copy)]
enum Met {
    New(usize),
    Hit(usize),
}

// The search: the marks of the spots, the spots on the stack and their slots, how high the stack is, and how many spots are done.
#[derive(Drop)]
struct Search<'a> {
    fin: &'a mut [u16],
    st: &'a mut [u16],
    sl: &'a mut [u8],
    height: usize,
    done: usize,
}

// No spot is seen.
pub fn clear(fin: &mut [u16])
    requires { spots ≤ length fin.old }
    ensures { Cleared fin.new }
{
    for mark in &mut fin[..13128] {
        *mark = 0;
    }
}

// The slots alone, of the first n.
fn bare(sl: &mut [u8], n: usize)
    requires { n ≤ length sl.old }
    ensures { Bared sl.old n sl.new }
{
    for s in &mut sl[..n] {
        *s %= 8;
    }
}

impl<'a> Search<'a> {
    // The first slot of u from that of s0 on that is loaded and leads to a spot that is not done, with 8 times the loaded slots from it on; 5 if there is none.
    fn scan(&self, rec: &[u8], u: usize, s0: usize) -> usize
        requires { (spots ≤ length self.now.fin.now) × (u < spots) × Rest rec.now u s0 }
        ensures { Picked rec.now self.now.fin.now u s0 result }
    {
        let fin = &*self.fin;
        let mut left = s0 / 8;
        let mut k = s0 % 8;
        while left != 0 {
            let skip = channel::lowest(left);
            k += skip;
            left = left >> skip;
            if fin[channel::head_of(8 * u + k)] < 2 {
                return k + 8 * left;
            }
            left /= 2;
            k += 1;
        }
        5
    }

    // One turn: the spot to which the top of the stack leads; or none, and the top is done and leaves the stack.
    fn advance(&mut self, rec: &[u8]) -> Option<Met>
        requires standing { Standing rec.now self.old }
        requires any { 0 < self.old.height }
        ensures lent { SameLent self.old self.new }
        ensures turned { Turned rec.now self.old self.new result }
    {
        let i = self.height - 1;
        let u = self.st[i] as usize;
        let s = self.scan(rec, u, self.sl[i] as usize);
        if s % 8 >= 5 {
            self.fin[u] = (self.done + 2) as u16;
            self.done += 1;
            self.height = i;
            if i == 0 {
                return None;
            }
            let t = self.sl[i - 1] as usize;
            self.sl[i - 1] = (t % 8 + 1 + 8 * (t / 16)) as u8;
            return None;
        }
        self.sl[i] = s as u8;
        let v = channel::head_of(8 * u + s % 8);
        if self.fin[v] == 1 {
            return Some(Met::Hit(v));
        }
        Some(Met::New(v))
    }

    // Turns up to a spot to which the top leads, or until the stack is empty.
    fn resume(&mut self, rec: &[u8]) -> Option<Met>
        requires { Standing rec.now self.old }
        ensures lent { SameLent self.old self.new }
        ensures resumed { Resumed rec.now self.old self.new result }
    {
        while 0 < self.height {
            if let Some(met) = self.advance(rec) {
                return Some(met);
            }
        }
        None
    }

    // Puts the spot v on the stack.
    fn enter(&mut self, rec: &[u8], v: usize)
        requires { AimedAt rec.now self.old v }
        ensures lent { SameLent self.old self.new }
        ensures standing { Standing rec.now self.new }
        ensures entered { Entered rec.now self.old.fin.now self.old.st.now self.old.sl.now self.old.height v self.new.fin.now self.new.st.now self.new.sl.now }
    {
        let n = self.height;
        self.fin[v] = 1;
        self.st[n] = v as u16;
        self.sl[n] = (8 * channel::loaded_slots(rec, v)) as u8;
        self.height = n + 1;
    }

    // Where the spot v stands on the stack; its height if it does not.
    fn place(&self, v: usize) -> usize
        requires { self.now.height ≤ length self.now.st.now }
        ensures { Placed self.now.st.now self.now.height v result }
    {
        let n = self.height;
        for (i, u) in self.st[..n].iter().enumerate() {
            if *u as usize == v {
                return i;
            }
        }
        n
    }

    // The spots on the stack are not seen any more.
    fn forget(&mut self)
        requires marks { spots ≤ length self.old.fin.now }
        requires stack { self.old.height ≤ length self.old.st.now }
        requires on { (i : ℕ) → i < self.old.height → get_or self.old.st.now i 0 < spots }
        ensures lent { SameLent self.old self.new }
        ensures rest { ForgetsOnly self.old self.new }
        ensures gone { Forgotten self.old.st.now self.old.height self.old.fin.now self.new.fin.now }
    {
        for i in 0..self.height {
            let u = self.st[i] as usize;
            self.fin[u] = 0;
        }
    }

    // The part of the stack from the spot v on, to which its top leads. Nothing is on the stack any more.
    fn close(&mut self, rec: &[u8], v: usize) -> Ring
        requires { Meets rec.now self.old v }
        ensures lent { SameLent self.old self.new }
        ensures ring { RingLeft rec.now self.new result }
    {
        let n = self.height;
        let from = self.place(v);
        bare(self.sl, n);
        self.forget();
        self.height = 0;
        Ring {
            from,
            to: n,
            done: self.done,
        }
    }

    // All that r leads to, which is not seen.
    fn descend(&mut self, rec: &[u8], r: usize) -> Result<(), Ring>
        requires { AimedAt rec.now self.old r × (self.old.height ≡ 0) }
        ensures lent { SameLent self.old self.new }
        ensures searched { Searched rec.now (set self.old.fin.now r 1) self.new result }
    {
        let mut v = r;
        loop {
            self.enter(rec, v);
            match self.resume(rec) {
                Some(Met::New(w)) => {
                    v = w;
                }
                Some(Met::Hit(w)) => {
                    return Err(self.close(rec, w));
                }
                None => {
                    return Ok(());
                }
            }
        }
    }

    // All that r leads to.
    fn explore(&mut self, rec: &[u8], r: usize) -> Result<(), Ring>
        requires { Idle rec.now self.old × (r < spots) }
        ensures lent { SameLent self.old self.new }
        ensures searched { Searched rec.now (set self.old.fin.now r 1) self.new result }
    {
        if self.fin[r] != 0 {
            return Ok(());
        }
        self.descend(rec, r)
    }

    // All that the wires of the i-th load byte lead to.
    fn trace(&mut self, rec: &[u8], i: usize) -> Result<(), Ring>
        requires { Idle rec.now self.old × (i < 24000) }
        ensures lent { SameLent self.old self.new }
        ensures traced { Traced rec.now i self.old.fin.now self.new result }
    {
        let r = channel::origin(rec, i);
        if r >= 13128 {
            return Ok(());
        }
        self.explore(rec, r)
    }

    // All that the wires of the i-th load byte lead to if its link is fresh.
    fn trace_fresh(&mut self, rec: &[u8], old: &[u8], i: usize) -> Result<(), Ring>
        requires { Idle rec.now self.old × (32768 ≤ length old.now) × (i < 24000) }
        ensures lent { SameLent self.old self.new }
        ensures traced { FreshTraced old.now rec.now i (i + 1) self.old.fin.now self.new result }
    {
        if !channel::is_fresh(old, rec, i) {
            return Ok(());
        }
        self.trace(rec, i)
    }

    // All that the wires of the k-th 16 load bytes lead to on fresh links.
    fn trace_run(&mut self, rec: &[u8], old: &[u8], k: usize) -> Result<(), Ring>
        requires { Idle rec.now self.old × (32768 ≤ length old.now) × (k < 1500) }
        ensures lent { SameLent self.old self.new }
        ensures traced { FreshTraced old.now rec.now (16 * k) (16 * k + 16) self.old.fin.now self.new result }
    {
        if channel::stale_run(old, rec, k) {
            return Ok(());
        }
        for i in 16 * k..16 * k + 16 {
            self.trace_fresh(rec, old, i)?;
        }
        Ok(())
    }

    // All that the wires of all load bytes lead to on fresh links. The last bytes come first: they are those of the direct exits and the legs, so that whole
    // wires are followed.
    fn trace_all(&mut self, rec: &[u8], old: &[u8]) -> Result<(), Ring>
        requires { Idle rec.now self.old × (32768 ≤ length old.now) }
        ensures lent { SameLent self.old self.new }
        ensures traced { FreshTraced old.now rec.now 0 24000 self.old.fin.now self.new result }
    {
        for k in (0..1500).rev() {
            self.trace_run(rec, old, k)?;
        }
        Ok(())
    }
}

// Says that no chain of loaded darts behind the fresh links is closed, with fin as the order along which they fall; or gives one. With no closed chain in
// the old loads there is then none at all. m0 spots are done as it begins.
pub fn find(
    rec: &[u8],
    old: &[u8],
    fin: &mut [u16],
    st: &mut [u16],
    sl: &mut [u8],
    m0: usize,
) -> Option<Ring>
    requires { Dfs rec.now fin.old st.old sl.old 0 m0 × (32768 ≤ length old.now) }
    ensures { Answer old.now rec.now fin.new st.new sl.new result }
{
    let mut search = Search {
        fin,
        st,
        sl,
        height: 0,
        done: m0,
    };
    search.trace_all(rec, old).err()
}

// Whether a loop stands, in a record that is feasible. Beside loads that lead outward only the links are fresh along which wires go inward or round.
pub fn stands(rec: &[u8]) -> bool
    requires { 32768 ≤ length rec.now }
    ensures { LoopStands rec.now result }
{
    let mut old = [0u8; 32768];
    lead_outward(&mut old, rows(rec), columns(rec));
    let mut fin = [0u16; 13128];
    let mut st = [0u16; 13128];
    let mut sl = [0u8; 13128];
    find(rec, &old, &mut fin, &mut st, &mut sl, 0).is_some()
}
