// The partner of a lane round a place. A place has at most five links, in clockwise order: slots 0 to 4. The partner of an arriving lane is a departing one, by document 01's rounds: in the sequence of ends round
// the place the first neighbouring arrival and departure are joined and struck out, until nothing is left. docs/PAIRING.md has the steps beside the paper's.
#![tactic(auto)]

ghost use Rattle.std.specs.Prelude.{◌≡◌, ◌++◌, ◌+◌, ◌*◌, ◌-◌, ◌≤◌, ◌<◌, length, take, get_or};
ghost use Rattle.std.proofs.Math.Option.{none};
ghost use Rattle.sums.specs.Counting.{sum};
ghost use Rattle.model.specs.Pairing.{range, strike, pairs_of, partner_in};
ghost use Rattle.pairing.specs.Perfect.{Even};
ghost use Rattle.pairing.specs.Slots.{start};
ghost use Rattle.pairing.specs.Sequence.{end_of, link_end, slot_of, lane_of, arriving, as_pairs, Blank, Laid, Differs};
ghost use Rattle.pairing.specs.Struck.{as_struck, Below, Resumes};
ghost use Rattle.pairing.specs.Answer.{lanes, partner_of, LaneAt, Partner, Arrival};

// A lane of the link of a slot.
#[derive(Clone, Copy, Debug, PartialEq, Eq)]
pub struct Lane {
    pub slot: usize,
    pub lane: usize,
}

// How many lanes arrive and depart on the link of each slot, 0 where there is no link.
#[derive(Clone, Copy)]
pub struct Lanes {
    pub arrive: [u8; 5],
    pub depart: [u8; 5],
}

// The positions of two ends that are joined.
#[derive(Clone, Copy)]
struct Pair {
    fst: u8,
    snd: u8,
}

// What a round joins, and how many ends are left before the pair.
#[derive(Clone, Copy)]
struct Join {
    pair: Pair,
    before: usize,
}

// How many lanes there are at slot k; 0 past the last slot.
fn lanes_at(counts: &[u8; 5], k: usize) -> usize
    ensures { (result ≡ lanes counts.now k) × (result < 256) }
{
    if k < 5 {
        return usize::from(counts[k]);
    }
    0
}

// The position at which slot k starts.
fn start_of(around: &Lanes, k: usize) -> usize
    requires { k ≤ 5 }
    ensures { (result ≡ start (lanes around.now.arrive) (lanes around.now.depart) k) × (result ≤ 510 * k) }
{
    let mut n: usize = 0;
    for j in 0..k {
        n += lanes_at(&around.arrive, j) + lanes_at(&around.depart, j);
    }
    n
}

// An end, a lane of the link of a slot that arrives (1) or departs (0), as one number.
fn end(slot: usize, lane: usize, arrives: usize) -> u16
    requires { (slot < 5) × (lane < 256) × (arrives < 2) }
    ensures { result ≡ end_of slot lane arrives }
{
    (512 * slot + 2 * lane + arrives) as u16
}

// The i-th end of the link of a slot on which `come` lanes arrive: arriving lanes in falling order, then departing ones in rising order.
fn link_end(slot: usize, come: usize, i: usize) -> u16
    requires { (slot < 5) × (come < 256) × (i < come + 256) }
    ensures { result ≡ link_end slot come i }
{
    if i < come {
        return end(slot, come - 1 - i, 1);
    }
    end(slot, i - come, 0)
}

// Lays the ends of the link of a slot from a position on. Gives the next position.
fn lay_link(around: &Lanes, slot: usize, from: usize, ends: &mut [u16]) -> usize
    requires slot_bound { (slot < 5) × (from ≡ start (lanes around.now.arrive) (lanes around.now.depart) slot) × (155 ≤ length ends.old) }
    requires depart_bound { (start (lanes around.now.arrive) (lanes around.now.depart) 5 ≤ 155) × Laid (lanes around.now.arrive) (lanes around.now.depart) from ends.old }
    ensures value { result ≡ start (lanes around.now.arrive) (lanes around.now.depart) (slot + 1) }
    ensures laid { Laid (lanes around.now.arrive) (lanes around.now.depart) result ends.new }
{
    let come = lanes_at(&around.arrive, slot);
    let all = come + lanes_at(&around.depart, slot);
    for i in 0..all {
        ends[from + i] = link_end(slot, come, i);
    }
    from + all
}

// Lays the sequence of ends round the place, link by link. Gives its length.
fn lay(around: &Lanes, ends: &mut [u16]) -> usize
    requires { Blank ends.old × (155 ≤ length ends.old) × (start (lanes around.now.arrive) (lanes around.now.depart) 5 ≤ 155) }
    ensures value { result ≡ start (lanes around.now.arrive) (lanes around.now.depart) 5 }
    ensures laid { Laid (lanes around.now.arrive) (lanes around.now.depart) result ends.new }
{
    let mut n: usize = 0;
    for k in 0..5 {
        n = lay_link(around, k, n, ends);
    }
    n
}

// Whether the end at a position arrives.
fn arrives_at(ends: &[u16], p: usize) -> bool
    requires { p < length ends.now }
    ensures { result ≡ arriving ends.now p }
{
    ends[p] % 2 == 1
}

// Whether one of two neighbours arrives and the other departs: the last of the first i positions that are left, and p. False where none is left before p.
fn differs(ends: &[u16], left: &[u8], i: usize, p: usize) -> bool
    requires { (i ≤ length left.now) × (p < length ends.now) × Below (length ends.now) left.now i }
    ensures { Differs (arriving ends.now) left.now i p result }
{
    if i == 0 {
        return false;
    }
    arrives_at(ends, usize::from(left[i - 1])) != arrives_at(ends, p)
}

// A round. Left are the first `passed` positions in `left` and all from `next` up to n; no arrival and departure are neighbours among those passed. It goes
// on past neighbours of one kind to the first arrival and departure, joins these and strikes both out: left are those before and those after them.
fn round(ends: &[u16], left: &mut [u8], passed: usize, next: usize, n: usize) -> Option<Join>
    requires passed_le_next { (passed ≤ next) × (next ≤ n) × (n ≤ 155) × (n ≤ length left.old) × (n ≤ length ends.now) }
    requires below { Below n left.old passed × (strike (arriving ends.now) (take passed left.old) ≡ none) }
    ensures left_after { as_struck n result left.new ≡ strike (arriving ends.now) (take passed left.old ++ range next (n - next)) }
    ensures resumes { Resumes (arriving ends.now) passed next n result left.new }
{
    let mut i = passed;
    for p in next..n {
        if differs(ends, left, i, p) {
            return Some(Join {
                pair: Pair {
                    fst: left[i - 1],
                    snd: p as u8,
                },
                before: i - 1,
            });
        }
        left[i] = p as u8;
        i += 1;
    }
    None
}

// Rounds until nothing is left to join: the pairs in the order in which they are joined. Gives their number; where as many lanes arrive as depart, no
// position is left. Each round begins where the last one struck out: what is left before that has no arrival beside a departure.
fn join_all(ends: &[u16], n: usize, pairs: &mut [Pair]) -> usize
    requires { (n ≤ 155) × (n ≤ length ends.now) × (n ≤ 2 * length pairs.old) }
    ensures pairs_after { as_pairs (take result pairs.new) ≡ pairs_of (arriving ends.now) n }
    ensures result_value { (Even (arriving ends.now) n → 2 * result ≡ n) × (result ≤ length pairs.old) }
{
    let mut left = [0u8; 155];
    let mut passed: usize = 0;
    let mut next: usize = 0;
    let mut m: usize = 0;
    while next < n {
        let Some(join) = round(ends, &mut left, passed, next, n) else {
            return m;
        };
        pairs[m] = join.pair;
        m += 1;
        passed = join.before;
        next = usize::from(join.pair.snd) + 1;
    }
    m
}

// The other position of the pair that has p; p where none has it.
fn other_end(pairs: &[Pair], p: usize) -> usize
    ensures { result ≡ partner_in (as_pairs pairs.now) p }
{
    for pair in pairs {
        if p == usize::from(pair.fst) {
            return usize::from(pair.snd);
        }
        if p == usize::from(pair.snd) {
            return usize::from(pair.fst);
        }
    }
    p
}

// The lane of the end at a position; of slot 0 past the last end.
fn lane_at(ends: &[u16], p: usize) -> Lane
    ensures { (result.slot ≡ slot_of (get_or ends.now p 0)) × (result.lane ≡ lane_of (get_or ends.now p 0)) }
{
    if p < ends.len() {
        let e = usize::from(ends[p]);
        return Lane {
            slot: e / 512,
            lane: e % 512 / 2,
        };
    }
    Lane { slot: 0, lane: 0 }
}

// The lane that is joined with the one at the position p, where as many lanes arrive as depart. At most 31 wires are on a link: a place has at most 155 ends.
fn joined(around: &Lanes, p: usize) -> Lane
    requires { (p < start (lanes around.now.arrive) (lanes around.now.depart) 5) × (start (lanes around.now.arrive) (lanes around.now.depart) 5 ≤ 155) }
    ensures { sum 5 (lanes around.now.arrive) ≡ sum 5 (lanes around.now.depart)
        → LaneAt (lanes around.now.arrive) (lanes around.now.depart) (partner_of (lanes around.now.arrive) (lanes around.now.depart) 5 p) result.slot result.lane }
{
    let mut ends = [0u16; 155];
    let n = lay(around, &mut ends);
    let mut pairs = [Pair { fst: 0, snd: 0 }; 78];
    let m = join_all(&ends, n, &mut pairs);
    lane_at(&ends, other_end(&pairs[..m], p))
}

// The partner of an arriving lane.
pub fn partner(around: &Lanes, lane: Lane) -> Lane
    requires { (lane.slot < 5) × (lane.lane < lanes around.now.arrive lane.slot) × (start (lanes around.now.arrive) (lanes around.now.depart) 5 ≤ 155) }
    ensures { sum 5 (lanes around.now.arrive) ≡ sum 5 (lanes around.now.depart)
        → Partner (lanes around.now.arrive) (lanes around.now.depart) lane.slot lane.lane result.slot result.lane }
{
    joined(
        around,
        start_of(around, lane.slot) + (lanes_at(&around.arrive, lane.slot) - 1 - lane.lane),
    )
}

// The arriving lane whose partner a departing lane is.
pub fn partner_back(around: &Lanes, lane: Lane) -> Lane
    requires { (lane.slot < 5) × (lane.lane < lanes around.now.depart lane.slot) × (start (lanes around.now.arrive) (lanes around.now.depart) 5 ≤ 155) }
    ensures { sum 5 (lanes around.now.arrive) ≡ sum 5 (lanes around.now.depart)
        → Arrival (lanes around.now.arrive) (lanes around.now.depart) lane.slot lane.lane result.slot result.lane }
{
    joined(
        around,
        start_of(around, lane.slot) + (lanes_at(&around.arrive, lane.slot) + lane.lane),
    )
}
