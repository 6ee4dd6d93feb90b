// Advice on which spot and which pin is next. The spots in the queue that wait to be expanded stand on 128 lists by how far they are from the rim, first in,
// first out. Nothing is proved of what stands here: whatever it is, a spot that waits is taken, and no pin is left out.
//     0 to 127          the first spot of each list, 0 for none
//     128 to 255        the last spot of each list that has one
//     256 to 26,511     for each spot the next on its list and its place in the queue
//     26,512            the line from which the last wire was laid
//     26,513 to 28,153  for each cell what `rings` has of its tile, 0 for what was not asked yet,
//                       where the lists are long enough for it
ghost use Rattle.std.specs.Prelude.{◌≡◌, ℕ, ◌%◌, ◌≤◌, ◌<◌, length, get_or};
ghost use Rattle.augment.specs.Work.{SameLent, ListsOnly, Exchanged};

use crate::work::Work;
use channel::{columns, rows};

// How many of n follow the r-th.
fn beyond(n: usize, r: usize) -> usize {
    n.saturating_sub(r).saturating_sub(1)
}

// 0 for a place that faces the nearest rim, 2 for one that faces away from it, else 1.
fn facing(near: bool, far: bool) -> usize
    ensures { result < 3 }
{
    if near {
        return 0;
    }
    if far {
        return 2;
    }
    1
}

// The ring of the tile x, 32,768 more, with how its n, e, s and w stand to the nearest rim, two bits each.
fn rings(n: usize, m: usize, x: usize) -> usize
    requires { (41 ≤ x) × (x < 1641) }
    ensures { result < 65536 }
{
    let r = (x - 41) / 40;
    let c = (x - 41) % 40;
    let y = beyond(n, r + 1);
    let z = beyond(m, c + 1);
    let g = r.min(c).min(y).min(z);
    let north = facing(r == g, y == g);
    let east = facing(z == g, c == g);
    let south = facing(y == g, r == g);
    let west = facing(c == g, z == g);
    32768 + 256 * g + north + 4 * east + 16 * south + 64 * west
}

// The same, from the lists where it was asked before.
fn ring_at(lists: &mut [u16], n: usize, m: usize, x: usize) -> usize
    requires { (41 ≤ x) × (x < 1641) }
    ensures { result < 65536 }
{
    if lists.len() <= 26513 + x {
        return rings(n, m, x);
    }
    let e = usize::from(lists[26513 + x]);
    if e != 0 {
        return e;
    }
    let f = rings(n, m, x);
    lists[26513 + x] = f as u16;
    f
}

// How far the pin's spot u is from the rim.
fn pin_level(n: usize, m: usize, u: usize) -> usize
    requires { (328 ≤ u) × (u < 13128) × (u % 8 < 2) }
    ensures { result < 128 }
{
    let r = (u - 328) / 320;
    let c = (u - 328) % 320 / 8;
    3 * r.min(c).min(beyond(n, r)).min(beyond(m, c)) + 1 - u % 8
}

// How far the spot u is from the rim of n rows and m columns of pins: three levels for each ring.
fn level(lists: &mut [u16], n: usize, m: usize, u: usize) -> usize
    requires { u < 13128 }
    ensures { result < 128 }
{
    if u < 328 {
        return 0;
    }
    let k = u % 8;
    if k < 2 {
        return pin_level(n, m, u);
    }
    let e = ring_at(lists, n, m, u / 8);
    let g = e / 256 % 128;
    if 5 < k {
        return (3 * g + 8 - k).min(127);
    }
    (3 * g + (e >> (2 * (k - 2))) % 4).min(127)
}

// Every list is empty.
pub fn no_lists(lists: &mut [u16])
    requires { 26513 ≤ length lists.old }
{
    for head in &mut lists[..128] {
        *head = 0;
    }
}

// Where the next spot of the list l is to be put: at its head if it has none, else behind its last.
fn end(lists: &[u16], l: usize) -> usize
    requires { (26513 ≤ length lists.now) × (l < 128) }
    ensures { result < 26513 }
{
    if lists[l] == 0 {
        return l;
    }
    256 + 2 * usize::from(lists[128 + l]).min(13127)
}

// The spot u, which is the i-th in the queue, on the list l.
fn put(lists: &mut [u16], l: usize, u: usize, i: usize)
    requires { (26513 ≤ length lists.old) × (l < 128) × (u < 13128) × (i < 13128) }
{
    let x = end(lists, l);
    lists[x] = u as u16;
    lists[128 + l] = u as u16;
    lists[256 + 2 * u] = 0;
    lists[257 + 2 * u] = i as u16;
}

// The place in the queue of the first spot of the list l, which leaves the list; the h-th where that is none of those that wait.
pub fn take(lists: &mut [u16], l: usize, h: usize, n: usize) -> usize
    requires { (26513 ≤ length lists.old) × (h < n) }
    ensures { (h ≤ result) × (result < n) }
{
    if 128 <= l {
        return h;
    }
    let u = usize::from(lists[l]);
    if 13128 <= u {
        return h;
    }
    let i = usize::from(lists[257 + 2 * u]);
    lists[l] = lists[256 + 2 * u];
    if i < h {
        return h;
    }
    if n <= i {
        return h;
    }
    i
}

impl<'a> Work<'a> {
    // The spots from the a-th to before the n-th in the queue on their lists; the lowest of these lists and low. A search with so many spots is likely to come
    // to all that it can reach, so that their order does not matter: it keeps no lists any more.
    pub(crate) fn enlist(&mut self, job: &[u8], a: usize, n: usize, low: usize) -> usize
        requires job { 32768 ≤ length job.now }
        requires lists { 26513 ≤ length self.old.lists.now }
        requires count { (n ≤ 13128) × (n ≤ length self.old.queue.now) }
        requires spots { (i : ℕ) → i < n → get_or self.old.queue.now i 0 < 13128 }
        ensures lent { SameLent self.old self.new }
        ensures rest { ListsOnly self.old self.new }
    {
        if 6144 <= a {
            return 128;
        }
        let r = rows(job);
        let c = columns(job);
        let mut b = low;
        for i in a..n {
            let u = usize::from(self.queue[i]);
            let l = level(self.lists, r, c, u);
            put(self.lists, l, u, i);
            b = b.min(l);
        }
        b
    }

    // The first list from low on that is not empty, or 128.
    pub(crate) fn first(&self, low: usize) -> usize
        requires { 26513 ≤ length self.now.lists.now }
    {
        for l in low..128 {
            if self.lists[l] != 0 {
                return l;
            }
        }
        128
    }

    // The h-th and the i-th in the queue change places.
    pub(crate) fn exchange(&mut self, h: usize, i: usize)
        requires queue { (h < length self.old.queue.now) × (i < length self.old.queue.now) }
        requires parent { (h < length self.old.parent.now) × (i < length self.old.parent.now) }
        requires slot { (h < length self.old.slot.now) × (i < length self.old.slot.now) }
        requires lists { 26513 ≤ length self.old.lists.now }
        requires spots { (get_or self.old.queue.now h 0 < 13128) × (i < 13128) }
        ensures lent { SameLent self.old self.new }
        ensures exchanged { Exchanged h i self.old self.new }
    {
        if i == h {
            return;
        }
        let u = usize::from(self.queue[h]);
        self.queue.swap(h, i);
        self.parent.swap(h, i);
        self.slot.swap(h, i);
        self.lists[257 + 2 * u] = i as u16;
    }

    // The line from which the last wire was laid, or n if that is less.
    pub(crate) fn last_line(&self, n: usize) -> usize
        requires { 26513 ≤ length self.now.lists.now }
        ensures { result ≤ n }
    {
        usize::from(self.lists[26512]).min(n)
    }
}

// A wire is laid from the i-th line.
pub fn note_line(lists: &mut [u16], i: usize)
    requires { (26513 ≤ length lists.old) × (i < 65536) }
{
    lists[26512] = i as u16;
}
