// Laying the way that a search found, and taking its marks back.
ghost use Rattle.augment.specs.Ways.{Linked, LaidTo};
ghost use Rattle.augment.specs.Marks.{Listed, Unmarked};

use channel::lay;

// Slot k of the j-th spot in the queue, and then back to the first.
pub fn lay_way(loads: &mut [u8], queue: &[u16], parent: &[u16], slot: &[u8], j: usize, k: usize)
    requires { Linked loads.old queue.now parent.now slot.now j k }
    ensures { LaidTo queue.now parent.now slot.now j k 0 loads.old loads.new }
{
    lay(loads, 8 * (queue[j] as usize) + k);
    let mut i = j;
    while 0 < i {
        let p = parent[i] as usize;
        let m = slot[i] as usize;
        lay(loads, 8 * (queue[p] as usize) + m);
        i = p;
    }
}

// The first n spots in the queue are not marked any more.
pub fn unmark(marks: &mut [u8], queue: &[u16], n: usize)
    requires { Listed marks.old queue.now n }
    ensures { Unmarked queue.now n marks.old marks.new }
{
    for u in &queue[..n] {
        marks[*u as usize] = 0;
    }
}
