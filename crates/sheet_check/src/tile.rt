// What an open tile carries where O is 2, by trying every load of its corners: −1, 0 or 1, for each corner holds one wire. They settle the spokes, and the centre
// passes what comes to it by them. An amount that enters n, e, s or w is written 2 more than it is.
ghost use Rattle.std.specs.Prelude.{◌+◌, ◌<◌};

// How far a is over b.
pub fn over(a: usize, b: usize) -> usize
    ensures { result < a + 1 }
{
    if a > b { a - b } else { 0 }
}

// The load of a corner in the trial i, 1 more than it is: the digit of i, in base 3, at this weight.
fn corner(i: usize, weight: usize) -> usize
    ensures { result < 3 }
{
    if weight == 0 {
        return 0;
    }
    let digit = i / weight % 3;
    if digit < 3 { digit } else { 0 }
}

// What the centre passes in the trial i. The loads run from n to e, to s, to w and to n.
fn passage(n: usize, e: usize, s: usize, w: usize, i: usize) -> usize
    requires { (n < 600) × (e < 600) × (s < 600) × (w < 600) }
    ensures { result < 3000 }
{
    let ne = corner(i, 1);
    let es = corner(i, 3);
    let sw = corner(i, 9);
    let wn = corner(i, 27);
    let north = over(n + wn, ne + 2);
    let east = over(e + ne, es + 2);
    let south = over(s + es, sw + 2);
    let west = over(w + sw, wn + 2);
    north + east + south + west
}

fn lesser(a: usize, b: usize) -> usize
    ensures { result < a + 1 }
{
    if b < a { b } else { a }
}

// The least that the centre passes in any trial; 9999 where not as much leaves the tile as enters it.
pub fn least_passage(n: usize, e: usize, s: usize, w: usize) -> usize
    requires { (n < 600) × (e < 600) × (s < 600) × (w < 600) }
    ensures { result < 10000 }
{
    if n + e + s + w != 8 {
        return 9999;
    }
    let mut least = 9999;
    for i in 0..81 {
        least = lesser(least, passage(n, e, s, w, i));
    }
    least
}
