// How long the wires of a record are, all together: read off the bytes of sides and legs, plane after plane, so that loops of sums can be made ones of
// vectors. No wire is followed.
ghost use Rattle.std.specs.Prelude.{◌≡◌, ℕ, ◌+◌, ◌*◌, ◌≤◌, ◌<◌, length, get_or};
ghost use Rattle.sums.specs.Counting.{sum};
ghost use Rattle.model.specs.Length.{held_length};
ghost use Rattle.model.specs.Record.{forth_part, back_part, job_of, load, Legal};
ghost use Rattle.wire.specs.Total.{on_sides, to_pins};

// How many wires a load byte has, whichever way they go.
fn both_ways(b: u8) -> u8
    ensures { result ≡ forth_part b + back_part b }
{
    if b < 32 { b } else { b - 32 }
}

// How many it has against its link's positive way.
fn one_back(b: u8) -> u8
    ensures { result ≡ back_part b }
{
    if b < 32 { 0 } else { b - 32 }
}

// How many wires some load bytes have together, where `part` tells how many of a byte count.
fn total_of<P: Fn(u8) -> u8>(bytes: &[u8], part: P) -> usize
    requires { (length bytes.now ≤ 6400) × P.IsAlwaysCallable part }
    ensures total { (count : ℕ → ℕ) → ((b n : ℕ) → P.post part b n → n ≡ count b)
        → result ≡ sum (length bytes.now) (λ i. count (get_or bytes.now i 0)) }
    ensures most { result ≤ 255 * length bytes.now }
{
    let mut n: usize = 0;
    for b in bytes {
        n += usize::from(part(*b));
    }
    n
}

// How many wires there are on sides, each side by itself.
fn on_sides(rec: &[u8]) -> usize
    requires { 32768 ≤ length rec.now }
    ensures { (result ≡ on_sides rec.now 3200) × (result < 819200) }
{
    total_of(&rec[3968..7168], both_ways)
}

// How many wires come to missing pins: to no other pin does one come.
fn to_missing(rec: &[u8]) -> usize
    requires { 32768 ≤ length rec.now }
    ensures { (result ≡ to_pins rec.now 6400) × (result < 1638400) }
{
    total_of(&rec[19968..26368], one_back)
}

// The total length of the wires of a legal record.
pub fn total_length(rec: &[u8]) -> usize
    requires { Legal rec.now }
    ensures { (result ≡ held_length (job_of rec.now) (load rec.now)) × (result ≤ 614400) }
{
    10 * on_sides(rec) + 14 * to_missing(rec)
}
