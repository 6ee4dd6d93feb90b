// The diagonal count: the largest k with (k×(w+s) + s + d) squared at most 2×p×p.
ghost use Rattle.std.specs.Prelude.{◌≡◌, ◌+◌, ◌*◌, ◌≤◌};
ghost use Rattle.rules.specs.Rules.{across, Largest};
ghost use Rattle.rules.specs.Ranges.{Ranges};

// (k×(w+s) + s + d) squared.
pub fn square(d: u64, w: u64, s: u64, k: u64) -> u64
    requires { (w + s ≤ 200000) × (across d w s k ≤ 600000) }
    ensures { result ≡ across d w s k * across d w s k }
{
    let width = k * (w + s) + s + d;
    width * width
}

// By bisection: at each turn k passes and `over` does not, and `over` is at most 2×p / (w+s) + 1.
pub fn largest(p: u64, d: u64, w: u64, s: u64) -> u64
    requires { Ranges p d w s × (d + s ≤ p) }
    ensures { Largest p d w s result × (across d w s result ≤ 600000) }
{
    let whole = 2 * p * p;
    let mut k = 0;
    let mut over = 2 * p / (w + s) + 1;
    while k + 1 < over {
        let mid = (k + over) / 2;
        if square(d, w, s, mid) <= whole {
            k = mid;
        } else {
            over = mid;
        }
    }
    over - 1
}
