// What a move leaves: by how much the move and the price of its head cost more than the price of its tail.
ghost use Rattle.std.specs.Prelude.{◌≡◌, ◌||◌, ◌-◌, ◌≤◌, ◌<◌, eqb, length, get_or};
ghost use Rattle.channel.specs.Map.Lengths.{length_of, back_length_of, dart_length};
ghost use Rattle.shortest.specs.Grow.{slack_of};

use channel::loads::bit;
use channel::{carried, reverse};

// Whether a dart of that row crosses a side.
fn crosses(i: usize) -> bool
    ensures { result ≡ (eqb i 16 || (eqb i 24 || (eqb i 32 || eqb i 40))) }
{
    (i == 16) | ((i == 24) | ((i == 32) | (i == 40)))
}

// What a dart counts, by its row of the table.
fn length_of(i: usize) -> usize
    ensures { (result ≡ length_of i) × (result < 25) }
{
    10 * bit(crosses(i)) + 14 * bit(i == 4)
}

// What its way back counts.
fn back_length_of(i: usize) -> usize
    ensures { (result ≡ back_length_of i) × (result < 25) }
{
    10 * bit(crosses(i)) + 14 * bit(i == 13)
}

// Whether a dart of that row counts, or its way back.
fn counts(i: usize) -> bool
    ensures { result ≡ ((eqb i 16 || (eqb i 24 || (eqb i 32 || eqb i 40))) || (eqb i 4 || eqb i 13)) }
{
    crosses(i) | ((i == 4) | (i == 13))
}

// A price as a number.
fn wide(x: u32) -> usize
    ensures { (result ≡ x) × (result < 4294967296) }
{
    x as usize
}

// b less a, or 0 where a is greater.
pub fn beyond(a: usize, b: usize) -> usize
    ensures { result ≡ b - a }
{
    if a < b {
        return b - a;
    }
    0
}

// What the move along d leaves. Where neither way counts it does not matter whether a wire goes the other way.
pub fn slack(loads: &[u8], prices: &[u32], d: usize) -> usize
    requires { (32768 ≤ length loads.now) × (13128 ≤ length prices.now) × (d < 105024) }
    ensures { result ≡ slack_of dart_length (λ u. get_or prices.now u 0) loads.now d }
{
    let e = reverse(d);
    let near = wide(prices[d / 8]);
    let far = wide(prices[e / 8]);
    if !counts(d % 64) {
        return beyond(near, far);
    }
    if carried(loads, e) != 0 {
        return beyond(near + back_length_of(d % 64), far);
    }
    beyond(near, far + length_of(d % 64))
}
