// First prices: 10 for each ring between a spot and the rim, and 14 more for the entry of a missing pin.
ghost use Rattle.std.specs.Prelude.{◌≡◌, ◌-◌, ◌+◌, ◌*◌, ◌≤◌, ◌<◌, length};
ghost use Rattle.sums.specs.Counting.{sum};
ghost use Rattle.model.specs.Record.{job_of};
ghost use Rattle.channel.specs.Map.{spots, want};
ghost use Rattle.shortest.specs.Rings.{least4};
ghost use Rattle.shortest.specs.FirstPrices.{kind_price, first_price};
ghost use Rattle.shortest.specs.FirstRow.{FirstRow};

use crate::slack::beyond;
use channel::{columns, is_outside, is_start, rows};

// How many tiles lie between the pin (r, c) and the rim, for k = 1, or between the tile (r, c) and the rim, for k = 2.
fn ring(job: &[u8], r: usize, c: usize, k: usize) -> usize
    requires { (32768 ≤ length job.now) × (r < 40) × (c < 40) × (k ≤ 2) }
    ensures { (result ≡ least4 r c ((job_of job.now).rows - (k + r)) ((job_of job.now).columns - (k + c))) × (result < 40) }
{
    let south = beyond(k + r, rows(job));
    let east = beyond(k + c, columns(job));
    r.min(c).min(south.min(east))
}

// The first price of a spot of the kind k at the cell (r, c).
fn kind_price(job: &[u8], k: usize, r: usize, c: usize) -> usize
    requires { (32768 ≤ length job.now) × (r < 40) × (c < 40) }
    ensures { (result ≡ kind_price (job_of job.now) k r c) × (result < 414) }
{
    if k == 0 {
        return 10 * ring(job, r, c, 1) + 14;
    }
    if k == 1 {
        return 10 * ring(job, r, c, 1);
    }
    10 * (ring(job, r, c, 2) + 1)
}

// The first price of a spot.
pub fn first_price(job: &[u8], u: usize) -> usize
    requires { (32768 ≤ length job.now) × (u < 13128) }
    ensures { (result ≡ first_price (job_of job.now) u) × (result < 414) }
{
    if is_outside(job, u) {
        return 0;
    }
    let x = beyond(41, u / 8);
    kind_price(job, u % 8, x / 40, x % 40)
}

// Every spot gets its first price.
pub fn first_prices(job: &[u8], prices: &mut [u32])
    requires { (32768 ≤ length job.now) × (spots ≤ length prices.old) }
    ensures { FirstRow (job_of job.now) spots prices.old prices.new }
{
    for (u, price) in prices[..13128].iter_mut().enumerate() {
        *price = first_price(job, u) as u32;
    }
}

// The first price of the spot, if a wire is to start there, else 0.
fn first_due(job: &[u8], u: usize) -> usize
    requires { (32768 ≤ length job.now) × (u < 13128) }
    ensures { (result ≡ first_price (job_of job.now) u * want (job_of job.now) u) × (result < 414) }
{
    if !is_start(job, u) {
        return 0;
    }
    first_price(job, u)
}

// The first prices of the chosen pins, all together.
pub fn first_total(job: &[u8]) -> usize
    requires { 32768 ≤ length job.now }
    ensures { result ≡ sum spots (λ u. first_price (job_of job.now) u * want (job_of job.now) u) }
{
    let mut n: usize = 0;
    for u in 0..13128 {
        n += first_due(job, u);
    }
    n
}
