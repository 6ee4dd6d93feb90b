// The limits of a job's network: which steps may be taken, how many wires a dart takes, and which darts take any number.
ghost use Rattle.std.specs.Prelude.{◌≡◌, ◌||◌, ◌/◌, ◌%◌, ◌≤◌, ◌<◌, T, eqb, length, get_or};
ghost use Rattle.model.specs.Job.{centre_limit, tile_d, extra_limit};
ghost use Rattle.model.specs.Links.{is_place, north_side, direct, go, ahead_of, limit_of, may};
ghost use Rattle.model.specs.Near.{size};
ghost use Rattle.model.specs.Record.{kinds, job_of};
ghost use Rattle.channel.specs.Map.{row_of, column_of, cap, free, kind_of, code_of, may_take, reaches, owner_mark};

use crate::header::{
    clear_in, columns, diagonal_at, extra, is_chosen, mark_at, open_at, open_in, orthogonal, rows,
    wide,
};
use crate::table::{kind_of, owner_of};

// Whether one may go straight out of the pin (r, c): it is chosen and on the rim.
pub fn may_leave(job: &[u8], r: usize, c: usize) -> bool
    requires { (32768 ≤ length job.now) × (r < 40) × (c < 40) }
    ensures { result ≡ may (job_of job.now) (go direct r c) }
{
    let rim = (r == 0) | (r + 1 == rows(job)) | (c == 0) | (c + 1 == columns(job));
    is_chosen(job, r, c) & rim
}

// Whether the step of a side's dart may be taken: its own tile is open, and the tile across is open or no tile. Over the rim no tile lies across: the last
// column of a row and the first of the next are no neighbours.
fn side_way(job: &[u8], d: usize) -> bool
    requires { (32768 ≤ length job.now) × (d < 105024) × (code_of (d % 64) ≡ 1) }
    ensures { result ≡ may_take (job_of job.now) d }
{
    let x = d / 64;
    if x < 41 {
        return false;
    }
    // the cell across, 40 more
    let y = x + (0x2750_2900_0000 >> (d / 8 % 8 * 8)) % 256;
    let c = (x - 41) % 40;
    let e = (y - 41) % 40;
    let own = open_in(job, (x - 41) / 40, c);
    if y < 81 {
        return own;
    }
    if c + 1 < e {
        return own;
    }
    if y >= 1681 {
        return false;
    }
    if e + 1 < c {
        return false;
    }
    own & clear_in(job, (y - 81) / 40, e)
}

// Whether the leg of kind k leads from the pin (r, c) into an open tile.
pub fn leg_open(job: &[u8], k: usize, r: usize, c: usize) -> bool
    requires { (32768 ≤ length job.now) × (10 ≤ k) × (k < 14) × (r < 40) × (c < 40) }
    ensures { result ≡ is_place (job_of job.now) (ahead_of (job_of job.now) (get_or kinds k north_side) r c) }
{
    if k == 11 {
        return open_in(job, r, c);
    }
    if k == 12 {
        if c == 0 {
            return false;
        }
        return open_in(job, r, c - 1);
    }
    if r == 0 {
        return false;
    }
    if k == 10 {
        return open_in(job, r - 1, c);
    }
    if c == 0 {
        return false;
    }
    open_in(job, r - 1, c - 1)
}

// Whether the leg of a pin's dart leads into an open tile.
pub fn leg_way(job: &[u8], d: usize) -> bool
    requires { (32768 ≤ length job.now) × (d < 105024) × (10 ≤ kind_of (d % 64)) × (kind_of (d % 64) < 14) }
    ensures { result ≡ reaches (job_of job.now) d }
{
    let i = d % 64;
    let o = d / 64 + owner_of(i);
    if o < 41 {
        return false;
    }
    if o >= 1641 {
        return false;
    }
    leg_open(job, kind_of(i), (o - 41) / 40, (o - 41) % 40)
}

// The mark of the pin that a dart's leg belongs to.
pub fn leg_mark(job: &[u8], d: usize) -> usize
    requires { (32768 ≤ length job.now) × (d < 105024) }
    ensures { result ≡ owner_mark (job_of job.now) d }
{
    mark_at(job, d / 64 + owner_of(d % 64))
}

// How many wires a side of the cell x takes at most, O less those already laid: its north side for k = 0, its west side for k = 1.
pub fn side_most(job: &[u8], k: usize, x: usize) -> usize
    requires { (32768 ≤ length job.now) × (k < 2) × (41 ≤ x) × (x < 1641) }
    ensures { (result ≡ size (limit_of (job_of job.now) (get_or kinds k north_side) (row_of x) (column_of x))) × (result < 256) }
{
    orthogonal(job).saturating_sub(wide(job[27927 + 1600 * k + x]))
}

// The limit of a side's dart.
pub fn side_limit(job: &[u8], d: usize) -> usize
    requires { (32768 ≤ length job.now) × (d < 105024) × (code_of (d % 64) ≡ 1) }
    ensures { result ≡ cap (job_of job.now) d }
{
    if !side_way(job, d) {
        return 0;
    }
    let k = kind_of(d % 64);
    let x = d / 64 + owner_of(d % 64);
    side_most(job, k, x)
}

// The limit of a corner's dart.
pub fn corner_limit(job: &[u8], d: usize) -> usize
    requires { (32768 ≤ length job.now) × (d < 105024) × (code_of (d % 64) ≡ 2) }
    ensures { result ≡ cap (job_of job.now) d }
{
    if open_at(job, d / 64) {
        return orthogonal(job) / 2;
    }
    0
}

// How many wires pass the centre of the cell x at most.
pub fn centre_most(job: &[u8], x: usize) -> usize
    requires { (32768 ≤ length job.now) × (41 ≤ x) × (x < 1641) }
    ensures { (result ≡ centre_limit (job_of job.now).O (tile_d (job_of job.now) (row_of x) (column_of x))) × (result < 256) }
{
    diagonal_at(job, x).saturating_sub(2 * (orthogonal(job) / 2))
}

// How many wires pass a missing pin at most.
pub fn missing_most(job: &[u8]) -> usize
    requires { 32768 ≤ length job.now }
    ensures { (result ≡ extra_limit (job_of job.now)) × (result < 256) }
{
    extra(job)
}

// The limit of a dart along or against a direct exit.
pub fn direct_limit(job: &[u8], d: usize) -> usize
    requires { (32768 ≤ length job.now) × (d < 105024) × (code_of (d % 64) ≡ 15) }
    ensures { result ≡ cap (job_of job.now) d }
{
    if d % 64 != 12 {
        return 0;
    }
    let x = d / 64;
    if x < 41 {
        return 0;
    }
    if may_leave(job, (x - 41) / 40, (x - 41) % 40) {
        return 1;
    }
    0
}

// Whether a dart to or from a centre takes any number of wires.
pub fn centre_free(job: &[u8], d: usize) -> bool
    requires { (32768 ≤ length job.now) × (d < 105024) × T (eqb (code_of (d % 64)) 3 || eqb (code_of (d % 64)) 4) }
    ensures { result ≡ free (job_of job.now) d }
{
    open_at(job, d / 64)
}

// Whether a dart to or from a pin does.
pub fn pin_free(job: &[u8], d: usize) -> bool
    requires { (32768 ≤ length job.now) × (d < 105024) × T (eqb (code_of (d % 64)) 6 || eqb (code_of (d % 64)) 7) }
    ensures { result ≡ free (job_of job.now) d }
{
    if leg_mark(job, d) != 2 {
        return false;
    }
    leg_way(job, d)
}
