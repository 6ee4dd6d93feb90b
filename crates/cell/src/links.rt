// The bytes of a cell's 15 links, each held against the room that there is along its link and against it.
ghost use Rattle.std.specs.Prelude.{◌≡◌, ◌&&◌, ◌≤◌, ◌<◌, T, length, get_or};
ghost use Rattle.sums.specs.Counting.{when};
ghost use Rattle.model.specs.Job.{caps_fit};
ghost use Rattle.model.specs.Links.{north_side, direct, limit_of};
ghost use Rattle.model.specs.Near.{size};
ghost use Rattle.model.specs.Record.{kinds, job_of, cell};
ghost use Rattle.channel.specs.Map.{row_of, column_of};
ghost use Rattle.cell.specs.Cell.{fits, leaving, link_fits, sides_fit, four_fit, corners_fit, spokes_fit, legs_fit};
ghost use Rattle.cell.specs.Cell.Grid.{Pins, Tiles, open_in, clear_in};

use crate::grid::{byte, clear_at, open_at};
use channel::limits::side_most;
use channel::orthogonal;

// n where the test holds, else 0.
pub fn held(test: bool, n: u8) -> u8
    ensures { (result ≡ when test n) × (result ≤ n) }
{
    if test { n } else { 0 }
}

// Whether a byte has no more wires than may go along its link, and against it.
fn has_room(b: u8, forth: u8, back: u8) -> bool
    requires { back < 32 }
    ensures { result ≡ fits b forth back }
{
    (b <= forth) | ((32 < b) & (b <= 32 + back))
}

// How many wires may go over a side of the tile x: its north side for k = 0, its west side for k = 1.
fn side_room(rec: &[u8], k: usize, x: usize) -> u8
    requires { (32768 ≤ length rec.now) × (k < 2) × (41 ≤ x) × (x < 1641) × T (caps_fit (job_of rec.now).O (job_of rec.now).D (job_of rec.now).E) }
    ensures { (result ≡ size (limit_of (job_of rec.now) (get_or kinds k north_side) (row_of x) (column_of x))) × (result < 32) }
{
    side_most(rec, k, x) as u8
}

// Whether a wire may go from the tile x over a side to y.
fn crosses(rec: &[u8], tile: &[bool; 1641], x: usize, y: usize) -> bool
    requires { (32768 ≤ length rec.now) × (x < 1641) × (y < 1641) × Tiles rec.now tile.now }
    ensures { result ≡ (open_in (job_of rec.now) x && clear_in (job_of rec.now) y) }
{
    open_at(rec, tile, x) & clear_at(rec, tile, y)
}

// Whether the byte of a side that leads from x to y and takes `most` wires is in order.
fn side_fits(rec: &[u8], tile: &[bool; 1641], b: u8, most: u8, x: usize, y: usize) -> bool
    requires { (32768 ≤ length rec.now) × (most < 32) × (x < 1641) × (y < 1641) × Tiles rec.now tile.now }
    ensures { result ≡ fits b (when (open_in (job_of rec.now) x && clear_in (job_of rec.now) y) most)
        (when (open_in (job_of rec.now) y && clear_in (job_of rec.now) x) most) }
{
    has_room(
        b,
        held(crosses(rec, tile, x, y), most),
        held(crosses(rec, tile, y, x), most),
    )
}

// Whether the bytes of the tile's north and west side are in order.
pub fn sides(rec: &[u8], tile: &[bool; 1641], x: usize) -> bool
    requires in_bounds { (32768 ≤ length rec.now) × (41 ≤ x) × (x < 1641) × Tiles rec.now tile.now }
    requires t { T (caps_fit (job_of rec.now).O (job_of rec.now).D (job_of rec.now).E) }
    ensures { result ≡ sides_fit rec.now (row_of x) (column_of x) }
{
    let north = side_fits(rec, tile, byte(rec, 2, x), side_room(rec, 0, x), x, x - 40);
    let west = side_fits(rec, tile, byte(rec, 3, x), side_room(rec, 1, x), x - 1, x);
    north & west
}

// Whether the bytes of four planes from p on are, in an open tile with the same room everywhere.
fn four_fit(rec: &[u8], tile: &[bool; 1641], p: usize, x: usize, most: u8) -> bool
    requires { (32768 ≤ length rec.now) × (p < 13) × (41 ≤ x) × (x < 1641) × (most < 32) × Tiles rec.now tile.now }
    ensures { result ≡ four_fit rec.now p (row_of x) (column_of x) most }
{
    let room = held(open_at(rec, tile, x), most);
    let n = has_room(byte(rec, p, x), room, room);
    let e = has_room(byte(rec, p + 1, x), room, room);
    let s = has_room(byte(rec, p + 2, x), room, room);
    let w = has_room(byte(rec, p + 3, x), room, room);
    n & (e & (s & w))
}

// Whether those of its corners are.
pub fn corners(rec: &[u8], tile: &[bool; 1641], x: usize) -> bool
    requires in_bounds { (32768 ≤ length rec.now) × (41 ≤ x) × (x < 1641) × Tiles rec.now tile.now }
    requires t { T (caps_fit (job_of rec.now).O (job_of rec.now).D (job_of rec.now).E) }
    ensures { result ≡ corners_fit rec.now (row_of x) (column_of x) }
{
    four_fit(rec, tile, 4, x, (orthogonal(rec) / 2) as u8)
}

// Whether those of its spokes are.
pub fn spokes(rec: &[u8], tile: &[bool; 1641], x: usize) -> bool
    requires { (32768 ≤ length rec.now) × (41 ≤ x) × (x < 1641) × Tiles rec.now tile.now }
    ensures { result ≡ spokes_fit rec.now (row_of x) (column_of x) }
{
    four_fit(rec, tile, 8, x, 31)
}

// How many wires may leave a pin of the mark by one leg.
fn leaves(mark: u8) -> u8
    ensures { result ≡ leaving mark }
{
    if mark == 2 {
        return 31;
    }
    held(mark == 1, 1)
}

// Whether the byte of a leg that leads to the cell y is in order, with room for `away` wires from the pin and for `back` to it.
fn leg_fits(rec: &[u8], tile: &[bool; 1641], b: u8, y: usize, away: u8, back: u8) -> bool
    requires { (32768 ≤ length rec.now) × (y < 1641) × (back < 32) × Tiles rec.now tile.now }
    ensures { result ≡ fits b (when (open_in (job_of rec.now) y) away) (when (open_in (job_of rec.now) y) back) }
{
    let leads = open_at(rec, tile, y);
    has_room(b, held(leads, away), held(leads, back))
}

// Whether the bytes of the pin's legs are in order.
pub fn legs(rec: &[u8], tile: &[bool; 1641], x: usize) -> bool
    requires { (32768 ≤ length rec.now) × (41 ≤ x) × (x < 1641) × Tiles rec.now tile.now }
    ensures { result ≡ legs_fit rec.now (row_of x) (column_of x) }
{
    let mark = byte(rec, 0, x);
    let away = leaves(mark);
    let back = held(mark == 2, 31);
    let n = leg_fits(rec, tile, byte(rec, 12, x), x - 40, away, back);
    let e = leg_fits(rec, tile, byte(rec, 13, x), x, away, back);
    let s = leg_fits(rec, tile, byte(rec, 14, x), x - 1, away, back);
    let w = leg_fits(rec, tile, byte(rec, 15, x), x - 41, away, back);
    n & (e & (s & w))
}

// Whether that of its direct exit is. A pin is on the rim unless its own tile and the one to the north-west of it are tiles.
pub fn direct(rec: &[u8], pin: &[bool; 1641], tile: &[bool; 1641], x: usize) -> bool
    requires { (32768 ≤ length rec.now) × (41 ≤ x) × (x < 1641) × Pins rec.now pin.now × Tiles rec.now tile.now }
    ensures { result ≡ link_fits rec.now direct (row_of x) (column_of x) }
{
    let chosen = pin[x] & (byte(rec, 0, x) == 1);
    let rim = !(tile[x] & tile[x - 41]);
    has_room(byte(rec, 16, x), held(chosen & rim, 1), 0)
}
