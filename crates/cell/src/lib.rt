// The tests of a record's cells, by the numbers of the cells: a cell's values, counts and own D, the bytes of its links, and the loads at its places. No test has a way out
// and none divides, so that a loop over the cells can be made one of vectors. The test of the bytes that nothing uses stands beside them.
#![tactic(auto)]

mod grid; // the pins and the tiles by number
mod links; // the bytes of a cell's links
mod places; // the loads at a cell's places
mod unused; // the bytes that nothing uses

ghost use Rattle.std.specs.Prelude.{◌≡◌, ◌≤◌, ◌<◌, T, length};
ghost use Rattle.model.specs.Job.{caps_fit};
ghost use Rattle.model.specs.Record.{job_of};
ghost use Rattle.channel.specs.Map.{row_of, column_of};
ghost use Rattle.cell.specs.Cell.{values_fit, counts_fit, own_fits, links_fit, places_even};
ghost use Rattle.cell.specs.Cell.Grid.{Pins, Tiles};

use channel::{diagonal, orthogonal};
use grid::byte;
pub use grid::{pins_of, tiles_of};
use links::{corners, direct, held, legs, sides, spokes};
use places::{centre, pins, tile_even};
pub use unused::unused_clear;

// Whether the mark of the pin and the state of the tile are in range, and 0 where there is none.
pub fn values_fit(rec: &[u8], pin: &[bool; 1641], tile: &[bool; 1641], x: usize) -> bool
    requires { (32768 ≤ length rec.now) × (41 ≤ x) × (x < 1641) × Pins rec.now pin.now × Tiles rec.now tile.now }
    ensures { result ≡ values_fit rec.now (row_of x) (column_of x) }
{
    let mark = byte(rec, 0, x) <= held(pin[x], 2);
    let state = byte(rec, 1, x) <= held(tile[x], 1);
    mark & state
}

// Whether the counts of wires already laid on its sides are in range, and 0 where there is no side: a tile lies on one side of each.
pub fn counts_fit(rec: &[u8], tile: &[bool; 1641], x: usize) -> bool
    requires { (32768 ≤ length rec.now) × (41 ≤ x) × (x < 1641) × Tiles rec.now tile.now }
    ensures { result ≡ counts_fit rec.now (row_of x) (column_of x) }
{
    let most = orthogonal(rec) as u8;
    let north = byte(rec, 17, x) <= held(tile[x] | tile[x - 40], most);
    let west = byte(rec, 18, x) <= held(tile[x] | tile[x - 1], most);
    north & west
}

// Whether the tile's own D is in range and not the job's, or 0 for none; and 0 where there is no tile.
pub fn own_fits(rec: &[u8], tile: &[bool; 1641], x: usize) -> bool
    requires in_bounds { (32768 ≤ length rec.now) × (41 ≤ x) × (x < 1641) × Tiles rec.now tile.now }
    requires t { T (caps_fit (job_of rec.now).O (job_of rec.now).D (job_of rec.now).E) }
    ensures { result ≡ own_fits rec.now (row_of x) (column_of x) }
{
    let own = byte(rec, 19, x);
    let least = orthogonal(rec) as u8;
    let most = (2 * orthogonal(rec)) as u8;
    let range = (least <= own) & (own <= most);
    let other = own != diagonal(rec) as u8;
    (own == 0) | (tile[x] & (range & other))
}

// Whether the bytes of its links are in order: in range, and with no more wires each way than there is room.
pub fn links_fit(rec: &[u8], pin: &[bool; 1641], tile: &[bool; 1641], x: usize) -> bool
    requires in_bounds { (32768 ≤ length rec.now) × (41 ≤ x) × (x < 1641) × Pins rec.now pin.now × Tiles rec.now tile.now }
    requires t { T (caps_fit (job_of rec.now).O (job_of rec.now).D (job_of rec.now).E) }
    ensures { result ≡ links_fit rec.now (row_of x) (column_of x) }
{
    let ends = legs(rec, tile, x) & direct(rec, pin, tile, x);
    sides(rec, tile, x) & (corners(rec, tile, x) & (spokes(rec, tile, x) & ends))
}

// Whether the loads at its places are: as many wires come as leave, and no more than may pass.
pub fn places_even(rec: &[u8], pin: &[bool; 1641], tile: &[bool; 1641], x: usize) -> bool
    requires { (32768 ≤ length rec.now) × (41 ≤ x) × (x < 1641) × Pins rec.now pin.now × Tiles rec.now tile.now }
    ensures { result ≡ places_even rec.now (row_of x) (column_of x) }
{
    tile_even(rec, tile, x) & (centre(rec, tile, x) & pins(rec, pin, x))
}
