// The tests of all cells.
ghost use Rattle.std.specs.Prelude.{◌≡◌, ℕ, ◌≤◌, ◌<◌, T, length};
ghost use Rattle.channel.specs.Map.{row_of, column_of};
ghost use Rattle.cell.specs.Cell.Grid.{Pins, Tiles};
ghost use Rattle.audit.specs.Feasible.{Decides};
ghost use Rattle.audit.specs.Laws.{numbers_fit, cell_fits};

use cell::{counts_fit, links_fit, own_fits, pins_of, places_even, tiles_of, values_fit};

// Whether the cell x is in order.
fn cell(rec: &[u8], pin: &[bool; 1641], tile: &[bool; 1641], x: usize) -> bool
    requires in_bounds { (32768 ≤ length rec.now) × (41 ≤ x) × (x < 1641) × Pins rec.now pin.now × Tiles rec.now tile.now }
    requires t { T (numbers_fit rec.now) }
    ensures { result ≡ cell_fits rec.now (row_of x) (column_of x) }
{
    let added = counts_fit(rec, tile, x) & own_fits(rec, tile, x);
    let values = values_fit(rec, pin, tile, x) & added;
    let loads = links_fit(rec, pin, tile, x) & places_even(rec, pin, tile, x);
    values & loads
}

// Whether all cells are. The loop has no way out, so that it can be made one of vectors.
pub fn cells(rec: &[u8]) -> bool
    requires { (32768 ≤ length rec.now) × T (numbers_fit rec.now) }
    ensures { Decides ((r c : ℕ) → r < 40 → c < 40 → T (cell_fits rec.now r c)) result }
{
    let pin = pins_of(rec);
    let tile = tiles_of(rec);
    let mut fit = true;
    for x in 41..1641 {
        fit = fit & cell(rec, &pin, &tile, x);
    }
    fit
}
