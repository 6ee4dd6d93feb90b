// The cells of the grid by number: a byte of a plane, a map of the pins and one of the tiles, and the open tiles by that map. A cell in front of the grid
// and the last cell of a row hold no tile, so that what lies around a cell is read with no regard to the rim.
ghost use Rattle.std.specs.Prelude.{◌≡◌, ◌&&◌, ◌+◌, ◌*◌, ◌/◌, ◌%◌, ◌≤◌, ◌<◌, T, ltb, length, get_or};
ghost use Rattle.model.specs.Job.{array_fits};
ghost use Rattle.model.specs.Record.{job_of, cell};
ghost use Rattle.channel.specs.Map.{row_of, column_of};
ghost use Rattle.cell.specs.Cell.Grid.{MapOf, Pins, Tiles, open_in, clear_in};

use channel::{columns, rows};

// Whether the cell that is the i-th of the grid stands in the first n rows and m columns.
fn in_block(i: u16, n: u16, m: u16) -> bool
    ensures { result ≡ (ltb (i / 40) n && ltb (i % 40) m) }
{
    (i / 40 < n) & (i % 40 < m)
}

// The cells of the first n rows and m columns. Nothing is wider than 16 bits, so that the loop can be made one of vectors.
fn block(n: u16, m: u16) -> [bool; 1641]
    ensures { MapOf (λ r c. ltb r n && ltb c m) result }
{
    let mut map = [false; 1641];
    for x in 41..1641 {
        map[x] = in_block((x - 41) as u16, n, m);
    }
    map
}

// The pins.
pub fn pins_of(rec: &[u8]) -> [bool; 1641]
    requires { 32768 ≤ length rec.now }
    ensures { Pins rec.now result }
{
    block(rows(rec) as u16, columns(rec) as u16)
}

// The tiles.
pub fn tiles_of(rec: &[u8]) -> [bool; 1641]
    requires { (32768 ≤ length rec.now) × T (array_fits (job_of rec.now).rows (job_of rec.now).columns) }
    ensures { Tiles rec.now result }
{
    block((rows(rec) - 1) as u16, (columns(rec) - 1) as u16)
}

// What stands at the place of the cell x in a plane, one row and one column beyond the grid too.
pub fn near(rec: &[u8], p: usize, x: usize) -> u8
    requires { (32768 ≤ length rec.now) × (p < 19) × (x < 1682) }
    ensures { result ≡ get_or rec.now (727 + 1600 * p + x) 0 }
{
    rec[727 + 1600 * p + x]
}

// The byte of a plane at the cell x.
pub fn byte(rec: &[u8], p: usize, x: usize) -> u8
    requires { (32768 ≤ length rec.now) × (p < 20) × (41 ≤ x) × (x < 1641) }
    ensures { result ≡ cell rec.now p (row_of x) (column_of x) }
{
    rec[727 + 1600 * p + x]
}

// Whether the cell x is an open tile.
pub fn open_at(rec: &[u8], tile: &[bool; 1641], x: usize) -> bool
    requires { (32768 ≤ length rec.now) × (x < 1641) × Tiles rec.now tile.now }
    ensures { result ≡ open_in (job_of rec.now) x }
{
    tile[x] & (near(rec, 1, x) == 0)
}

// Whether it is an open tile or no tile.
pub fn clear_at(rec: &[u8], tile: &[bool; 1641], x: usize) -> bool
    requires { (32768 ≤ length rec.now) × (x < 1641) × Tiles rec.now tile.now }
    ensures { result ≡ clear_in (job_of rec.now) x }
{
    !tile[x] | (near(rec, 1, x) == 0)
}
