// The job that a record holds: its five numbers, and the mark of a pin and the state of a tile, by row and column and by cell.
ghost use Rattle.std.specs.Prelude.{◌≡◌, not, ◌&&◌, ◌||◌, ◌≤◌, ◌<◌, length};
ghost use Rattle.sums.specs.Counting.{when};
ghost use Rattle.model.specs.Job.{side_of, laid_on, tile_d, is_pin, is_tile, is_open, is_chosen, is_missing};
ghost use Rattle.model.specs.Record.{job_of, cell};
ghost use Rattle.channel.specs.Laid.{side_offset};
ghost use Rattle.channel.specs.Map.{in_grid, row_of, column_of};

// A byte as a number.
pub fn wide(b: u8) -> usize
    ensures { (result ≡ b) × (result < 256) }
{
    b as usize
}

// The byte of a plane at a cell.
pub fn byte(rec: &[u8], p: usize, r: usize, c: usize) -> usize
    requires { (32768 ≤ length rec.now) × (p < 20) × (r < 40) × (c < 40) }
    ensures { (result ≡ cell rec.now p r c) × (result < 256) }
{
    wide(rec[768 + 1600 * p + 40 * r + c])
}

// The rows of pins.
pub fn rows(rec: &[u8]) -> usize
    requires { 32768 ≤ length rec.now }
    ensures { (result ≡ (job_of rec.now).rows) × (result < 256) }
{
    wide(rec[0])
}

// The columns of pins.
pub fn columns(rec: &[u8]) -> usize
    requires { 32768 ≤ length rec.now }
    ensures { (result ≡ (job_of rec.now).columns) × (result < 256) }
{
    wide(rec[1])
}

// The orthogonal limit, O.
pub fn orthogonal(rec: &[u8]) -> usize
    requires { 32768 ≤ length rec.now }
    ensures { (result ≡ (job_of rec.now).O) × (result < 256) }
{
    wide(rec[2])
}

// The diagonal limit, D.
pub fn diagonal(rec: &[u8]) -> usize
    requires { 32768 ≤ length rec.now }
    ensures { (result ≡ (job_of rec.now).D) × (result < 256) }
{
    wide(rec[3])
}

// What a missing pin passes, E.
pub fn extra(rec: &[u8]) -> usize
    requires { 32768 ≤ length rec.now }
    ensures { (result ≡ (job_of rec.now).E) × (result < 256) }
{
    wide(rec[4])
}

// Whether (r, c) is a pin.
pub fn pin_at(rec: &[u8], r: usize, c: usize) -> bool
    requires { 32768 ≤ length rec.now }
    ensures { result ≡ is_pin (job_of rec.now) r c }
{
    (r < rows(rec)) & (c < columns(rec))
}

// The byte of a plane at (r, c), and 0 beyond the grid.
fn value_of(rec: &[u8], p: usize, r: usize, c: usize) -> usize
    requires { (32768 ≤ length rec.now) × (p < 20) }
    ensures { result ≡ cell rec.now p r c }
{
    if r >= 40 {
        return 0;
    }
    if c >= 40 {
        return 0;
    }
    byte(rec, p, r, c)
}

// The mark of the pin (r, c).
pub fn mark_of(rec: &[u8], r: usize, c: usize) -> usize
    requires { 32768 ≤ length rec.now }
    ensures { result ≡ (job_of rec.now).mark r c }
{
    value_of(rec, 0, r, c)
}

// The state of the tile (r, c).
pub fn state_of(rec: &[u8], r: usize, c: usize) -> usize
    requires { 32768 ≤ length rec.now }
    ensures { result ≡ (job_of rec.now).state r c }
{
    value_of(rec, 1, r, c)
}

// Where the count of a side of the tile (r, c) stands: n, e, s, w for 0 to 3.
pub fn side_at(r: usize, c: usize, side: usize) -> usize
    requires { (r < 39) × (c < 39) }
    ensures { (result ≡ side_offset (side_of r c side)) × (result < 32768) }
{
    let first = match side {
        0 => 27968,
        1 => 29569,
        2 => 28008,
        _ => 29568,
    };
    first + 40 * r + c
}

// The count of wires already laid on a side of the tile (r, c): n, e, s, w for 0 to 3.
pub fn laid_on(rec: &[u8], r: usize, c: usize, side: usize) -> usize
    requires { (32768 ≤ length rec.now) × (r < 39) × (c < 39) }
    ensures { (result ≡ laid_on (job_of rec.now) (side_of r c side)) × (result < 256) }
{
    wide(rec[side_at(r, c, side)])
}

// The D of the tile that is the cell x: its own, or else the job's.
pub fn diagonal_at(rec: &[u8], x: usize) -> usize
    requires { (32768 ≤ length rec.now) × (41 ≤ x) × (x < 1641) }
    ensures { (result ≡ tile_d (job_of rec.now) (row_of x) (column_of x)) × (result < 256) }
{
    let own = wide(rec[31127 + x]);
    if own == 0 { diagonal(rec) } else { own }
}

// Whether (r, c) is a tile, r and c small enough for a sum.
fn tile_in(rec: &[u8], r: usize, c: usize) -> bool
    requires { (32768 ≤ length rec.now) × (r < 255) × (c < 255) }
    ensures { result ≡ is_tile (job_of rec.now) r c }
{
    (r + 1 < rows(rec)) & (c + 1 < columns(rec))
}

// Whether (r, c) is a tile.
pub fn is_tile(rec: &[u8], r: usize, c: usize) -> bool
    requires { 32768 ≤ length rec.now }
    ensures { result ≡ is_tile (job_of rec.now) r c }
{
    if r >= 255 {
        return false;
    }
    if c >= 255 {
        return false;
    }
    tile_in(rec, r, c)
}

// Whether (r, c) is an open tile.
pub fn is_open(rec: &[u8], r: usize, c: usize) -> bool
    requires { 32768 ≤ length rec.now }
    ensures { result ≡ is_open (job_of rec.now) r c }
{
    is_tile(rec, r, c) & (state_of(rec, r, c) == 0)
}

// Whether (r, c) is a chosen pin.
pub fn is_chosen(rec: &[u8], r: usize, c: usize) -> bool
    requires { 32768 ≤ length rec.now }
    ensures { result ≡ is_chosen (job_of rec.now) r c }
{
    pin_at(rec, r, c) & (mark_of(rec, r, c) == 1)
}

// Whether (r, c) is a missing pin.
pub fn is_missing(rec: &[u8], r: usize, c: usize) -> bool
    requires { 32768 ≤ length rec.now }
    ensures { result ≡ is_missing (job_of rec.now) r c }
{
    pin_at(rec, r, c) & (mark_of(rec, r, c) == 2)
}

// Whether (r, c), a cell of the grid, is an open tile.
pub fn open_in(rec: &[u8], r: usize, c: usize) -> bool
    requires { (32768 ≤ length rec.now) × (r < 40) × (c < 40) }
    ensures { result ≡ is_open (job_of rec.now) r c }
{
    tile_in(rec, r, c) & (rec[2368 + 40 * r + c] == 0)
}

// Whether (r, c), a cell of the grid, is an open tile or no tile.
pub fn clear_in(rec: &[u8], r: usize, c: usize) -> bool
    requires { (32768 ≤ length rec.now) × (r < 40) × (c < 40) }
    ensures { result ≡ (not (is_tile (job_of rec.now) r c) || is_open (job_of rec.now) r c) }
{
    !tile_in(rec, r, c) | open_in(rec, r, c)
}

// Whether the number is that of a cell of the grid.
pub fn in_grid(x: usize) -> bool
    ensures { result ≡ in_grid x }
{
    (41 <= x) & (x < 1641)
}

// Whether the cell is a tile.
pub fn tile_at(rec: &[u8], x: usize) -> bool
    requires { (32768 ≤ length rec.now) × (x < 1641) }
    ensures { result ≡ (in_grid x && is_tile (job_of rec.now) (row_of x) (column_of x)) }
{
    if x < 41 {
        return false;
    }
    tile_in(rec, (x - 41) / 40, (x - 41) % 40)
}

// Whether it is an open tile.
pub fn open_at(rec: &[u8], x: usize) -> bool
    requires { (32768 ≤ length rec.now) × (x < 1641) }
    ensures { result ≡ (in_grid x && is_open (job_of rec.now) (row_of x) (column_of x)) }
{
    if x < 41 {
        return false;
    }
    open_in(rec, (x - 41) / 40, (x - 41) % 40)
}

// The mark of its pin.
pub fn mark_at(rec: &[u8], x: usize) -> usize
    requires { 32768 ≤ length rec.now }
    ensures { result ≡ when (in_grid x) ((job_of rec.now).mark (row_of x) (column_of x)) }
{
    if x < 41 {
        return 0;
    }
    if x >= 1641 {
        return 0;
    }
    wide(rec[727 + x])
}

// Whether it is a chosen pin.
pub fn chosen_at(rec: &[u8], x: usize) -> bool
    requires { (32768 ≤ length rec.now) × (x < 1641) }
    ensures { result ≡ (in_grid x && is_chosen (job_of rec.now) (row_of x) (column_of x)) }
{
    if x < 41 {
        return false;
    }
    if rec[727 + x] != 1 {
        return false;
    }
    pin_at(rec, (x - 41) / 40, (x - 41) % 40)
}

// Whether it is a missing pin.
pub fn missing_at(rec: &[u8], x: usize) -> bool
    requires { (32768 ≤ length rec.now) × (x < 1641) }
    ensures { result ≡ (in_grid x && is_missing (job_of rec.now) (row_of x) (column_of x)) }
{
    if x < 41 {
        return false;
    }
    is_missing(rec, (x - 41) / 40, (x - 41) % 40)
}
