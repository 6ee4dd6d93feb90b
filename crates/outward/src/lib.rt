// Loads that lead outward, in which no loop stands: beside them only a link along which wires go inward, or round, is fresh. The array is parted into four
// sectors, one for each rim; within a tile the way to the rim of its sector leads outward.
#![tactic(auto)]

ghost use Rattle.std.specs.Prelude.{◌≡◌, true, false, ℕ, ◌+◌, ◌-◌, ◌*◌, ◌/◌, ◌≤◌, ◌<◌, ltb, length, get_or};
ghost use Rattle.sums.specs.Counting.{when};
ghost use Rattle.model.specs.Links.{compass_code};
ghost use Rattle.outward.specs.Outward.{Parts, sector, Middle, one_wire, Outward, Put, line_has, inset, parts};

use std::array;

// The byte of one wire, along its link's positive way or against it.
fn one_wire(forth: bool) -> u8
    ensures { result ≡ one_wire forth }
{
    if forth { 1 } else { 33 }
}

// The load bytes from a to before b become one wire each.
fn put(old: &mut [u8], a: usize, b: usize, forth: bool)
    requires { (32768 ≤ length old.old) × (a ≤ b) × (b ≤ 24000) }
    ensures { Put old.old a b (λ i. forth) old.new }
{
    old[3968 + a..3968 + b].fill(one_wire(forth));
}

// Those of the row r of the k-th plane, along their links' positive way in the columns where the line has x or y.
fn put_row(old: &mut [u8], line: &[u8; 40], x: u8, y: u8, k: usize, r: usize)
    requires { (32768 ≤ length old.old) × (k < 14) × (r < 40) }
    ensures { Put old.old (1600 * k + 40 * r) (1600 * k + 40 * r + 40)
        (line_has line.now x y (1600 * k + 40 * r)) old.new }
{
    let at = 3968 + 1600 * k + 40 * r;
    for c in 0..40 {
        old[at + c] = one_wire((line[c] == x) | (line[c] == y));
    }
}

// How many columns of the row r belong to the western sector, of n rows of pins.
fn inset_of(n: usize, r: usize) -> usize
    requires { (n < 256) × (r < 40) }
    ensures { (result ≡ inset n r) × (result < 256) }
{
    if r < n / 2 {
        return r;
    }
    if n < r + 2 {
        return 0;
    }
    n - 2 - r
}

// Where the eastern sector begins in a row whose western sector has so many of m columns.
fn east_begin(m: usize, left: usize) -> usize
    requires { left < 256 }
    ensures { (result ≡ m - 1 - left) × (result ≤ m) }
{
    if m < left + 1 {
        return 0;
    }
    m - 1 - left
}

// x where the test holds, else y.
fn pick(test: bool, x: u8, y: u8) -> u8
    ensures { (test ≡ true → result ≡ x) × (test ≡ false → result ≡ y) }
{
    if test { x } else { y }
}

// The sector of the tile in the column c, by its point of the compass: 0 to 3 for north, east, south, west. That of the middle columns is given.
fn sector_of(c: u8, middle: u8, left: u8, right: u8) -> u8
    ensures { (P : Parts) (r : ℕ) → left ≡ P.left r → right ≡ P.right r → Middle P r middle → result ≡ compass_code (sector P r c) }
{
    pick(c < left, 3, pick(c < right, middle, 1))
}

// Those of a row of tiles, beside the numbers of its columns. Nothing is wider than a byte, so that the loop can be made one of vectors.
fn row_sectors(numbers: &[u8; 40], middle: u8, left: u8, right: u8) -> [u8; 40]
    requires { (c : ℕ) → c < 40 → get_or numbers.now c 0 ≡ c }
    ensures { (P : Parts) (r : ℕ) → left ≡ P.left r → right ≡ P.right r → Middle P r middle
        → (c : ℕ) → c < 40 → get_or result c 0 ≡ compass_code (sector P r c) }
{
    let mut line = [0u8; 40];
    for c in 0..40 {
        line[c] = sector_of(numbers[c], middle, left, right);
    }
    line
}

// The numbers of the columns.
fn count_up() -> [u8; 40]
    ensures { (c : ℕ) → c < 40 → get_or result c 0 ≡ c }
{
    array::from_fn(|c| c as u8)
}

// 1 for the columns east of the middle one, else 0.
fn east_of(column: usize) -> [u8; 40]
    ensures { (c : ℕ) → c < 40 → get_or result c 0 ≡ when (ltb column c) 1 }
{
    array::from_fn(
        |c: usize| -> u8
            ensures { result ≡ when (ltb column c) 1 }
        { (column < c) as u8 },
    )
}

// The corners of the tiles of the row r, beside the line of their sectors: each turns to the rim in two.
fn put_corners(old: &mut [u8], line: &[u8; 40], r: usize)
    requires { (32768 ≤ length old.old) × (r < 40) }
    ensures { (P : Parts) → ((c : ℕ) → c < 40 → get_or line.now c 0 ≡ compass_code (sector P r c))
        → Outward P old.old → Outward P old.new }
{
    put_row(old, line, 1, 2, 2, r);
    put_row(old, line, 2, 3, 3, r);
    put_row(old, line, 3, 0, 4, r);
    put_row(old, line, 0, 1, 5, r);
}

// Their spokes: each leads to the rim in one.
fn put_spokes(old: &mut [u8], line: &[u8; 40], r: usize)
    requires { (32768 ≤ length old.old) × (r < 40) }
    ensures { (P : Parts) → ((c : ℕ) → c < 40 → get_or line.now c 0 ≡ compass_code (sector P r c))
        → Outward P old.old → Outward P old.new }
{
    put_row(old, line, 0, 0, 6, r);
    put_row(old, line, 1, 1, 7, r);
    put_row(old, line, 2, 2, 8, r);
    put_row(old, line, 3, 3, 9, r);
}

// All links of the row r, beside the numbers of its columns, and a line that has 1 east of the middle column and 0 elsewhere.
fn put_links(
    old: &mut [u8],
    numbers: &[u8; 40],
    east: &[u8; 40],
    rows: usize,
    columns: usize,
    r: usize,
)
    requires { (32768 ≤ length old.old) × (r < 40) × (rows < 256) × (columns < 256) × ((c : ℕ) → c < 40 → get_or numbers.now c 0 ≡ c)
        × ((c : ℕ) → c < 40 → get_or east.now c 0 ≡ when (ltb (columns / 2) c) 1) }
    ensures { Outward (parts rows columns) old.old → Outward (parts rows columns) old.new }
{
    let left = inset_of(rows, r);
    let right = east_begin(columns, left);
    put(old, 40 * r, 40 * r + 40, r <= rows / 2);
    put_row(old, east, 1, 1, 1, r);
    let line = row_sectors(numbers, pick(r < rows / 2, 0, 2), left as u8, right as u8);
    put_corners(old, &line, r);
    put_spokes(old, &line, r);
}

// One wire outward along the links of the rows of an array, beside loads of 0.
pub fn lead_outward(old: &mut [u8], rows: usize, columns: usize)
    requires { (32768 ≤ length old.old) × (rows < 256) × (columns < 256) × ((i : ℕ) → i < 32768 → get_or old.old i 0 ≡ 0) }
    ensures { Outward (parts rows columns) old.new }
{
    let numbers = count_up();
    let east = east_of(columns / 2);
    put(old, 16000, 24000, true);
    for r in 0..rows.min(40) {
        put_links(old, &numbers, &east, rows, columns, r);
    }
}
