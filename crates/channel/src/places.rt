// The places that darts lead to: where a place's row and column stand, and what comes and goes along the link of a dart.
ghost use Rattle.std.specs.Prelude.{◌≡◌, ◌/◌, ◌%◌, ◌≤◌, ◌<◌, T, length};
ghost use Rattle.sums.specs.Counting.{when};
ghost use Rattle.model.specs.Links.{pin, at, turn};
ghost use Rattle.model.specs.Near.{exit};
ghost use Rattle.model.specs.Record.{load};
ghost use Rattle.channel.specs.Map.{row_of, column_of, step_of, is_link_dart, dart_of};

use crate::loads::{carries_load, load_against, load_along};
use crate::table::{code_of, reverse};

// The spot by which the pin (r, c) is left.
pub fn pin_exit(r: usize, c: usize) -> usize
    requires { (r < 40) × (c < 40) }
    ensures { (result ≡ exit (at pin r c)) × (result < 13128) }
{
    8 * (41 + 40 * r + c) + 1
}

// The row of a cell of the grid.
pub fn row_of(x: usize) -> usize
    requires { 41 ≤ x }
    ensures { result ≡ row_of x }
{
    (x - 41) / 40
}

// Its column.
pub fn column_of(x: usize) -> usize
    requires { 41 ≤ x }
    ensures { result ≡ column_of x }
{
    (x - 41) % 40
}

// The dart that takes the step of d back: by it a place is left along the link by which d comes to it.
pub fn step_back(d: usize) -> usize
    requires { (d < 105024) × T (is_link_dart d) }
    ensures { (result ≡ dart_of (turn (step_of d))) × (result < 105024) }
{
    let b = reverse(d);
    let k = b / 8 % 8;
    let entry = (k == 0) | (k == 6);
    if b % 8 >= 5 {
        if entry {
            return b;
        }
        return b - 3;
    }
    if entry {
        return b + 8;
    }
    b
}

// How many wires go along the dart's link its way; none where it is no link's dart.
pub fn wires_out(rec: &[u8], d: usize) -> u8
    requires { (32768 ≤ length rec.now) × (d < 105024) }
    ensures { result ≡ when (is_link_dart d) (load rec.now (step_of d)) }
{
    if carries_load(code_of(d % 64)) {
        return load_along(rec, d) as u8;
    }
    0
}

// How many go the other way.
pub fn wires_in(rec: &[u8], d: usize) -> u8
    requires { (32768 ≤ length rec.now) × (d < 105024) }
    ensures { result ≡ when (is_link_dart d) (load rec.now (turn (step_of d))) }
{
    if carries_load(code_of(d % 64)) {
        return load_against(rec, d) as u8;
    }
    0
}
