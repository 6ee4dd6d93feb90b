// The loads at a cell's places: as many wires come as leave at n, e, s, w, at the centre and at a missing pin, and limits are kept. No sum is wider than 16
// bits.
ghost use Rattle.std.specs.Prelude.{◌≡◌, suc, ◌+◌, ◌*◌, ◌≤◌, ◌<◌, T, length, get_or};
ghost use Rattle.model.specs.Job.{centre_limit, tile_d};
ghost use Rattle.model.specs.Links.{north, east, south, west, side, at};
ghost use Rattle.model.specs.Record.{job_of, forth_part, back_part};
ghost use Rattle.channel.specs.Map.{row_of, column_of};
ghost use Rattle.cell.specs.Cell.{even_at, tile_even, centre_even, pins_even};
ghost use Rattle.cell.specs.Cell.Grid.{Pins, Tiles};
ghost use Rattle.cell.specs.Cell.Sums.{out_two, out_one};

use crate::grid::{byte, near, open_at};
use channel::limits::{centre_most, missing_most};

// A byte as a number.
fn wide(b: u8) -> u16
    ensures { (result ≡ b) × (result < 256) }
{
    b as u16
}

// What a byte has along its link's positive way, 256 more, less what it has against it.
fn lean(b: u8) -> u16
    ensures { (result + back_part b ≡ 256 + forth_part b) × (result < 512) }
{
    if b < 32 { 256 + wide(b) } else { 288 - wide(b) }
}

// Whether as many wires come as leave, by two links whose positive way leads away and three whose positive way leads here.
fn two_out(a: u8, b: u8, x: u8, y: u8, z: u8) -> bool
    ensures { result ≡ out_two a b x y z }
{
    lean(a) + lean(b) + 256 == lean(x) + lean(y) + lean(z)
}

// By one link whose positive way leads away and four whose positive way leads here.
fn one_out(a: u8, b: u8, x: u8, y: u8, z: u8) -> bool
    ensures { result ≡ out_one a b x y z }
{
    lean(b) + 768 == lean(a) + lean(x) + lean(y) + lean(z)
}

// Whether as many come as leave at n of the tile.
fn north_even(rec: &[u8], x: usize) -> bool
    requires { (32768 ≤ length rec.now) × (41 ≤ x) × (x < 1641) }
    ensures { result ≡ even_at rec.now (at (side north) (row_of x) (column_of x)) }
{
    two_out(
        byte(rec, 2, x),
        byte(rec, 4, x),
        byte(rec, 8, x),
        byte(rec, 7, x),
        byte(rec, 13, x),
    )
}

// At e, of a cell that is not the last of its row.
fn east_even(rec: &[u8], x: usize) -> bool
    requires { (32768 ≤ length rec.now) × (41 ≤ x) × (x < 1641) }
    ensures { suc (column_of x) < 40 → result ≡ even_at rec.now (at (side east) (row_of x) (column_of x)) }
{
    two_out(
        near(rec, 3, x + 1),
        byte(rec, 5, x),
        byte(rec, 9, x),
        byte(rec, 4, x),
        near(rec, 14, x + 1),
    )
}

// At s, of one that is not in the last row either.
fn south_even(rec: &[u8], x: usize) -> bool
    requires { (32768 ≤ length rec.now) × (41 ≤ x) × (x < 1641) }
    ensures { suc (row_of x) < 40 → suc (column_of x) < 40 → result ≡ even_at rec.now (at (side south) (row_of x) (column_of x)) }
{
    one_out(
        near(rec, 2, x + 40),
        byte(rec, 6, x),
        byte(rec, 10, x),
        byte(rec, 5, x),
        near(rec, 15, x + 41),
    )
}

// At w, of one that is not in the last row.
fn west_even(rec: &[u8], x: usize) -> bool
    requires { (32768 ≤ length rec.now) × (41 ≤ x) × (x < 1641) }
    ensures { suc (row_of x) < 40 → result ≡ even_at rec.now (at (side west) (row_of x) (column_of x)) }
{
    one_out(
        byte(rec, 3, x),
        byte(rec, 7, x),
        byte(rec, 11, x),
        byte(rec, 6, x),
        near(rec, 12, x + 40),
    )
}

// At all four of an open tile.
pub fn tile_even(rec: &[u8], tile: &[bool; 1641], x: usize) -> bool
    requires { (32768 ≤ length rec.now) × (41 ≤ x) × (x < 1641) × Tiles rec.now tile.now }
    ensures { result ≡ tile_even rec.now (row_of x) (column_of x) }
{
    let even = north_even(rec, x) & (east_even(rec, x) & (south_even(rec, x) & west_even(rec, x)));
    !open_at(rec, tile, x) | even
}

// What a byte has along the link's positive way.
fn forth(b: u8) -> u16
    ensures { (result ≡ forth_part b) × (result < 256) }
{
    if b < 32 { wide(b) } else { 0 }
}

// What it has against it.
fn back(b: u8) -> u16
    ensures { (result ≡ back_part b) × (result < 256) }
{
    if b < 32 { 0 } else { wide(b) - 32 }
}

// What four planes from p on have at the cell x against their links' positive way.
fn back_sum(rec: &[u8], p: usize, x: usize) -> u16
    requires { (32768 ≤ length rec.now) × (p < 13) × (x < 1641) }
    ensures { (result ≡ back_part (get_or rec.now (727 + 1600 * p + x) 0) + back_part (get_or rec.now (727 + 1600 * (p + 1) + x) 0)
        + back_part (get_or rec.now (727 + 1600 * (p + 2) + x) 0) + back_part (get_or rec.now (727 + 1600 * (p + 3) + x) 0)) × (result < 1024) }
{
    let n = back(near(rec, p, x));
    let e = back(near(rec, p + 1, x));
    let s = back(near(rec, p + 2, x));
    let w = back(near(rec, p + 3, x));
    n + e + s + w
}

// What they have along it.
fn forth_sum(rec: &[u8], p: usize, x: usize) -> u16
    requires { (32768 ≤ length rec.now) × (p < 13) × (x < 1641) }
    ensures { (result ≡ forth_part (get_or rec.now (727 + 1600 * p + x) 0) + forth_part (get_or rec.now (727 + 1600 * (p + 1) + x) 0)
        + forth_part (get_or rec.now (727 + 1600 * (p + 2) + x) 0) + forth_part (get_or rec.now (727 + 1600 * (p + 3) + x) 0)) × (result < 1024) }
{
    let n = forth(near(rec, p, x));
    let e = forth(near(rec, p + 1, x));
    let s = forth(near(rec, p + 2, x));
    let w = forth(near(rec, p + 3, x));
    n + e + s + w
}

// How many wires pass the centre of the tile x at most.
fn centre_room(rec: &[u8], x: usize) -> u16
    requires { (32768 ≤ length rec.now) × (41 ≤ x) × (x < 1641) }
    ensures { result ≡ centre_limit (job_of rec.now).O (tile_d (job_of rec.now) (row_of x) (column_of x)) }
{
    centre_most(rec, x) as u16
}

// Whether as many wires come to the centre of an open tile as leave it, and no more than may pass.
pub fn centre(rec: &[u8], tile: &[bool; 1641], x: usize) -> bool
    requires { (32768 ≤ length rec.now) × (41 ≤ x) × (x < 1641) × Tiles rec.now tile.now }
    ensures { result ≡ centre_even rec.now (row_of x) (column_of x) }
{
    let come = back_sum(rec, 8, x);
    let passes = (come == forth_sum(rec, 8, x)) & (come <= centre_room(rec, x));
    !open_at(rec, tile, x) | passes
}

// Whether a chosen pin starts at most one wire, and as many come to a missing pin as leave it, and no more than may pass.
pub fn pins(rec: &[u8], pin: &[bool; 1641], x: usize) -> bool
    requires { (32768 ≤ length rec.now) × (41 ≤ x) × (x < 1641) × Pins rec.now pin.now }
    ensures { result ≡ pins_even rec.now (row_of x) (column_of x) }
{
    let mark = byte(rec, 0, x);
    let come = back_sum(rec, 12, x);
    let leave = forth_sum(rec, 12, x);
    let starts = leave + forth(near(rec, 16, x)) <= 1;
    let passes = (come == leave) & (come <= missing_most(rec) as u16);
    (!(pin[x] & (mark == 1)) | starts) & (!(pin[x] & (mark == 2)) | passes)
}
