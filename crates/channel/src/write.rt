// What an operation stores in a record: a new job, a mark, a tile's state, a tile's own D, a side's count, and no wires. Every other byte stays.
ghost use Rattle.std.specs.Prelude.{◌≡◌, ◌≤◌, ◌<◌, length, set};
ghost use Rattle.model.specs.Job.{fresh, side_of};
ghost use Rattle.model.specs.Record.{record_size, mark_plane, state_plane, own_d_plane, offset, unwired_record, over};
ghost use Rattle.channel.specs.Laid.{side_offset};
ghost use Rattle.channel.specs.Written.{zeros, unwired};

use crate::header::side_at;

// Every byte of the part becomes 0.
pub fn clear(part: &mut [u8])
    ensures { part.new ≡ zeros (length part.old) }
{
    part.fill(0);
}

// The record of an idle, open, unwired job with the five numbers.
pub fn write_fresh(rec: &mut [u8], rows: usize, columns: usize, o: usize, d: usize, e: usize)
    requires record_size_in_bounds { record_size ≤ length rec.old }
    requires rows_bound { (rows < 256) × (columns < 256) × (o < 256) × (d < 256) × (e < 256) }
    ensures { rec.new ≡ over (unwired_record (fresh rows columns o d e)) rec.old }
{
    clear(&mut rec[..32768]);
    rec[0] = rows as u8;
    rec[1] = columns as u8;
    rec[2] = o as u8;
    rec[3] = d as u8;
    rec[4] = e as u8;
}

// The mark of a pin.
pub fn set_mark(rec: &mut [u8], r: usize, c: usize, m: usize)
    requires record_size_in_bounds { record_size ≤ length rec.old }
    requires r_bound { (r < 40) × (c < 40) × (m < 256) }
    ensures { rec.new ≡ set rec.old (offset mark_plane r c) m }
{
    rec[768 + 40 * r + c] = m as u8;
}

// The state of a tile.
pub fn set_state(rec: &mut [u8], r: usize, c: usize, v: usize)
    requires record_size_in_bounds { record_size ≤ length rec.old }
    requires r_bound { (r < 40) × (c < 40) × (v < 256) }
    ensures { rec.new ≡ set rec.old (offset state_plane r c) v }
{
    rec[2368 + 40 * r + c] = v as u8;
}

// The own D of a tile, 0 for none.
pub fn set_own(rec: &mut [u8], r: usize, c: usize, d: usize)
    requires record_size_in_bounds { record_size ≤ length rec.old }
    requires r_bound { (r < 40) × (c < 40) × (d < 256) }
    ensures { rec.new ≡ set rec.old (offset own_d_plane r c) d }
{
    rec[31168 + 40 * r + c] = d as u8;
}

// The count of a side of the tile (r, c).
pub fn set_laid(rec: &mut [u8], r: usize, c: usize, side: usize, n: usize)
    requires record_size_in_bounds { record_size ≤ length rec.old }
    requires r_bound { (r < 39) × (c < 39) × (n < 256) }
    ensures { rec.new ≡ set rec.old (side_offset (side_of r c side)) n }
{
    rec[side_at(r, c, side)] = n as u8;
}

// The extra of a missing pin.
pub fn set_extra(rec: &mut [u8], e: usize)
    requires record_size_in_bounds { record_size ≤ length rec.old }
    requires e_bound { e < 256 }
    ensures { rec.new ≡ set rec.old 4 e }
{
    rec[4] = e as u8;
}

// The 15 planes of loads become 0: no wires.
pub fn unwire(rec: &mut [u8])
    requires { record_size ≤ length rec.old }
    ensures { rec.new ≡ unwired rec.old }
{
    clear(&mut rec[3968..27968]);
}
