// Listings, handed to a writer page by page. Each function gives how many bytes it handed on, by contract as many as the listing has, or that a write failed.
// Where the writer's bytes are known, they are then the listing's bytes more.
ghost use Rattle.std.specs.Prelude.{◌≤◌, length, take};
ghost use Rattle.model.specs.Record.{job_of, load, Legal};
ghost use Rattle.model.specs.Listing.{wires_listing};
ghost use Rattle.listing.specs.Near.{short_listing, refused_listing};
ghost use Rattle.escape.specs.Handed.{Handed, Held};

use listing::{
    Page, count_page, first_wire, near_page, refused_page, short_page, totals_page, wires_page,
};
use std::io;
use std::io::Write;

// What stands on a page.
fn print<W: Write>(page: &Page, out: &mut W) -> io::Result<usize>
    requires { page.now.length ≤ 32768 }
    ensures handed { Handed result (take page.now.length page.now.bytes) }
    ensures held { Held (W.contents out.old) (W.contents out.new) result (take page.now.length page.now.bytes) }
{
    out.write_all(page.filled())?;
    Ok(page.length)
}

// The wires of a record, their total length and its mean.
pub fn show_wires<W: Write>(rec: &[u8], out: &mut W) -> io::Result<usize>
    requires { Legal rec.now }
    ensures handed { Handed result (wires_listing (job_of rec.now) (load rec.now)) }
    ensures held { Held (W.contents out.old) (W.contents out.new) result
        (wires_listing (job_of rec.now) (load rec.now)) }
{
    let mut page = Page::new();
    count_page(rec, &mut page);
    let mut n = print(&page, out)?;
    let mut next = Some(first_wire());
    while let Some(from) = next {
        next = wires_page(rec, from, &mut page);
        n += print(&page, out)?;
    }
    totals_page(rec, &mut page);
    Ok(n + print(&page, out)?)
}

// The near side of a job that lacks `short` wires.
pub fn show_near<W: Write>(rec: &[u8], near: &[u8], short: usize, out: &mut W) -> io::Result<usize>
    requires { (32768 ≤ length rec.now) × (32768 ≤ length near.now) }
    ensures handed { Handed result (short_listing (job_of rec.now) near.now short) }
    ensures held { Held (W.contents out.old) (W.contents out.new) result
        (short_listing (job_of rec.now) near.now short) }
{
    let mut page = Page::new();
    short_page(short, &mut page);
    let mut n = print(&page, out)?;
    let mut next = Some(0);
    while let Some(entry) = next {
        next = near_page(rec, near, entry, &mut page);
        n += print(&page, out)?;
    }
    Ok(n)
}

// A refusal at this offset.
pub fn show_refused<W: Write>(offset: usize, out: &mut W) -> io::Result<usize>
    ensures handed { Handed result (refused_listing offset) }
    ensures held { Held (W.contents out.old) (W.contents out.new) result (refused_listing offset) }
{
    let mut page = Page::new();
    refused_page(offset, &mut page);
    print(&page, out)
}
