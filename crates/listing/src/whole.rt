// The whole listing of the wires of a legal record, laid into one lent output page by page. Its length is counted first, so an output that is too short keeps
// every byte. Callers have audited the record.
ghost use Rattle.std.specs.Prelude.{◌≡◌, ◌+◌, ◌≤◌, length, take};
ghost use Rattle.model.specs.Record.{job_of, load, Legal};
ghost use Rattle.model.specs.Listing.{wires_listing};
ghost use Rattle.model.specs.Calls.{listed_out};
ghost use Rattle.listing.specs.Puts.{Puts};
ghost use Rattle.listing.specs.Whole.{listed_as};

use crate::page::Page;
use crate::totals::totals_page;
use crate::wires::{count_page, first_wire, wires_page};

// What stands on a page, laid into an output from a place on. Gives the place after it.
fn copy_page(page: &Page, out: &mut [u8], at: usize) -> usize
    requires { (page.now.length ≤ 32768) × (at + page.now.length ≤ length out.old) }
    ensures { Puts (take page.now.length page.now.bytes) at out.old out.new result }
{
    let end = at + page.length;
    out[at..end].copy_from_slice(page.filled());
    end
}

// The length of the listing.
fn count_listing(rec: &[u8]) -> usize
    requires { Legal rec.now }
    ensures { result ≡ length (wires_listing (job_of rec.now) (load rec.now)) }
{
    let mut page = Page::new();
    count_page(rec, &mut page);
    let mut n = page.length;
    let mut next = Some(first_wire());
    while let Some(from) = next {
        next = wires_page(rec, from, &mut page);
        n += page.length;
    }
    totals_page(rec, &mut page);
    n + page.length
}

// The listing, in an output that has room for it.
fn put_listing(rec: &[u8], out: &mut [u8]) -> usize
    requires legal { Legal rec.now }
    requires rec_in_bounds { length (wires_listing (job_of rec.now) (load rec.now)) ≤ length out.old }
    ensures { Puts (wires_listing (job_of rec.now) (load rec.now)) 0 out.old out.new result }
{
    let mut page = Page::new();
    count_page(rec, &mut page);
    let mut n = copy_page(&page, out, 0);
    let mut next = Some(first_wire());
    while let Some(from) = next {
        next = wires_page(rec, from, &mut page);
        n = copy_page(&page, out, n);
    }
    totals_page(rec, &mut page);
    copy_page(&page, out, n)
}

// The listing of the wires that the record holds, if the output has room for it: its length, or `None` where the output is shorter.
pub fn write(rec: &[u8], out: &mut [u8]) -> Option<usize>
    requires { Legal rec.now }
    ensures { listed_as result rec.now out.new ≡ listed_out out.old rec.now }
{
    let n = count_listing(rec);
    if out.len() < n {
        return None;
    }
    Some(put_listing(rec, out))
}
