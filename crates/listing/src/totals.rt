// The lines behind the wires of a legal record: their total length, and the mean of a wire as quotient and remainder. Callers have audited the record.
ghost use Rattle.std.specs.Prelude.{◌≡◌, ◌≤◌};
ghost use Rattle.model.specs.Record.{job_of, load, Legal};
ghost use Rattle.model.specs.Listing.{mean_quotient, mean_rest};
ghost use Rattle.listing.specs.Puts.{Puts};
ghost use Rattle.listing.specs.Whole.{total_lines};

use crate::page::Page;
use crate::wires::count_wires;
use wire::length::total_length;

// The mean of the total n over w wires; 0 without wires.
fn mean(n: usize, w: usize) -> usize
    ensures { result ≡ mean_quotient n w }
{
    if w == 0 {
        return 0;
    }
    n / w
}

// What the mean leaves of the total; 0 without wires.
fn mean_rest(n: usize, w: usize) -> usize
    ensures { result ≡ mean_rest n w }
{
    if w == 0 {
        return 0;
    }
    n % w
}

// The two lines, from the start of the page.
pub fn totals_page(rec: &[u8], page: &mut Page)
    requires { Legal rec.now }
    ensures { Puts (total_lines (job_of rec.now) (load rec.now)) 0 page.old.bytes page.new.bytes page.new.length
        × (page.new.length ≤ 90) }
{
    let n = total_length(rec);
    let w = count_wires(rec);
    page.length = 0;
    page.put_line(b"(length", n);
    page.put_pair(b"(mean", mean(n, w), mean_rest(n, w), b")\n");
}
