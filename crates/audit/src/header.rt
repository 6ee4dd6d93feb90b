// The header's five numbers.
ghost use Rattle.std.specs.Prelude.{◌≡◌, ◌≤◌, length};
ghost use Rattle.audit.specs.Laws.{numbers_fit};

use channel::{columns, diagonal, extra, orthogonal, rows};
use model::{Array, Capacities};

// Whether the five numbers are in range.
pub fn numbers_fit(rec: &[u8]) -> bool
    requires { 32768 ≤ length rec.now }
    ensures { result ≡ numbers_fit rec.now }
{
    let array = Array {
        rows: rows(rec),
        columns: columns(rec),
    };
    let capacities = Capacities {
        orthogonal: orthogonal(rec),
        diagonal: diagonal(rec),
        extra: extra(rec),
    };
    array.fits() & capacities.fit()
}
