// The bytes that nothing uses.
ghost use Rattle.std.specs.Prelude.{◌≡◌, ◌+◌, ◌≤◌, length};
ghost use Rattle.cell.specs.Unused.{is_clear, unused_clear};

// Whether n bytes from `start` on are all 0. The loop has no way out, so that it can be made one of vectors.
fn is_clear(rec: &[u8], start: usize, n: usize) -> bool
    requires { (32768 ≤ length rec.now) × (start + n ≤ 32768) }
    ensures { result ≡ is_clear rec.now start n }
{
    let mut clear = true;
    for b in &rec[start..start + n] {
        clear = clear & (*b == 0);
    }
    clear
}

// Whether the bytes that nothing uses yet, behind the header's numbers, are all 0.
pub fn unused_clear(rec: &[u8]) -> bool
    requires { 32768 ≤ length rec.now }
    ensures { result ≡ unused_clear rec.now }
{
    is_clear(rec, 5, 763)
}
