// The two lines behind the wires of a listing: their total length, and the mean per wire as quotient and remainder.
use oracle_text::page::Page;

// The lines of so many wires of this length together.
pub fn total_lines(out: &mut Page, wires: usize, length: usize) {
    let (quotient, remainder) = if wires == 0 {
        (0, 0)
    } else {
        (length / wires, length % wires)
    };
    out.word(b"(length ");
    out.decimal(length);
    out.word(b")\n(mean ");
    out.pair(quotient, remainder);
    out.word(b")\n");
}
