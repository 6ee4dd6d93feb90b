// The two lines behind the wires of a listing: they are those of the wires listed, and nothing follows them.
use crate::fault::Fault;
use oracle_length::lines::total_lines;
use oracle_text::page::Page;
use oracle_text::scan::scan;

// What is wrong with the text from `at` on, behind so many wires of this length together.
pub fn judge_total(text: &[u8], at: usize, wires: usize, length: usize) -> Result<(), Fault> {
    if scan(text, at, b"(length ").is_none() {
        return Err(Fault::NotEnded);
    }
    let mut page = Page::EMPTY;
    total_lines(&mut page, wires, length);
    if at <= text.len() && &text[at..] == page.text() {
        Ok(())
    } else {
        Err(Fault::WrongTotal)
    }
}
