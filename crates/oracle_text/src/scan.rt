// Matching of bytes against a template: `#` stands for a number of at most four digits without leading zeros, `@` for
// one letter, any other byte for itself.
ghost use Rattle.std.specs.Prelude.{◌<◌};

// What a template found: where it ends, and the values of its numbers and letters in order.
#[derive(Clone, Copy)]
pub struct Found {
    pub at: usize,
    count: usize,
    values: [u16; 5],
}

impl Found {
    // The value `k`, 0 where there is none.
    pub fn value(&self, k: usize) -> usize
        ensures { result < 65536 }
    {
        if k < 5 { wide(self.values[k]) } else { 0 }
    }

    // The same with one value more, which ends at `at`; the template has no more than five.
    fn with(mut self, value: u16, at: usize) -> Option<Found> {
        if self.count >= 5 {
            return None;
        }
        self.values[self.count] = value;
        self.count += 1;
        self.at = at;
        Some(self)
    }
}

fn wide(x: u16) -> usize
    ensures { result < 65536 }
{
    x as usize
}

// The byte at `at`, 0 past the end.
pub fn byte_at(text: &[u8], at: usize) -> u8 {
    if at < text.len() { text[at] } else { 0 }
}

// The number at `at` and the place after it, where there is one.
fn number(text: &[u8], at: usize) -> Option<(u16, usize)> {
    let mut value: u16 = 0;
    let mut end = at;
    for _ in 0..4 {
        let leads = end > at && value == 0;
        if leads || end >= text.len() || !text[end].is_ascii_digit() || value > 999 {
            break;
        }
        value = 10 * value + u16::from(text[end] - b'0');
        end += 1;
    }
    if end > at { Some((value, end)) } else { None }
}

// Goes on by one byte `t` of the template, where the text goes on with it.
fn token(text: &[u8], found: Found, t: u8) -> Option<Found> {
    let at = found.at;
    if at >= text.len() {
        return None;
    }
    if t == b'#' {
        let (value, end) = number(text, at)?;
        return found.with(value, end);
    }
    if t == b'@' {
        return found.with(u16::from(text[at]), at + 1);
    }
    if t == text[at] {
        return Some(Found {
            at: at + 1,
            ..found
        });
    }
    None
}

// Matches the text from `at` on against the whole template.
pub fn scan(text: &[u8], at: usize, template: &[u8]) -> Option<Found> {
    let mut found = Found {
        at,
        count: 0,
        values: [0; 5],
    };
    for t in template {
        found = token(text, found, *t)?;
    }
    Some(found)
}
