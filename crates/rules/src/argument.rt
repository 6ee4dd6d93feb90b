// A number as an argument writes it.
ghost use Rattle.rules.specs.Arguments.{Written};

// The number that stands for every larger one: each is out of every range.
const MOST: u64 = 10000000000;

// The number that the digits of a text write, capped; `None` where it is not written in digits.
pub fn read_number(text: &[u8]) -> Option<u64>
    ensures { Written text.now result }
{
    if text.is_empty() {
        return None;
    }
    let mut n: u64 = 0;
    for &b in text {
        if !b.is_ascii_digit() {
            return None;
        }
        n = (10 * n + u64::from(b - b'0')).min(MOST);
    }
    Some(n)
}
