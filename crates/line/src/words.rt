// The fixed byte strings of job text: each form's first word with what stands between it and a number, and what stands after a line's last number. The
// reader compares them, and the writer writes them.
pub const ARRAY: &[u8] = b"(array (pins ";

pub const CAPS: &[u8] = b" (caps ";

pub const ARRAY_END: &[u8] = b")\n";

pub const CHOSEN: &[u8] = b"(chosen ";

pub const MISSING: &[u8] = b"(missing ";

pub const CLOSED: &[u8] = b"(closed ";

pub const OWN: &[u8] = b"(d ";

pub const LAID: &[u8] = b"(laid ";

pub const GROUP_END: &[u8] = b"\n";

pub const END: &[u8] = b"(end)\n";

// The letters of the sides, by their codes.
pub const SIDES: [u8; 4] = *b"nesw";
