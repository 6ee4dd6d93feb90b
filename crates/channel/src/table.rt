// The constant table of the map, a row for each d % 64: the lists of specs/Map.antt, packed into words. A word is read by cases: an array that is read at a
// number known only later is built anew for each read. The way back of a dart stands on it.
ghost use Rattle.std.specs.Prelude.{◌≡◌, ℕ, ◌+◌, ◌*◌, ◌/◌, ◌%◌, ◌^◌, ◌<◌, ltb};
ghost use Rattle.channel.specs.Map.{rev, turn_of, kind_of, owner_of, sign_of, code_of, seat_of};

// The neighbours of a spot by its kind, in document 01's clockwise order, a byte for each slot: what the dart is, and 16 times the kind of its link.
const NEIGHBOURS: [usize; 8] = [
    0x0000_ef08_dccc_bcac,
    0x0000_0eef_d7c7_b7a7,
    0xbd00_6ab6_5263_2201,
    0xcd00_7ac6_2273_3211,
    0xdd00_8ad6_3283_4201,
    0xad00_9aa6_4293_5211,
    0x0000_0005_9989_7969,
    0x0000_0b00_9484_7464,
];

// The rows of the darts along the 15 kinds of links and against them, a byte for each.
const SEATS: [usize; 4] = [
    0x3938_2921_1911_1810,
    0x000c_0b0a_0908_3b3a,
    0x1a12_132b_231b_2820,
    0x0005_241c_142c_2a22,
];

// Twice the place of the link's byte, counted from the dart's cell, and 1 more against the link's positive way; 1 from an entry to its exit, and 0 where
// no wire goes: 16 bits for each of four rows.
pub const PLACES: [usize; 16] = [
    0x0000_0000_0000_0000,
    0x0000_0000_cdaf_0001,
    0xc12e_b4ae_a82e_9bae,
    0x0000_0000_0000_cdae,
    0x5d2f_69af_37ae_1eae,
    0x0000_0000_0000_a82f,
    0x37af_762f_442e_2b30,
    0x0000_0000_0000_b4b1,
    0x442f_82af_50ae_1eff,
    0x0000_0000_0000_c181,
    0x50af_8f2f_5d2e_2b2f,
    0x0000_0000_0000_9bff,
    0x0000_0000_0000_0000,
    0x0000_0000_0000_0001,
    0x8f2e_82ae_762e_69ae,
    0x0000_0000_0000_0000,
];

// The neighbours of a spot of kind k.
fn row_word(k: usize) -> usize
    requires { k < 8 }
    ensures { (j : ℕ) → j < 8 → (result / 2 ^ (j * 8) % 16 ≡ code_of (8 * k + j)) × (result / 2 ^ (j * 8 + 4) % 16 ≡ kind_of (8 * k + j)) }
{
    match k {
        0 => NEIGHBOURS[0],
        1 => NEIGHBOURS[1],
        2 => NEIGHBOURS[2],
        3 => NEIGHBOURS[3],
        4 => NEIGHBOURS[4],
        5 => NEIGHBOURS[5],
        6 => NEIGHBOURS[6],
        _ => NEIGHBOURS[7],
    }
}

// The ways back of the rows 4 k to 4 k + 3: how far ahead each lies, 16 bits for each.
fn turn_word(k: usize) -> usize
    requires { k < 16 }
    ensures { (j : ℕ) → j < 4 → result / 2 ^ (j * 16) % 65536 ≡ turn_of (4 * k + j) }
{
    match k {
        0 => 0x0061_0a5a_0a93_00ac,
        1 => 0x0a80_0a80_0a87_0a89,
        2 => 0x005c_0a55_0a8e_00a7,
        3 => 0x0a80_0a80_0a77_0a79,
        4 => 0x0a96_0a9e_0a8a_0090,
        5 => 0x0a72_0a80_0aa3_0a6d,
        6 => 0x0a76_0a97_0a8a_0ad0,
        7 => 0x0aab_0a80_0a9c_0aa6,
        8 => 0x0a76_0a90_0a8a_1470,
        9 => 0x14a4_0a80_0a95_149f,
        10 => 0x0a76_0a89_0a6a_0a30,
        11 => 0x1459_0a80_0a8e_1454,
        12 => 0x0a77_0a70_0a69_0a62,
        13 => 0x0a80_0a80_0a80_0a89,
        14 => 0x0a72_0a6b_0a64_0a5d,
        _ => 0x0a80_0a80_0a77_0a80,
    }
}

// The rows of eight kinds of links one way.
fn seat_word(k: usize) -> usize
    requires { k < 4 }
    ensures { (j : ℕ) → j < 8 → result / 2 ^ (j * 8) % 256 ≡ seat_of (8 * (k % 2) + j) (ltb k 2) }
{
    match k {
        0 => SEATS[0],
        1 => SEATS[1],
        2 => SEATS[2],
        _ => SEATS[3],
    }
}

// The row of the dart along the link of kind k, its positive way or the other.
pub fn seat_of(k: usize, forth: bool) -> usize
    requires { k < 15 }
    ensures { (result ≡ seat_of k forth) × (result < 64) }
{
    if forth {
        return (seat_word(k / 8) >> (k % 8 * 8)) % 256;
    }
    (seat_word(2 + k / 8) >> (k % 8 * 8)) % 256
}

// What a dart is, 0 to 15.
pub fn code_of(i: usize) -> usize
    requires { i < 64 }
    ensures { result ≡ code_of i }
{
    (row_word(i / 8) >> (i % 8 * 8)) % 16
}

// The kind of its link, 0 to 14.
pub fn kind_of(i: usize) -> usize
    requires { i < 64 }
    ensures { result ≡ kind_of i }
{
    (row_word(i / 8) >> (i % 8 * 8 + 4)) % 16
}

// 0 along the link's positive way, 1 against it.
pub fn sign_of(i: usize) -> usize
    requires { i < 64 }
    ensures { result ≡ sign_of i }
{
    (0x2000_bdbd_bcbc_2020 >> i) % 2
}

// How far the cell stands that owns the link.
pub fn owner_of(i: usize) -> usize
    requires { i < 64 }
    ensures { result ≡ owner_of i }
{
    (0x0000_0090_9100_0000 >> i) % 2 + (0x0000_9091_0000_0000 >> i) % 2 * 40
}

// How far ahead the way back lies, 2,688 more.
pub fn turn_of(i: usize) -> usize
    requires { i < 64 }
    ensures { result ≡ turn_of i }
{
    (turn_word(i / 4) >> (i % 4 * 16)) % 65536
}

// The way back of a dart.
pub fn reverse(d: usize) -> usize
    requires { d < 105024 }
    ensures { (result ≡ rev d) × (result < 105024) }
{
    let t = d + turn_of(d % 64);
    if t < 2688 {
        return d;
    }
    if t < 107712 {
        return t - 2688;
    }
    d
}

// The spot that a dart leads to.
pub fn head_of(d: usize) -> usize
    requires { d < 105024 }
    ensures { (result ≡ rev d / 8) × (result < 13128) }
{
    reverse(d) / 8
}
