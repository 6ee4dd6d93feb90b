// The slots of a spot that lead to spots with no mark, as the bits of a number.
ghost use Rattle.std.specs.Prelude.{◌≡◌, ℕ, ◌+◌, ◌*◌, ◌/◌, ◌%◌, ◌^◌, ◌≤◌, ◌<◌, length};
ghost use Rattle.channel.specs.Map.{rev};
ghost use Rattle.channel.specs.Map.Heads.{head_of, HeadWords};
ghost use Rattle.slots.specs.Ahead.{Bits, unset, Within};

use channel::head_of;

// How far ahead the spot lies that a dart leads to, 336 more, 16 bits for each of four rows.
const HEADS: [usize; 16] = [
    0x000c_014b_0152_0015,
    0x0150_0150_0151_0151,
    0x000b_014a_0151_0014,
    0x0150_0150_014f_014f,
    0x0153_0154_0151_0012,
    0x014f_0150_0155_014e,
    0x014f_0153_0151_015a,
    0x0156_0150_0154_0155,
    0x014f_0152_0151_028e,
    0x0295_0150_0153_0294,
    0x014f_0151_014d_0146,
    0x028c_0150_0152_028b,
    0x014f_014e_014d_014c,
    0x0150_0150_0150_0151,
    0x014e_014d_014c_014b,
    0x0150_0150_014f_0150,
];

// 1 where the spot v has no mark, else 0.
fn bare(marks: &[u8], v: usize) -> usize
    requires { v < length marks.now }
    ensures { (result ≡ unset marks.now v) × (result < 2) }
{
    if marks[v] == 1 {
        return 0;
    }
    1
}

// Four slots by a word: the marks that it points to.
fn four_near(near: &[u8], w: usize) -> usize
    requires { (662 ≤ length near.now) × Within w }
    ensures { Bits 4 (λ j. unset near.now (w / 2 ^ (j * 16) % 65536)) result }
{
    let a = bare(near, w % 65536);
    let b = bare(near, (w >> 16) % 65536);
    let c = bare(near, (w >> 32) % 65536);
    let d = bare(near, (w >> 48) % 65536);
    a + 2 * b + 4 * c + 8 * d
}

// Eight slots by two words.
fn eight_near(near: &[u8], p: usize, q: usize) -> usize
    requires { (662 ≤ length near.now) × Within p × Within q }
    ensures { (k : ℕ) → HeadWords k p q → Bits 8 (λ j. unset near.now (head_of (8 * k + j))) result }
{
    four_near(near, p) + 16 * four_near(near, q)
}

// The slots of a spot of kind k: the words are constants.
fn kind_near(near: &[u8], k: usize) -> usize
    requires { (662 ≤ length near.now) × (k < 8) }
    ensures { Bits 8 (λ j. unset near.now (head_of (8 * k + j))) result }
{
    match k {
        0 => eight_near(near, HEADS[0], HEADS[1]),
        1 => eight_near(near, HEADS[2], HEADS[3]),
        2 => eight_near(near, HEADS[4], HEADS[5]),
        3 => eight_near(near, HEADS[6], HEADS[7]),
        4 => eight_near(near, HEADS[8], HEADS[9]),
        5 => eight_near(near, HEADS[10], HEADS[11]),
        6 => eight_near(near, HEADS[12], HEADS[13]),
        _ => eight_near(near, HEADS[14], HEADS[15]),
    }
}

// Four darts from d on.
fn four_from(marks: &[u8], d: usize) -> usize
    requires { (13128 ≤ length marks.now) × (d + 3 < 105024) }
    ensures { Bits 4 (λ j. unset marks.now (rev (d + j) / 8)) result }
{
    let a = bare(marks, head_of(d));
    let b = bare(marks, head_of(d + 1));
    let c = bare(marks, head_of(d + 2));
    let e = bare(marks, head_of(d + 3));
    a + 2 * b + 4 * c + 8 * e
}

// The slots of u that lead to spots with no mark. In a cell that has all its neighbours no way back leaves the range.
pub fn unmarked(marks: &[u8], u: usize) -> usize
    requires { (13128 ≤ length marks.now) × (u < 13128) }
    ensures { Bits 8 (λ k. unset marks.now (rev (8 * u + k) / 8)) result }
{
    if (u < 336) | (12800 <= u) {
        return four_from(marks, 8 * u) + 16 * four_from(marks, 8 * u + 4);
    }
    let at = u - 336;
    let near = &marks[at..];
    kind_near(near, u % 8)
}
