// The inputs of all runs, made by two rules, that of words and that of bytes, and the room that buffers have for them.
use field::Q;
use std::array::from_fn;

// Room for the largest sizes: for coefficients, tails, blinds or masks, and for each of the others.
pub const WORD_ROOM: usize = 16384;

pub const NONCE_ROOM: usize = 131072;

pub const SALT_ROOM: usize = 64;

pub const TABLE_ROOM: usize = 278528;

pub const TREE_ROOM: usize = 262112;

pub const REPLY_ROOM: usize = 65536;

// For a question, or for the nonces, tree or reply of small sizes.
pub const SMALL_ROOM: usize = 4096;

// What is lent and asked, with the numbers that the rules take.
#[derive(Clone, Copy, PartialEq, Eq)]
pub enum Slice {
    Coefficients = 1,
    Tails = 2,
    Masks = 3,
    Nonces = 4,
    Challenges = 5,
    Points = 6,
    Table = 7,
    Tree = 8,
    // A reply, or a proof.
    Reply = 9,
    Values = 10,
    Blinds = 11,
}

// A commitment's salt, with the numbers that the rule for words takes.
#[derive(Clone, Copy, PartialEq, Eq)]
pub enum Salt {
    // Case P's.
    Zeros = 0,
    // With this one the changed proofs of `offline_proofs` are refused by every test.
    First = 42,
    // That of another commitment to the same words.
    Other = 43,
}

// Item i of the slice with this number, before it is cut to a word or a byte.
fn mixed(number: usize, i: usize) -> usize {
    i % 1048576 * 2654435761 + number % 256 * 97 + 12345
}

// What buffers hold: words or bytes, each by its rule.
pub trait Item: Copy {
    fn of(number: usize, i: usize) -> Self;
}

impl Item for u32 {
    fn of(number: usize, i: usize) -> u32 {
        (mixed(number, i) % (Q as usize)) as u32
    }
}

impl Item for u8 {
    fn of(number: usize, i: usize) -> u8 {
        (mixed(number, i) / 65536 % 256) as u8
    }
}

// A buffer filled by the rule.
pub fn filled<T: Item, const N: usize>(slice: Slice) -> [T; N] {
    from_fn(|i| T::of(slice as usize, i))
}

// Five points, 0 among them, and the first ones again.
pub fn filled_points() -> [u32; 8] {
    let [p, q, r, _, s]: [u32; 5] = filled(Slice::Points);
    [p, q, r, 0, s, p, q, r]
}

// The salt, and bytes after it where there is room: words as bytes, since the rule for bytes hardly depends on the number.
pub fn filled_salt<const N: usize>(salt: Salt) -> [u8; N] {
    if salt == Salt::Zeros {
        return [0; N];
    }
    from_fn(|i| u32::of(salt as usize, i / 4).to_le_bytes()[i % 4])
}
