// The sizes at which calls are refused, and inputs for them in which one word can be no element and one byte another.
use super::calls::{commit_front, front_mut};
use super::inputs::{SALT_ROOM, SMALL_ROOM, Salt, Slice, WORD_ROOM, filled, filled_salt};
use super::sizes::{Lengths, blinded, shape};
use commitment::Shape;
use field::Q;
use lent::Witness;
use refusal::Refusal;
use std::io;

pub fn small() -> Shape {
    shape(2, 2, 1, 2, 2, 2)
}

// With one blind.
pub fn small_blinded() -> Shape {
    blinded(shape(2, 2, 2, 1, 2, 2), 1)
}

// Makes the last of the first n words q.
pub fn spoil(words: &mut [u32], n: usize) {
    if let Some(last) = front_mut(words, n).last_mut() {
        *last = Q;
    }
}

// Raises the byte at this place by 1.
pub fn raise(bytes: &mut [u8], at: Option<usize>) {
    let Some(at) = at else {
        return;
    };
    if let Some(byte) = bytes.get_mut(at) {
        *byte = byte.wrapping_add(1);
    }
}

// Words by the rule, of which n are lent; where this is the slice to spoil, the last of these is q.
pub fn lent_words(slice: Slice, n: usize, spoiled: Option<Slice>) -> [u32; WORD_ROOM] {
    let mut words = filled(slice);
    if spoiled == Some(slice) {
        spoil(&mut words, n);
    }
    words
}

// Commits with this salt and the last word of one slice made q.
pub fn commit_small(
    s: Shape,
    n: Lengths,
    salt: Salt,
    spoiled: Option<Slice>,
    table: &mut [u32],
    tree: &mut [u8],
) -> Result<(), Refusal> {
    let coefficients = lent_words(Slice::Coefficients, n.coefficients, spoiled);
    let tails = lent_words(Slice::Tails, n.tails, spoiled);
    let blinds = lent_words(Slice::Blinds, n.blinds, spoiled);
    let masks = lent_words(Slice::Masks, n.masks, spoiled);
    let nonces = filled::<u8, SMALL_ROOM>(Slice::Nonces);
    let lent_salt = filled_salt::<SALT_ROOM>(salt);
    let all = Witness {
        coefficients: &coefficients,
        tails: &tails,
        blinds: &blinds,
        masks: &masks,
        nonces: &nonces,
        salt: &lent_salt,
    };
    commit_front(s, n, &all, table, tree)
}

// Whether what may be written is as before, by digests.
pub fn print_same(rt: &impl Print, before: [u8; 32], after: [u8; 32]) -> io::Result<()> {
    let outcome = if before == after { "same" } else { "changed" };
    println!(rt; " {outcome}")
}
