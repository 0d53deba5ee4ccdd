// Digests, and what is printed.
use super::calls::front;
use super::inputs::{SMALL_ROOM, TABLE_ROOM};
use codec::put_words;
use commitment::Shape;
use std::fmt::{Display, Formatter, Write};
use std::{fmt, io};

// Prints bytes as hexadecimal digits.
#[derive(Drop)]
pub struct Hex<'a>(pub &'a [u8]);

impl<'a> Display for Hex<'a> {
    fn fmt<W: Write>(&self, f: &mut Formatter<W>) -> fmt::Result {
        for b in self.0 {
            write!(f, "{b:02x}")?;
        }
        Ok(())
    }
}

// Room for the largest table as bytes. A function of its own, so that a caller's goals do not show the zeros.
fn blank_bytes() -> [u8; 4 * TABLE_ROOM] {
    [0; 4 * TABLE_ROOM]
}

// The digest of words as bytes.
pub fn word_digest(words: &[u32]) -> [u8; 32] {
    let front_words = front(words, TABLE_ROOM);
    let end = 4 * front_words.len();
    let mut bytes = blank_bytes();
    put_words(&mut bytes, 0, front_words);
    sponge::digest(front(&bytes, end))
}

pub fn print_sizes(rt: &impl Print, s: Shape) -> io::Result<()> {
    let Shape {
        h,
        mu,
        nu,
        w,
        l,
        eta,
        beta,
    } = s;
    print!(rt; "h {h} mu {mu} nu {nu} w {w} l {l} eta {eta} beta {beta}")
}

// At most 1024 words, as bytes.
pub fn print_words(rt: &impl Print, words: &[u32]) -> io::Result<()> {
    let front_words = front(words, SMALL_ROOM / 4);
    let end = 4 * front_words.len();
    let mut bytes = [0; SMALL_ROOM];
    put_words(&mut bytes, 0, front_words);
    println!(rt; "{}", Hex(front(&bytes, end)))
}
