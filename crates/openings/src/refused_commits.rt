// Commits that are refused for sizes, lengths and words, in the order of the committer's tests: 1 2 3.
use codec::put_bytes;
use commitment::{SALT_LENGTH, Shape};
use refusal::number_of;
use runs::inputs::{SMALL_ROOM, Salt, Slice, WORD_ROOM, filled};
use runs::printing::{print_sizes, word_digest};
use runs::sizes::{Lengths, blinded, largest, lengths_of, salted, shape, shorter};
use runs::small::{commit_small, print_same, small, small_blinded};
use std::io;

// One digest of all that committing may write.
fn written_digest(table: &[u32], tree: &[u8]) -> [u8; 32] {
    let mut both = [0u8; 64];
    let t = word_digest(table);
    put_bytes(&mut both, 0, &t);
    let d = sponge::digest(tree);
    put_bytes(&mut both, 32, &d);
    sponge::digest(&both)
}

// Commits with these sizes and lengths, and the last word of one slice made q.
fn print_attempt(rt: &impl Print, s: Shape, n: Lengths, spoiled: Option<Slice>) -> io::Result<()> {
    let mut table = filled::<u32, WORD_ROOM>(Slice::Table);
    let mut tree = filled::<u8, SMALL_ROOM>(Slice::Tree);
    let before = written_digest(&table, &tree);
    let committed = commit_small(s, n, Salt::First, spoiled, &mut table, &mut tree);
    print_sizes(rt, s)?;
    print!(rt; " commit {}", number_of(committed))?;
    print_same(rt, before, written_digest(&table, &tree))
}

// With the lengths and words that the small sizes have.
fn with_sizes(rt: &impl Print, s: Shape) -> io::Result<()> {
    print_attempt(rt, s, lengths_of(small(), 1), None)
}

fn with_shorter(rt: &impl Print, s: Shape, slice: Slice) -> io::Result<()> {
    print_attempt(rt, s, shorter(lengths_of(s, 1), slice), None)
}

fn with_blind_count(rt: &impl Print, s: Shape, count: usize) -> io::Result<()> {
    let mut n = lengths_of(s, 1);
    n.blinds = count;
    print_attempt(rt, s, n, None)
}

// With the words that the small sizes have, and so many bytes of salt.
fn with_salt_length(
    rt: &impl Print,
    s: Shape,
    length: usize,
    spoiled: Option<Slice>,
) -> io::Result<()> {
    print_attempt(rt, s, salted(lengths_of(small(), 1), length), spoiled)
}

fn with_spoiled(rt: &impl Print, s: Shape, spoiled: Option<Slice>) -> io::Result<()> {
    print_attempt(rt, s, lengths_of(s, 1), spoiled)
}

pub fn print_refused_commits(rt: &impl Print) -> io::Result<()> {
    let s = small();
    with_sizes(rt, shape(0, 2, 1, 2, 2, 2))?;
    with_sizes(rt, shape(13, 2, 1, 2, 2, 2))?;
    with_sizes(rt, shape(2, 0, 1, 2, 2, 2))?;
    with_sizes(rt, shape(2, 65, 1, 2, 2, 2))?;
    with_sizes(rt, shape(2, 2, 0, 2, 2, 2))?;
    with_sizes(rt, shape(2, 2, 257, 2, 2, 2))?;
    with_sizes(rt, shape(2, 2, 1, 0, 2, 2))?;
    with_sizes(rt, shape(2, 2, 1, 257, 2, 2))?;
    with_sizes(rt, shape(12, 2, 16, 17, 2, 2))?;
    with_sizes(rt, shape(2, 2, 1, 2, 0, 2))?;
    with_sizes(rt, shape(12, 2, 1, 2, 65, 2))?;
    with_sizes(rt, shape(2, 2, 1, 2, 2, 0))?;
    with_sizes(rt, shape(2, 2, 1, 2, 2, 5))?;
    with_sizes(rt, shape(2, 2, 1, 2, 3, 2))?;
    with_shorter(rt, s, Slice::Coefficients)?;
    with_shorter(rt, s, Slice::Tails)?;
    with_shorter(rt, s, Slice::Masks)?;
    with_shorter(rt, s, Slice::Nonces)?;
    with_shorter(rt, s, Slice::Table)?;
    with_shorter(rt, s, Slice::Tree)?;
    with_spoiled(rt, s, Some(Slice::Coefficients))?;
    with_spoiled(rt, s, Some(Slice::Tails))?;
    with_spoiled(rt, s, Some(Slice::Masks))?;
    // Nothing wrong: accepted, and changed.
    with_spoiled(rt, s, None)
}

pub fn print_refused_blinded_commits(rt: &impl Print) -> io::Result<()> {
    let s = small_blinded();
    with_sizes(rt, blinded(small(), 3))?;
    with_sizes(rt, blinded(shape(2, 20, 1, 2, 2, 2), 17))?;
    with_sizes(rt, blinded(shape(2, 49, 1, 2, 2, 2), 16))?;
    with_sizes(rt, blinded(shape(2, 64, 1, 2, 2, 2), 1))?;
    with_sizes(rt, blinded(small(), u32::MAX))?;
    with_sizes(rt, largest())?;
    with_blind_count(rt, small(), 1)?;
    with_blind_count(rt, s, 0)?;
    with_blind_count(rt, s, 2)?;
    with_shorter(rt, s, Slice::Coefficients)?;
    with_shorter(rt, s, Slice::Tails)?;
    with_shorter(rt, s, Slice::Table)?;
    with_spoiled(rt, s, Some(Slice::Coefficients))?;
    with_spoiled(rt, s, Some(Slice::Tails))?;
    with_spoiled(rt, s, Some(Slice::Blinds))?;
    with_spoiled(rt, s, Some(Slice::Masks))?;
    // Nothing wrong: accepted, and changed.
    with_spoiled(rt, s, None)
}

pub fn print_refused_salted_commits(rt: &impl Print) -> io::Result<()> {
    let s = small();
    with_salt_length(rt, s, 0, None)?;
    with_salt_length(rt, s, SALT_LENGTH - 1, None)?;
    with_salt_length(rt, s, SALT_LENGTH + 1, None)?;
    with_salt_length(rt, s, SALT_LENGTH - 1, Some(Slice::Coefficients))?;
    with_salt_length(rt, shape(0, 2, 1, 2, 2, 2), SALT_LENGTH - 1, None)?;
    // Nothing wrong: accepted, and changed.
    with_salt_length(rt, s, SALT_LENGTH, None)
}
