// Openings that are refused, in the order of the opener's tests: 6 5 1 6 3 4 2 3 8. The reply's length is asked for before each.
use super::calls::{open_front, print_reply_length};
use commitment::{SALT_LENGTH, root_at, salt_at};
use field::Q;
use lent::Witness;
use refusal::number_of;
use runs::calls::front;
use runs::faults::{Call, Fault, sound_call};
use runs::inputs::{SALT_ROOM, SMALL_ROOM, Slice, WORD_ROOM, filled, filled_salt};
use runs::questions::{filled_question, put_question};
use runs::sizes::{blinded, largest, lengths_of, shape};
use runs::small::{commit_small, lent_words, print_same, raise, small, small_blinded, spoil};
use std::io;

// The reply at the small sizes: three answers of 4 words, two records of 4 words and a nonce, and 2 missing nodes; and with as many nodes as two paths have.
const REPLY_LENGTH: usize = 208;

const REPLY_BOUND: usize = 272;

// With a blinding row: two records of 5 words.
const BLINDED_LENGTH: usize = 216;

// The question at the small sizes; one of version 2, which had no salt, was shorter.
const QUESTION_LENGTH: usize = 95;

const LENGTH_WITHOUT_SALT: usize = 63;

// The tree's last byte, and so the root's.
const ROOT_END: usize = 223;

// With nothing wrong.
fn sound() -> Call {
    sound_call(small(), filled_question(1, 1, 2), REPLY_LENGTH)
}

fn sound_blinded() -> Call {
    sound_call(small_blinded(), filled_question(1, 1, 2), BLINDED_LENGTH)
}

fn print_open(
    rt: &impl Print,
    a: Call,
    question: &[u8],
    table: &[u32],
    tree: &[u8],
) -> io::Result<()> {
    let n = a.lengths;
    let coefficients = lent_words(Slice::Coefficients, n.coefficients, a.spoiled);
    let tails = lent_words(Slice::Tails, n.tails, a.spoiled);
    let blinds = lent_words(Slice::Blinds, n.blinds, a.spoiled);
    let masks = lent_words(Slice::Masks, n.masks, a.spoiled);
    let nonces = filled::<u8, SMALL_ROOM>(Slice::Nonces);
    let mut salt = filled_salt::<SALT_ROOM>(a.salt);
    raise(&mut salt, a.lent_salt_at);
    let mut reply = filled::<u8, SMALL_ROOM>(Slice::Reply);
    let before = sponge::digest(&reply);
    print_reply_length(rt, front(question, n.question))?;
    let all = Witness {
        coefficients: &coefficients,
        tails: &tails,
        blinds: &blinds,
        masks: &masks,
        nonces: &nonces,
        salt: &salt,
    };
    let answer = open_front(n, a.room, question, &all, table, tree, &mut reply);
    print!(rt; " open {}", number_of(answer))?;
    print_same(rt, before, sponge::digest(&reply))
}

// Commits, asks, makes what is lent wrong, and opens.
fn print_attempt(rt: &impl Print, a: Call) -> io::Result<()> {
    let n = lengths_of(a.sizes, a.asked.m);
    let mut table = filled::<u32, WORD_ROOM>(Slice::Table);
    let mut tree = filled::<u8, SMALL_ROOM>(Slice::Tree);
    let mut question = [0; SMALL_ROOM];
    let _ = commit_small(a.sizes, n, a.salt, None, &mut table, &mut tree);
    put_question(a.asked_sizes, a.asked, front(&tree, n.tree), &mut question);
    raise(&mut question, a.question_at);
    raise(&mut tree, a.tree_at);
    if a.spoiled == Some(Slice::Table) {
        spoil(&mut table, n.table);
    }
    print_open(rt, a, &question, &table, &tree)
}

pub fn print_refused_opens(rt: &impl Print) -> io::Result<()> {
    let s = sound();
    print_attempt(rt, s.with(Fault::QuestionLength(13)))?;
    print_attempt(rt, s.with(Fault::QuestionRaised(0)))?;
    print_attempt(rt, s.with(Fault::QuestionRaised(3)))?;
    print_attempt(rt, s.with(Fault::QuestionRaised(4)))?;
    print_attempt(rt, s.with(Fault::QuestionRaised(8)))?;
    print_attempt(rt, s.with(Fault::QuestionRaised(11)))?;
    print_attempt(rt, s.with(Fault::QuestionRaised(13)))?;
    print_attempt(rt, s.with(Fault::QuestionLength(QUESTION_LENGTH - 1)))?;
    print_attempt(rt, s.with(Fault::Challenges([Q, 0, 0, 0])))?;
    print_attempt(rt, s.with(Fault::Points([u32::MAX, 0, 0, 0, 0, 0, 0, 0])))?;
    print_attempt(rt, s.with(Fault::Indices(1, 0)))?;
    print_attempt(rt, s.with(Fault::Indices(3, 1)))?;
    print_attempt(rt, s.with(Fault::Shorter(Slice::Coefficients)))?;
    print_attempt(rt, s.with(Fault::Shorter(Slice::Tails)))?;
    print_attempt(rt, s.with(Fault::Shorter(Slice::Masks)))?;
    print_attempt(rt, s.with(Fault::Shorter(Slice::Nonces)))?;
    print_attempt(rt, s.with(Fault::Shorter(Slice::Table)))?;
    print_attempt(rt, s.with(Fault::Shorter(Slice::Tree)))?;
    print_attempt(rt, s.with(Fault::Room(0)))?;
    print_attempt(rt, s.with(Fault::Room(REPLY_LENGTH - 1)))?;
    print_attempt(rt, s.with(Fault::Room(REPLY_LENGTH + 1)))?;
    print_attempt(rt, s.with(Fault::Room(REPLY_BOUND)))?;
    print_attempt(rt, s.with(Fault::Spoiled(Slice::Coefficients)))?;
    print_attempt(rt, s.with(Fault::Spoiled(Slice::Tails)))?;
    print_attempt(rt, s.with(Fault::Spoiled(Slice::Masks)))?;
    print_attempt(rt, s.with(Fault::Spoiled(Slice::Table)))?;
    print_attempt(rt, s.with(Fault::QuestionRaised(root_at())))?;
    print_attempt(rt, s.with(Fault::TreeRaised(ROOT_END)))?;
    // Nothing wrong: accepted, and changed.
    print_attempt(rt, s)
}

pub fn print_refused_blinded_opens(rt: &impl Print) -> io::Result<()> {
    let plain = sound();
    let s = sound_blinded();
    // The header of version 1 was a byte shorter.
    print_attempt(rt, plain.with(Fault::QuestionLength(14)))?;
    print_attempt(rt, plain.with(Fault::Version(1)))?;
    print_attempt(rt, s.with(Fault::AskedSizes(blinded(small_blinded(), 3))))?;
    print_attempt(
        rt,
        s.with(Fault::AskedSizes(blinded(shape(2, 20, 1, 2, 2, 2), 17))),
    )?;
    print_attempt(
        rt,
        s.with(Fault::AskedSizes(blinded(shape(2, 49, 1, 2, 2, 2), 16))),
    )?;
    print_attempt(rt, s.with(Fault::AskedSizes(largest())))?;
    print_attempt(rt, plain.with(Fault::QuestionLength(15)))?;
    print_attempt(rt, plain.with(Fault::BlindCount(1)))?;
    print_attempt(rt, s.with(Fault::BlindCount(0)))?;
    print_attempt(rt, s.with(Fault::BlindCount(2)))?;
    // Other blinding rows than the commitment's.
    print_attempt(rt, plain.with(Fault::AskedSizes(blinded(small(), 1))))?;
    print_attempt(rt, s.with(Fault::AskedSizes(blinded(small_blinded(), 0))))?;
    print_attempt(rt, s.with(Fault::AskedSizes(blinded(small_blinded(), 2))))?;
    print_attempt(rt, s.with(Fault::Shorter(Slice::Coefficients)))?;
    print_attempt(rt, s.with(Fault::Shorter(Slice::Tails)))?;
    print_attempt(rt, s.with(Fault::Shorter(Slice::Table)))?;
    print_attempt(rt, s.with(Fault::Room(BLINDED_LENGTH - 1)))?;
    print_attempt(rt, s.with(Fault::Room(BLINDED_LENGTH + 1)))?;
    print_attempt(rt, s.with(Fault::Spoiled(Slice::Coefficients)))?;
    print_attempt(rt, s.with(Fault::Spoiled(Slice::Tails)))?;
    print_attempt(rt, s.with(Fault::Spoiled(Slice::Blinds)))?;
    print_attempt(rt, s.with(Fault::Spoiled(Slice::Masks)))?;
    print_attempt(rt, s.with(Fault::Spoiled(Slice::Table)))?;
    // Nothing wrong: accepted, and changed.
    print_attempt(rt, s)
}

pub fn print_refused_salted_opens(rt: &impl Print) -> io::Result<()> {
    let s = sound();
    let first = salt_at();
    let end = SALT_LENGTH - 1;
    let last = first + end;
    print_attempt(rt, s.with(Fault::Version(1)))?;
    print_attempt(rt, s.with(Fault::Version(2)))?;
    print_attempt(rt, s.with(Fault::Version(4)))?;
    print_attempt(rt, s.with(Fault::QuestionLength(LENGTH_WITHOUT_SALT)))?;
    print_attempt(rt, s.with(Fault::SaltLength(0)))?;
    print_attempt(rt, s.with(Fault::SaltLength(SALT_LENGTH - 1)))?;
    print_attempt(rt, s.with(Fault::SaltLength(SALT_LENGTH + 1)))?;
    // Another salt asked for, and a word that is no element.
    let masks = s.with(Fault::QuestionRaised(first));
    print_attempt(rt, masks.with(Fault::Spoiled(Slice::Masks)))?;
    // Another salt asked for, and another one lent, at the first byte and at the last.
    print_attempt(rt, s.with(Fault::QuestionRaised(first)))?;
    print_attempt(rt, s.with(Fault::SaltRaised(0)))?;
    print_attempt(rt, s.with(Fault::QuestionRaised(last)))?;
    print_attempt(rt, s.with(Fault::SaltRaised(end)))?;
    // Another root, too.
    let both = s.with(Fault::TreeRaised(ROOT_END));
    print_attempt(rt, both.with(Fault::QuestionRaised(first)))?;
    // Asked and lent are the same again: accepted, and changed. That the tree has another salt is not looked at.
    print_attempt(
        rt,
        s.with(Fault::QuestionRaised(first))
            .with(Fault::SaltRaised(0)),
    )?;
    print_attempt(
        rt,
        s.with(Fault::QuestionRaised(last))
            .with(Fault::SaltRaised(end)),
    )?;
    // Nothing wrong.
    print_attempt(rt, s)
}
