// Calls of the prover that are refused, in the order of its tests: 6 5 1 6 3 2 3 8 11.
use super::attempt::{Attempt, ask, commit_sound, prove_asked, sound};
use commitment::{SALT_LENGTH, root_at, salt_at};
use field::Q;
use refusal::number_of;
use runs::faults::Fault;
use runs::inputs::{SMALL_ROOM, Slice, WORD_ROOM, filled};
use runs::sizes::{blinded, largest, shape};
use runs::small::{print_same, raise, small, small_blinded, spoil};
use std::io;

// The bound at the small sizes with two points: a counter, four answers of 4 words, two records of 4 words and a nonce, and 4 nodes.
const BUFFER: usize = 292;

// With a blinding row: two records of 5 words.
const BLINDED_BUFFER: usize = 300;

// The question of a proof with two points; one of version 2, which had no salt, was shorter.
const QUESTION_LENGTH: usize = 87;

const LENGTH_WITHOUT_SALT: usize = 55;

// The tree's last byte, and so the root's.
const ROOT_END: usize = 223;

// The least counter that qualifies for the question without a fault.
const LEAST: u32 = 88;

fn sound_proof() -> Attempt {
    sound(small(), 2, 8)
}

fn sound_blinded_proof() -> Attempt {
    sound(small_blinded(), 2, 8)
}

fn print_prove(
    rt: &impl Print,
    a: Attempt,
    question: &[u8],
    table: &[u32],
    tree: &[u8],
) -> io::Result<()> {
    let mut proof = filled::<u8, SMALL_ROOM>(Slice::Reply);
    let before = sponge::digest(&proof);
    let answer = prove_asked(a, question, table, tree, &mut proof);
    print!(rt;
        "kappa {} limit {} question {} ",
        a.kappa, a.limit, a.call.lengths.question
    )?;
    print!(rt; "buffer {} prove {}", a.call.room, number_of(answer))?;
    print_same(rt, before, sponge::digest(&proof))
}

// Commits, asks, makes what is lent wrong, and proves.
fn print_attempt(rt: &impl Print, a: Attempt) -> io::Result<()> {
    let mut table = filled::<u32, WORD_ROOM>(Slice::Table);
    let mut tree = filled::<u8, SMALL_ROOM>(Slice::Tree);
    let mut question = [0; SMALL_ROOM];
    commit_sound(a.call, &mut table, &mut tree);
    ask(a, &tree, &mut question);
    raise(&mut tree, a.call.tree_at);
    if a.call.spoiled == Some(Slice::Table) {
        spoil(&mut table, a.call.lengths.table);
    }
    print_prove(rt, a, &question, &table, &tree)
}

fn print_questions(rt: &impl Print) -> io::Result<()> {
    let a = sound_proof();
    print_attempt(rt, a.with(Fault::QuestionLength(13)))?;
    print_attempt(rt, a.with(Fault::QuestionRaised(0)))?;
    print_attempt(rt, a.with(Fault::QuestionRaised(4)))?;
    print_attempt(rt, a.with(Fault::QuestionRaised(8)))?;
    print_attempt(rt, a.with_kappa(17))?;
    print_attempt(rt, a.with_conversation())?;
    print_attempt(rt, a.with(Fault::QuestionLength(QUESTION_LENGTH - 1)))?;
    print_attempt(rt, a.with(Fault::QuestionLength(QUESTION_LENGTH + 1)))?;
    print_attempt(rt, a.with_point(Q))
}

pub fn print_refused_proofs(rt: &impl Print) -> io::Result<()> {
    let a = sound_proof();
    print_questions(rt)?;
    print_attempt(rt, a.with(Fault::Shorter(Slice::Coefficients)))?;
    print_attempt(rt, a.with(Fault::Shorter(Slice::Tails)))?;
    print_attempt(rt, a.with(Fault::Shorter(Slice::Masks)))?;
    print_attempt(rt, a.with(Fault::Shorter(Slice::Nonces)))?;
    print_attempt(rt, a.with(Fault::Shorter(Slice::Table)))?;
    print_attempt(rt, a.with(Fault::Shorter(Slice::Tree)))?;
    print_attempt(rt, a.with(Fault::Room(BUFFER - 1)))?;
    print_attempt(rt, a.with(Fault::Room(BUFFER + 1)))?;
    print_attempt(rt, a.with(Fault::Spoiled(Slice::Coefficients)))?;
    print_attempt(rt, a.with(Fault::Spoiled(Slice::Tails)))?;
    print_attempt(rt, a.with(Fault::Spoiled(Slice::Masks)))?;
    print_attempt(rt, a.with(Fault::Spoiled(Slice::Table)))?;
    print_attempt(rt, a.with(Fault::QuestionRaised(root_at())))?;
    print_attempt(rt, a.with(Fault::TreeRaised(ROOT_END)))?;
    print_attempt(rt, a.with_limit(0))?;
    print_attempt(rt, a.with_limit(LEAST))?;
    // Nothing wrong: accepted, and changed.
    print_attempt(rt, a.with_limit(LEAST + 1))
}

fn print_blinded_questions(rt: &impl Print) -> io::Result<()> {
    let a = sound_blinded_proof();
    // The header of version 1 was a byte shorter.
    print_attempt(rt, a.with(Fault::QuestionLength(14)))?;
    print_attempt(rt, a.with(Fault::Version(1)))?;
    print_attempt(rt, a.with(Fault::AskedSizes(blinded(small_blinded(), 3))))?;
    print_attempt(
        rt,
        a.with(Fault::AskedSizes(blinded(shape(2, 20, 1, 2, 2, 2), 17))),
    )?;
    print_attempt(
        rt,
        a.with(Fault::AskedSizes(blinded(shape(2, 49, 1, 2, 2, 2), 16))),
    )?;
    print_attempt(rt, a.with(Fault::AskedSizes(largest())))?;
    print_attempt(rt, a.with(Fault::QuestionLength(15)))
}

pub fn print_refused_blinded_proofs(rt: &impl Print) -> io::Result<()> {
    let a = sound_blinded_proof();
    print_blinded_questions(rt)?;
    print_attempt(rt, sound_proof().with(Fault::BlindCount(1)))?;
    print_attempt(rt, a.with(Fault::BlindCount(0)))?;
    print_attempt(rt, a.with(Fault::BlindCount(2)))?;
    // Other blinding rows than the commitment's.
    print_attempt(
        rt,
        sound_proof().with(Fault::AskedSizes(blinded(small(), 1))),
    )?;
    print_attempt(rt, a.with(Fault::AskedSizes(blinded(small_blinded(), 0))))?;
    print_attempt(rt, a.with(Fault::AskedSizes(blinded(small_blinded(), 2))))?;
    print_attempt(rt, a.with(Fault::Shorter(Slice::Coefficients)))?;
    print_attempt(rt, a.with(Fault::Shorter(Slice::Tails)))?;
    print_attempt(rt, a.with(Fault::Shorter(Slice::Table)))?;
    print_attempt(rt, a.with(Fault::Room(BLINDED_BUFFER - 1)))?;
    print_attempt(rt, a.with(Fault::Room(BLINDED_BUFFER + 1)))?;
    print_attempt(rt, a.with(Fault::Spoiled(Slice::Coefficients)))?;
    print_attempt(rt, a.with(Fault::Spoiled(Slice::Tails)))?;
    print_attempt(rt, a.with(Fault::Spoiled(Slice::Blinds)))?;
    print_attempt(rt, a.with(Fault::Spoiled(Slice::Masks)))?;
    print_attempt(rt, a.with(Fault::Spoiled(Slice::Table)))?;
    // Nothing wrong: accepted, and changed.
    print_attempt(rt, a)
}

pub fn print_refused_salted_proofs(rt: &impl Print) -> io::Result<()> {
    let a = sound_proof();
    let first = salt_at();
    let end = SALT_LENGTH - 1;
    let last = first + end;
    print_attempt(rt, a.with(Fault::Version(1)))?;
    print_attempt(rt, a.with(Fault::Version(2)))?;
    print_attempt(rt, a.with(Fault::Version(4)))?;
    print_attempt(rt, a.with(Fault::QuestionLength(LENGTH_WITHOUT_SALT)))?;
    print_attempt(rt, a.with(Fault::SaltLength(0)))?;
    print_attempt(rt, a.with(Fault::SaltLength(SALT_LENGTH - 1)))?;
    print_attempt(rt, a.with(Fault::SaltLength(SALT_LENGTH + 1)))?;
    // Another salt asked for, and a word that is no element.
    print_attempt(
        rt,
        a.with(Fault::QuestionRaised(first))
            .with(Fault::Spoiled(Slice::Masks)),
    )?;
    // Another salt asked for, and another one lent, at the first byte and at the last.
    print_attempt(rt, a.with(Fault::QuestionRaised(first)))?;
    print_attempt(rt, a.with(Fault::SaltRaised(0)))?;
    print_attempt(rt, a.with(Fault::QuestionRaised(last)))?;
    print_attempt(rt, a.with(Fault::SaltRaised(end)))?;
    // Another root, too; then no counter, too.
    let both = a.with(Fault::TreeRaised(ROOT_END));
    print_attempt(rt, both.with(Fault::QuestionRaised(first)))?;
    let none = a.with_limit(0);
    print_attempt(rt, none.with(Fault::QuestionRaised(last)))?;
    // Asked and lent are the same again: accepted, and changed. That the tree has another salt is not looked at.
    print_attempt(
        rt,
        a.with(Fault::QuestionRaised(first))
            .with(Fault::SaltRaised(0)),
    )?;
    print_attempt(
        rt,
        a.with(Fault::QuestionRaised(last))
            .with(Fault::SaltRaised(end)),
    )?;
    // Nothing wrong.
    print_attempt(rt, a)
}
