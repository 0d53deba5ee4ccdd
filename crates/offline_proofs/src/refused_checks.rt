// Proofs that are refused, in the order of the check's tests: 6 5 1 6 3 2 7 3 12 8 9 10. The proof is made without a fault, and changed then.
use super::attempt::{Attempt, ask, commit_sound, prove_asked, sound};
use codec::put_word;
use commitment::{SALT_LENGTH, root_at, salt_at};
use field::Q;
use proof_checker::check_proof;
use refusal::number_of;
use runs::calls::{front, front_mut};
use runs::faults::Fault;
use runs::inputs::{SMALL_ROOM, Slice, WORD_ROOM, filled};
use runs::printing::word_digest;
use runs::sizes::{blinded, largest, shape};
use runs::small::{print_same, raise, small, small_blinded};
use std::io;

// Where the parts of a proof at the small sizes with two points begin: R_1, columns of the first answer and its second tail, rows, masks and nonce of the first leaf, nodes.
const R_AT: usize = 4;

const COLUMNS_AT: usize = 36;

const TAIL_AT: usize = 48;

const ROWS_AT: usize = 68;

const MASKS_AT: usize = 76;

const NONCE_AT: usize = 84;

const NODES_AT: usize = 164;

// With the two nodes that the leaves 0 and 3 miss, which counter 11 draws.
const PROOF_LENGTH: usize = 228;

// With a blinding row: where it begins in the first leaf, and the length, with the one node that the leaves then drawn miss.
const BLINDING_ROW_AT: usize = 76;

const BLINDED_LENGTH: usize = 204;

// The question of a proof with two points; one of version 2, which had no salt, was shorter.
const QUESTION_LENGTH: usize = 87;

const LENGTH_WITHOUT_SALT: usize = 55;

// A counter that draws the same leaves and does not qualify.
const UNQUALIFIED: u8 = 4;

const VALUE_COUNT: usize = 4;

const BLINDED_VALUE_COUNT: usize = 2;

// The proof that is made, and what the check is lent: the question's faults and kappa, how much of the proof and of the value buffer; in the proof a byte raised by 1, a word made q, another counter.
#[derive(Clone, Copy)]
struct Changed {
    made: Attempt,
    asked: Attempt,
    length: usize,
    value_count: usize,
    raised_at: Option<usize>,
    word_at: Option<usize>,
    counter: Option<u8>,
}

fn sound_proof() -> Attempt {
    sound(small(), 2, 3)
}

fn sound_blinded_proof() -> Attempt {
    sound(small_blinded(), 2, 3)
}

fn unchanged_of(a: Attempt, length: usize, value_count: usize) -> Changed {
    Changed {
        made: a,
        asked: a,
        length,
        value_count,
        raised_at: None,
        word_at: None,
        counter: None,
    }
}

// With nothing wrong.
fn unchanged() -> Changed {
    unchanged_of(sound_proof(), PROOF_LENGTH, VALUE_COUNT)
}

fn unchanged_blinded() -> Changed {
    unchanged_of(sound_blinded_proof(), BLINDED_LENGTH, BLINDED_VALUE_COUNT)
}

fn change(c: Changed, proof: &mut [u8]) {
    raise(proof, c.raised_at);
    if let Some(at) = c.word_at {
        if proof.len() >= 4 && at <= proof.len() - 4 {
            put_word(proof, at, Q);
        }
    }
    if let Some(counter) = c.counter {
        if let Some(first) = proof.first_mut() {
            *first = counter;
        }
    }
}

fn print_verdict(rt: &impl Print, c: Changed, question: &[u8], proof: &[u8]) -> io::Result<()> {
    let mut values = filled::<u32, WORD_ROOM>(Slice::Values);
    let before = word_digest(&values);
    let checked = check_proof(
        front(question, c.asked.call.lengths.question),
        c.asked.kappa,
        front(proof, c.length),
        front_mut(&mut values, c.value_count),
    );
    print!(rt;
        "kappa {} question {} ",
        c.asked.kappa, c.asked.call.lengths.question
    )?;
    print!(rt;
        "proof {} values {} check {}",
        c.length,
        c.value_count,
        number_of(checked)
    )?;
    print_same(rt, before, word_digest(&values))
}

// Commits, proves, makes what is lent wrong, and checks.
fn print_changed(rt: &impl Print, c: Changed) -> io::Result<()> {
    let a = c.made;
    let mut table = filled::<u32, WORD_ROOM>(Slice::Table);
    let mut tree = filled::<u8, SMALL_ROOM>(Slice::Tree);
    let mut question = [0; SMALL_ROOM];
    let mut proof = filled::<u8, SMALL_ROOM>(Slice::Reply);
    commit_sound(a.call, &mut table, &mut tree);
    ask(a, &tree, &mut question);
    let _ = prove_asked(a, &question, &table, &tree, &mut proof);
    ask(c.asked, &tree, &mut question);
    change(c, &mut proof);
    print_verdict(rt, c, &question, &proof)
}

fn with_question(rt: &impl Print, asked: Attempt) -> io::Result<()> {
    let mut c = unchanged();
    c.asked = asked;
    print_changed(rt, c)
}

fn with_blinded_question(rt: &impl Print, asked: Attempt) -> io::Result<()> {
    let mut c = unchanged_blinded();
    c.asked = asked;
    print_changed(rt, c)
}

fn with_value_count(rt: &impl Print, count: usize) -> io::Result<()> {
    let mut c = unchanged();
    c.value_count = count;
    print_changed(rt, c)
}

fn with_length(rt: &impl Print, length: usize, counter: Option<u8>) -> io::Result<()> {
    let mut c = unchanged();
    c.length = length;
    c.counter = counter;
    print_changed(rt, c)
}

fn with_word(rt: &impl Print, at: usize, counter: Option<u8>) -> io::Result<()> {
    let mut c = unchanged();
    c.word_at = Some(at);
    c.counter = counter;
    print_changed(rt, c)
}

fn with_raised(
    rt: &impl Print,
    kappa: u32,
    raised_at: Option<usize>,
    counter: Option<u8>,
) -> io::Result<()> {
    let mut c = unchanged();
    c.asked = sound_proof().with_kappa(kappa);
    c.raised_at = raised_at;
    c.counter = counter;
    print_changed(rt, c)
}

fn with_blinding_row_q(rt: &impl Print) -> io::Result<()> {
    let mut c = unchanged_blinded();
    c.word_at = Some(BLINDING_ROW_AT);
    print_changed(rt, c)
}

fn with_blinding_row_raised(rt: &impl Print) -> io::Result<()> {
    let mut c = unchanged_blinded();
    c.raised_at = Some(BLINDING_ROW_AT);
    print_changed(rt, c)
}

fn print_questions(rt: &impl Print) -> io::Result<()> {
    let a = sound_proof();
    with_question(rt, a.with(Fault::QuestionLength(13)))?;
    with_question(rt, a.with(Fault::QuestionRaised(0)))?;
    with_question(rt, a.with(Fault::QuestionRaised(4)))?;
    with_question(rt, a.with(Fault::QuestionRaised(8)))?;
    with_question(rt, a.with_kappa(17))?;
    with_question(rt, a.with_conversation())?;
    with_question(rt, a.with(Fault::QuestionLength(QUESTION_LENGTH - 1)))?;
    with_question(rt, a.with(Fault::QuestionLength(QUESTION_LENGTH + 1)))?;
    with_question(rt, a.with_point(Q))
}

fn print_lengths(rt: &impl Print) -> io::Result<()> {
    with_value_count(rt, VALUE_COUNT - 1)?;
    with_value_count(rt, VALUE_COUNT + 1)?;
    with_length(rt, 0, None)?;
    with_length(rt, 1, None)?;
    with_length(rt, 2, None)?;
    with_length(rt, 3, None)?;
    with_length(rt, ROWS_AT - 1, None)?;
    with_length(rt, ROWS_AT, None)?;
    with_length(rt, PROOF_LENGTH - 1, None)?;
    with_length(rt, PROOF_LENGTH + 1, None)?;
    with_length(rt, PROOF_LENGTH - 1, Some(UNQUALIFIED))
}

// With q in a column other leaves are drawn, which miss one node.
fn print_words_q(rt: &impl Print) -> io::Result<()> {
    with_word(rt, COLUMNS_AT, None)?;
    with_word(rt, TAIL_AT, None)?;
    with_word(rt, ROWS_AT, None)?;
    with_word(rt, MASKS_AT, None)?;
    with_word(rt, ROWS_AT, Some(UNQUALIFIED))
}

// Counters less and more than the least one, then others: leaves that miss fewer nodes, the same leaves.
fn print_counters(rt: &impl Print, kappa: u32) -> io::Result<()> {
    with_raised(rt, kappa, None, Some(7))?;
    with_raised(rt, kappa, None, Some(12))?;
    with_raised(rt, kappa, None, Some(9))?;
    with_raised(rt, kappa, None, Some(UNQUALIFIED))?;
    with_raised(rt, kappa, None, Some(46))
}

// A byte in each part; answers once more with counters for which the same leaves are drawn.
fn print_bytes_raised(rt: &impl Print, kappa: u32) -> io::Result<()> {
    with_raised(rt, kappa, Some(R_AT), None)?;
    with_raised(rt, kappa, Some(COLUMNS_AT), None)?;
    with_raised(rt, kappa, Some(TAIL_AT), None)?;
    with_raised(rt, kappa, Some(ROWS_AT), None)?;
    with_raised(rt, kappa, Some(MASKS_AT), None)?;
    with_raised(rt, kappa, Some(NONCE_AT), None)?;
    with_raised(rt, kappa, Some(NODES_AT), None)?;
    with_raised(rt, kappa, Some(NODES_AT), Some(UNQUALIFIED))?;
    with_raised(rt, kappa, Some(R_AT), Some(75))?;
    with_raised(rt, kappa, Some(COLUMNS_AT), Some(22))?;
    with_raised(rt, kappa, Some(TAIL_AT), Some(33))
}

pub fn print_refused_checks(rt: &impl Print) -> io::Result<()> {
    print_questions(rt)?;
    print_lengths(rt)?;
    print_words_q(rt)?;
    print_counters(rt, 3)?;
    print_counters(rt, 0)?;
    print_bytes_raised(rt, 3)?;
    print_bytes_raised(rt, 0)?;
    // Another root; the counter need not qualify.
    with_question(
        rt,
        sound_proof()
            .with(Fault::QuestionRaised(root_at()))
            .with_kappa(0),
    )?;
    // Nothing wrong: accepted, and changed.
    print_changed(rt, unchanged())
}

pub fn print_refused_blinded_checks(rt: &impl Print) -> io::Result<()> {
    let a = sound_blinded_proof();
    // The header of version 1 was a byte shorter.
    with_blinded_question(rt, a.with(Fault::QuestionLength(14)))?;
    with_blinded_question(rt, a.with(Fault::Version(1)))?;
    with_blinded_question(rt, a.with(Fault::AskedSizes(blinded(small_blinded(), 3))))?;
    with_blinded_question(
        rt,
        a.with(Fault::AskedSizes(blinded(shape(2, 20, 1, 2, 2, 2), 17))),
    )?;
    with_blinded_question(
        rt,
        a.with(Fault::AskedSizes(blinded(shape(2, 49, 1, 2, 2, 2), 16))),
    )?;
    with_blinded_question(rt, a.with(Fault::AskedSizes(largest())))?;
    with_blinded_question(rt, a.with(Fault::QuestionLength(15)))?;
    // Other blinding rows than the proof's.
    with_question(
        rt,
        sound_proof().with(Fault::AskedSizes(blinded(small(), 1))),
    )?;
    with_blinded_question(rt, a.with(Fault::AskedSizes(blinded(small_blinded(), 0))))?;
    with_blinded_question(rt, a.with(Fault::AskedSizes(blinded(small_blinded(), 2))))?;
    with_blinding_row_q(rt)?;
    with_blinding_row_raised(rt)?;
    // Nothing wrong: accepted, and changed.
    print_changed(rt, unchanged_blinded())
}

// With another salt other leaves are drawn; these miss two nodes, too. With kappa 3 the counter qualifies under the first one.
pub fn print_refused_salted_checks(rt: &impl Print) -> io::Result<()> {
    let a = sound_proof();
    let end = SALT_LENGTH - 1;
    let first = a.with(Fault::QuestionRaised(salt_at()));
    let last = a.with(Fault::QuestionRaised(salt_at() + end));
    with_question(rt, a.with(Fault::Version(1)))?;
    with_question(rt, a.with(Fault::Version(2)))?;
    with_question(rt, a.with(Fault::Version(4)))?;
    with_question(rt, a.with(Fault::QuestionLength(LENGTH_WITHOUT_SALT)))?;
    with_question(rt, first.with_kappa(0))?;
    with_question(rt, last.with_kappa(0))?;
    with_question(rt, first)?;
    with_question(rt, last)?;
    // Nothing wrong: accepted, and changed.
    print_changed(rt, unchanged())
}
