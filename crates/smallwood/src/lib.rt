// The entries for C. A slice is a pointer and a length in elements; no entry keeps anything between calls.
#![tactic(auto)]

ghost use Rattle.std.specs.Prelude.{◌≡◌, ◌≢◌, ◌*◌, ◌≤◌, IfErr, OnOk, length, replicate, take};
ghost use Rattle.scheme.specs.Sizes.{sizes_of};
ghost use Rattle.scheme.specs.Layers.{lent_of};
ghost use Rattle.scheme.specs.Commit.{committing};
ghost use Rattle.scheme.specs.Sizing.{sizing_c};
ghost use Rattle.scheme.specs.Work.{counting_c};
ghost use Rattle.scheme.specs.Open.{opening_c};
ghost use Rattle.scheme.specs.Check.{checking, checking_c};
ghost use Rattle.scheme.specs.Interpolate.{interpolating};
ghost use Rattle.fiat_shamir.specs.Prove.{proving_c};
ghost use Rattle.fiat_shamir.specs.CheckProof.{checking_proof, checking_proof_c};
ghost use Rattle.refusal.specs.Numbers.{number, number_of};
ghost use Rattle.smallwood.specs.InBytes.{in_bytes};
ghost use Rattle.smallwood.specs.Told.{told};

use codec::put_words;
use commitment::Shape;
use lent::Witness;
use offline_question::ask_offline;
use question::ask;
use refusal::{Refusal, number_of};

// Commits: fills the table and the tree, or returns the number of a refusal and leaves them as they were.
#[unsafe(no_mangle)]
pub extern "C" fn smallwood_commit(
    h: u32,
    mu: u32,
    nu: u32,
    w: u32,
    l: u32,
    eta: u32,
    beta: u32,
    coefficients: &[u32],
    tails: &[u32],
    blinds: &[u32],
    masks: &[u32],
    nonces: &[u8],
    salt: &[u8],
    table: &mut [u32],
    tree: &mut [u8],
) -> u32
    ensures { (result, table.new, tree.new) ≡ committing (sizes_of h mu nu w l eta beta) (lent_of coefficients.now tails.now blinds.now masks.now nonces.now salt.now) table.old tree.old }
{
    let shape = Shape {
        h,
        mu,
        nu,
        w,
        l,
        eta,
        beta,
    };
    let witness = Witness {
        coefficients,
        tails,
        blinds,
        masks,
        nonces,
        salt,
    };
    number_of(committer::commit(shape, &witness, table, tree))
}

// Hands on an answer with a number: writes it, or returns that of a refusal and leaves the number as it was.
fn put_number(answer: Result<usize, Refusal>, number: &mut u64) -> u32
    ensures { (result, number.new) ≡ told answer number.old }
{
    match answer {
        Ok(n) => {
            *number = n as u64;
            0
        }
        Err(refusal) => refusal.number(),
    }
}

// Sizes: writes the exact length of the reply to a question, or returns the number of a refusal and leaves the length as it was.
#[unsafe(no_mangle)]
pub extern "C" fn smallwood_reply_length(question: &[u8], length: &mut u64) -> u32
    ensures { (result, length.new) ≡ sizing_c question.now length.old }
{
    put_number(planner::reply_length(question), length)
}

// Counts: writes how many permutations the check of a reply to a question runs where it comes to hashing, or returns the number of a refusal and leaves the count as it was.
#[unsafe(no_mangle)]
pub extern "C" fn smallwood_permutations(question: &[u8], count: &mut u64) -> u32
    ensures { (result, count.new) ≡ counting_c question.now count.old }
{
    put_number(planner::permutations(question), count)
}

// Opens: fills the reply and writes its length, or returns the number of a refusal and leaves both as they were.
#[unsafe(no_mangle)]
pub extern "C" fn smallwood_open(
    question: &[u8],
    coefficients: &[u32],
    tails: &[u32],
    blinds: &[u32],
    masks: &[u32],
    table: &[u32],
    nonces: &[u8],
    salt: &[u8],
    tree: &[u8],
    reply: &mut [u8],
    length: &mut u64,
) -> u32
    ensures { (result, length.new, reply.new) ≡ opening_c question.now (lent_of coefficients.now tails.now blinds.now masks.now nonces.now salt.now) table.now tree.now reply.old length.old }
{
    let witness = Witness {
        coefficients,
        tails,
        blinds,
        masks,
        nonces,
        salt,
    };
    let opened = opener::open(question, &witness, table, tree, reply);
    put_number(opened, length)
}

// Up to so many values a small array does, since arrays are cleared; and the most.
const FEW_VALUES: usize = 64;

const MOST_VALUES: usize = 2048;

// Is the buffer as long as so many words?
fn test_buffer(values: &[u8], words: usize) -> Result<(), Refusal>
    requires { words ≤ 2048 }
    ensures fits { OnOk result (length values.now ≡ 4 * words) }
    ensures other { IfErr result (λ r. (number r ≡ 2) × (length values.now ≢ 4 * words)) }
{
    if values.len() != 4 * words {
        return Err(Refusal::Length);
    }
    Ok(())
}

// Hands on what a check says, and where it is no refusal the words as bytes.
fn put_values(outcome: Result<(), Refusal>, words: &[u32], values: &mut [u8]) -> Result<(), Refusal>
    requires { length values.old ≡ 4 * length words.now }
    ensures { (number_of result, values.new) ≡ in_bytes (number_of outcome, words.now) values.old }
{
    outcome?;
    put_words(values, 0, words);
    Ok(())
}

// The check with room for so many words, which are written as bytes where it is no refusal.
fn check_in<const ROOM: usize>(
    question: &[u8],
    reply: &[u8],
    count: usize,
    values: &mut [u8],
) -> Result<(), Refusal>
    requires { (ROOM ≤ 2048) × (count ≤ ROOM) × (length values.old ≡ 4 * count) }
    ensures { (number_of result, values.new) ≡ in_bytes (checking question.now reply.now (take count (replicate ROOM 0))) values.old }
{
    let mut room = [0u32; ROOM];
    let words = &mut room[..count];
    let checked = checker::check(question, reply, words);
    put_values(checked.outcome, words, values)
}

// The check with the values as bytes: few of them take a small array.
fn check_bytes(question: &[u8], reply: &[u8], values: &mut [u8]) -> Result<(), Refusal>
    ensures { (number_of result, values.new) ≡ checking_c question.now reply.now values.old }
{
    let query = ask(question)?;
    let count = query.shape.w as usize * query.m as usize;
    test_buffer(values, count)?;
    if count <= FEW_VALUES {
        check_in::<FEW_VALUES>(question, reply, count, values)
    } else {
        check_in::<MOST_VALUES>(question, reply, count, values)
    }
}

// Checks: writes the values, four bytes each, or returns the number of a refusal and leaves them as they were.
#[unsafe(no_mangle)]
pub extern "C" fn smallwood_check(question: &[u8], reply: &[u8], values: &mut [u8]) -> u32
    ensures { (result, values.new) ≡ checking_c question.now reply.now values.old }
{
    number_of(check_bytes(question, reply, values))
}

// ---- proofs without a conversation

// Proves: fills the front of the proof's buffer and writes the proof's length, or returns the number of a refusal and leaves both as they were.
#[unsafe(no_mangle)]
pub extern "C" fn smallwood_prove(
    question: &[u8],
    kappa: u32,
    limit: u32,
    coefficients: &[u32],
    tails: &[u32],
    blinds: &[u32],
    masks: &[u32],
    table: &[u32],
    nonces: &[u8],
    salt: &[u8],
    tree: &[u8],
    proof: &mut [u8],
    length: &mut u64,
) -> u32
    ensures { (result, length.new, proof.new) ≡ proving_c question.now kappa limit (lent_of coefficients.now tails.now blinds.now masks.now nonces.now salt.now) table.now tree.now proof.old length.old }
{
    let witness = Witness {
        coefficients,
        tails,
        blinds,
        masks,
        nonces,
        salt,
    };
    let proved = prover::prove(question, kappa, limit, &witness, table, tree, proof);
    put_number(proved, length)
}

// The check of a proof with room for so many words, which are written as bytes where it is no refusal.
fn check_proof_in<const ROOM: usize>(
    question: &[u8],
    kappa: u32,
    proof: &[u8],
    count: usize,
    values: &mut [u8],
) -> Result<(), Refusal>
    requires { (ROOM ≤ 2048) × (count ≤ ROOM) × (length values.old ≡ 4 * count) }
    ensures { (number_of result, values.new) ≡ in_bytes (checking_proof question.now kappa proof.now (take count (replicate ROOM 0))) values.old }
{
    let mut room = [0u32; ROOM];
    let words = &mut room[..count];
    let outcome = proof_checker::check_proof(question, kappa, proof, words);
    put_values(outcome, words, values)
}

// The check of a proof with the values as bytes: few of them take a small array.
fn check_proof_bytes(
    question: &[u8],
    kappa: u32,
    proof: &[u8],
    values: &mut [u8],
) -> Result<(), Refusal>
    ensures { (number_of result, values.new) ≡ checking_proof_c question.now kappa proof.now values.old }
{
    let query = ask_offline(question, kappa)?;
    let count = query.shape.w as usize * query.m as usize;
    test_buffer(values, count)?;
    if count <= FEW_VALUES {
        check_proof_in::<FEW_VALUES>(question, kappa, proof, count, values)
    } else {
        check_proof_in::<MOST_VALUES>(question, kappa, proof, count, values)
    }
}

// Checks a proof: writes the values, four bytes each, or returns the number of a refusal and leaves them as they were.
#[unsafe(no_mangle)]
pub extern "C" fn smallwood_check_proof(
    question: &[u8],
    kappa: u32,
    proof: &[u8],
    values: &mut [u8],
) -> u32
    ensures { (result, values.new) ≡ checking_proof_c question.now kappa proof.now values.old }
{
    number_of(check_proof_bytes(question, kappa, proof, values))
}

// ---- interpolation

// Interpolates over any points that differ: fills the slice with the coefficients, or returns the number of a refusal and leaves it as it was.
#[unsafe(no_mangle)]
pub extern "C" fn smallwood_interpolate(
    points: &[u32],
    values: &[u32],
    coefficients: &mut [u32],
) -> u32
    ensures { (result, coefficients.new) ≡ interpolating points.now values.now coefficients.old }
{
    number_of(interpolation::interpolate(points, values, coefficients))
}
