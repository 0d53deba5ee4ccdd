// Proving without a conversation: the proof for a question, from what was committed to.
#![tactic(auto)]

ghost use Rattle.std.specs.Prelude.{◌≡◌, [], ◌∷◌, ◌++◌, suc, ◌+◌, ◌≤◌, eqb, length, drop};
ghost use Rattle.lists.specs.Tests.{verdict_of, every};
ghost use Rattle.lent.specs.Witnessed.{witnessed};
ghost use Rattle.scheme.specs.Commit.{lent_ok, filled_ok};
ghost use Rattle.scheme.specs.Sizes.{SizesInOrder, most_points};
ghost use Rattle.scheme.specs.Reply.{records_at, reply_bound};
ghost use Rattle.fiat_shamir.specs.Draw.{most_string, drawn_indices};
ghost use Rattle.fiat_shamir.specs.Prove.{counter_length, proved_answers, proving};
ghost use Rattle.commitment.specs.Shape.{sizes_in};
ghost use Rattle.refusal.specs.Numbers.{number_of, given};
ghost use Rattle.prover.specs.Parts.{CanPut, CanOpen, CanDraw, length_with, proof_with};
ghost use Rattle.prover.specs.Ready.{Ready, lent_tests, searched};

use codec::{both, put_bytes, put_word};
use commitment::{Shape, leaf_count, nodes_at, question_length, records_at};
use counter_search::find_counter;
use drawing::{
    COUNTER, LONGEST_DRAW, LONGEST_QUESTION, LONGEST_STRING, draw_question, put_question,
};
use leaf_draw::{RANKS_AT, draw_leaves};
use lent::{Witness, filled_ok, lent_ok};
use offline_question::{OfflineQuery, ask_offline};
use opener::{names_ok, put_leaves, put_sums, words_ok};
use question::MOST_INDICES;
use refusal::Refusal;

// ---- tests

// The bytes of the prover's buffer: a counter, and a reply with a node for each opened leaf and level.
fn proof_bound(s: Shape, m: usize) -> usize
    requires { SizesInOrder (sizes_in s) × (m ≤ most_points) }
    ensures { result ≡ counter_length + reply_bound (sizes_in s) m }
{
    let nodes = s.l as usize * s.h as usize;
    let reply = nodes_at(s, m) + 32 * nodes;
    COUNTER + reply
}

// Is each lent slice of its length, and the buffer as long as a proof can be?
fn lengths_ok(
    query: &OfflineQuery<'_>,
    witness: &Witness<'_>,
    table: &[u32],
    tree: &[u8],
    proof: &[u8],
) -> bool
    ensures { result ≡ every (lent_ok (sizes_in query.now.shape) (witnessed witness.now) ∷ filled_ok (sizes_in query.now.shape) table.now tree.now ∷ eqb (length proof.now) (counter_length + reply_bound (sizes_in query.now.shape) query.now.m) ∷ []) }
{
    let lent = lent_ok(query.shape, witness);
    let filled = filled_ok(query.shape, table, tree);
    let room = proof.len() == proof_bound(query.shape, query.m as usize);
    both(lent, both(filled, room))
}

// The tests after those of the question: 2, 3, 8.
fn lent_verdict(
    query: &OfflineQuery<'_>,
    witness: &Witness<'_>,
    table: &[u32],
    tree: &[u8],
    proof: &[u8],
) -> Result<(), Refusal>
    ensures { number_of result ≡ verdict_of (lent_tests query.now.bytes.now (sizes_in query.now.shape) query.now.m (witnessed witness.now) table.now tree.now proof.now) }
{
    if !lengths_ok(query, witness, table, tree, proof) {
        return Err(Refusal::Length);
    }
    if !words_ok(witness, table) {
        return Err(Refusal::Element);
    }
    if !names_ok(query.bytes, witness.salt, tree) {
        return Err(Refusal::Root);
    }
    Ok(())
}

// ---- the string of the leaf draw

// The batching answers and the evaluation answers to the question so drawn; they do not depend on its indices.
fn put_answers(query: &OfflineQuery<'_>, witness: &Witness<'_>, out: &mut [u8])
    requires { CanPut query.now.bytes.now (sizes_in query.now.shape) query.now.m (witnessed witness.now) × (records_at (sizes_in query.now.shape) query.now.m ≤ length out.old) }
    ensures { out.new ≡ proved_answers query.now.bytes.now (witnessed witness.now) ++ drop (records_at (sizes_in query.now.shape) query.now.m) out.old }
{
    let s = query.shape;
    let l = s.l as usize;
    let n = question_length(s, query.m as usize);
    let indices = [0usize; MOST_INDICES];
    let mut drawn = [0u8; LONGEST_QUESTION];
    draw_question(query, &indices[..l], &mut drawn[..n]);
    put_sums(s, query.m, &drawn[..n], witness, out);
}

// The string but for the counter: 0x03, question, answers. Returns its length.
fn put_string(query: &OfflineQuery<'_>, witness: &Witness<'_>, string: &mut [u8]) -> usize
    requires { CanPut query.now.bytes.now (sizes_in query.now.shape) query.now.m (witnessed witness.now) × (most_string ≤ length string.old) }
    ensures value { result ≡ suc (length query.now.bytes.now) + records_at (sizes_in query.now.shape) query.now.m }
    ensures string_after { string.new ≡ (3 ∷ (query.now.bytes.now ++ proved_answers query.now.bytes.now (witnessed witness.now))) ++ drop result string.old }
{
    put_question(query.bytes, string);
    let at = query.bytes.len() + 1;
    put_answers(query, witness, &mut string[at..]);
    at + records_at(query.shape, query.m as usize)
}

// ---- the proof

// The counter, the answers, and what the leaves open; returns the proof's length.
fn put_proof(
    s: Shape,
    m: u32,
    counter: u32,
    answers: &[u8],
    indices: &[usize],
    table: &[u32],
    nonces: &[u8],
    tree: &[u8],
    proof: &mut [u8],
) -> usize
    requires { CanOpen (sizes_in s) m answers.now indices.now table.now nonces.now tree.now proof.old }
    ensures value { result ≡ length_with (sizes_in s) m indices.now }
    ensures proof_after { proof.new ≡ proof_with (sizes_in s) table.now nonces.now tree.now counter answers.now indices.now ++ drop result proof.old }
{
    put_word(proof, 0, counter);
    put_bytes(proof, COUNTER, answers);
    let reply = put_leaves(s, m, indices, table, nonces, tree, &mut proof[COUNTER..]);
    COUNTER + reply
}

// The same with the leaves that a draw names.
fn put_drawn(
    s: Shape,
    m: u32,
    counter: u32,
    answers: &[u8],
    drawn: &[u8],
    table: &[u32],
    nonces: &[u8],
    tree: &[u8],
    proof: &mut [u8],
) -> usize
    requires { CanDraw (sizes_in s) m answers.now drawn.now table.now nonces.now tree.now proof.old }
    ensures value { result ≡ length_with (sizes_in s) m (drawn_indices (sizes_in s) drawn.now) }
    ensures proof_after { proof.new ≡ proof_with (sizes_in s) table.now nonces.now tree.now counter answers.now (drawn_indices (sizes_in s) drawn.now) ++ drop result proof.old }
{
    let l = s.l as usize;
    let mut indices = [0usize; MOST_INDICES];
    draw_leaves(drawn, leaf_count(s.h), &mut indices[..l]);
    put_proof(
        s,
        m,
        counter,
        answers,
        &indices[..l],
        table,
        nonces,
        tree,
        proof,
    )
}

// The search, and the proof with the counter that it finds.
fn prove_lent(
    query: &OfflineQuery<'_>,
    limit: u32,
    witness: &Witness<'_>,
    table: &[u32],
    tree: &[u8],
    proof: &mut [u8],
) -> Result<usize, Refusal>
    requires { Ready query.now.bytes.now (sizes_in query.now.shape) query.now.m query.now.kappa (witnessed witness.now) table.now tree.now proof.old }
    ensures { (number_of result, given result, proof.new) ≡ searched query.now.bytes.now query.now.kappa limit (witnessed witness.now) table.now tree.now proof.old }
{
    let mut string = [0u8; LONGEST_STRING];
    let n = put_string(query, witness, &mut string);
    let size = RANKS_AT + 8 * query.shape.l as usize;
    let mut drawn = [0u8; LONGEST_DRAW];
    let counter = find_counter(&string[..n], query.kappa, limit, &mut drawn[..size]);
    if counter == limit {
        return Err(Refusal::NoCounter);
    }
    let at = query.bytes.len() + 1;
    let length = put_drawn(
        query.shape,
        query.m,
        counter,
        &string[at..n],
        &drawn[..size],
        table,
        witness.nonces,
        tree,
        proof,
    );
    Ok(length)
}

// Fills the front of `proof` with the proof for a question, with the least counter below the limit that qualifies, and returns its length.
// A refusal leaves it as it was.
pub fn prove(
    question: &[u8],
    kappa: u32,
    limit: u32,
    witness: &Witness<'_>,
    table: &[u32],
    tree: &[u8],
    proof: &mut [u8],
) -> Result<usize, Refusal>
    ensures { (number_of result, given result, proof.new) ≡ proving question.now kappa limit (witnessed witness.now) table.now tree.now proof.old }
{
    let query = ask_offline(question, kappa)?;
    lent_verdict(&query, witness, table, tree, &proof[..])?;
    prove_lent(&query, limit, witness, table, tree, proof)
}
