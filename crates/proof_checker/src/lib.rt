// The check of a proof without a conversation.
#![tactic(auto)]

ghost use Rattle.std.specs.Prelude.{◌≡◌, ◌+◌, ◌*◌, ◌≤◌, length};
ghost use Rattle.tree.specs.Clauses.{IndexSet};
ghost use Rattle.scheme.specs.Sizes.{SizesInOrder, most_points};
ghost use Rattle.scheme.specs.Reply.{records_at, nodes_at};
ghost use Rattle.scheme.specs.Check.{checking};
ghost use Rattle.fiat_shamir.specs.Draw.{most_string, drawn_bytes};
ghost use Rattle.fiat_shamir.specs.Prove.{counter_length};
ghost use Rattle.fiat_shamir.specs.CheckProof.{proof_draw, checking_proof};
ghost use Rattle.commitment.specs.Shape.{sizes_in};
ghost use Rattle.refusal.specs.Numbers.{number_of};
ghost use Rattle.proof_checker.specs.Parts.{drawn_from, elements_in, unqualified};

use checker::check_reply;
use codec::{elements_in, put_bytes};
use commitment::{
    Shape, leaf_count, question_length, record_length, record_values, records_at, row_width,
};
use drawing::{
    COUNTER, LONGEST_DRAW, LONGEST_QUESTION, LONGEST_STRING, draw_question, put_question, qualified,
};
use leaf_draw::{RANKS_AT, draw_leaves};
use offline_question::{OfflineQuery, ask_offline};
use planner::length_for;
use question::{MOST_INDICES, Query};
use refusal::Refusal;
use reply_elements::record_elements;
use sponge::draw;

// Up to so many bytes a string takes a small room, since rooms are cleared; and the longest: prefix, question, 12 answers of 320 words, counter.
const FEW: usize = 1024;

const LONGEST: usize = LONGEST_STRING + COUNTER;

// ---- the leaf draw

// The draw that a proof gives, where `string` is room for just what is hashed: 0x03, question, answers, counter.
fn draw_string(question: &[u8], answers: usize, proof: &[u8], string: &mut [u8], out: &mut [u8])
    requires { (counter_length + answers ≤ length proof.now) × (length string.old ≡ length question.now + 1 + answers + counter_length) }
    ensures { out.new ≡ drawn_from question.now answers proof.now (length out.old) }
{
    put_question(question, string);
    let at = question.len() + 1;
    let end = COUNTER + answers;
    put_bytes(string, at, &proof[COUNTER..end]);
    put_bytes(string, at + answers, &proof[..COUNTER]);
    draw(string, out);
}

// The same with a room of its own, of so many bytes.
fn draw_in<const ROOM: usize>(question: &[u8], answers: usize, proof: &[u8], out: &mut [u8])
    requires { (ROOM ≤ most_string + counter_length) × (length question.now + 1 + answers + counter_length ≤ ROOM) × (counter_length + answers ≤ length proof.now) }
    ensures { out.new ≡ drawn_from question.now answers proof.now (length out.old) }
{
    let n = question.len() + 1 + answers + COUNTER;
    let mut string = [0u8; ROOM];
    draw_string(question, answers, proof, &mut string[..n], out);
}

// The same in a small room where the string is short.
fn draw_proof(question: &[u8], answers: usize, proof: &[u8], out: &mut [u8])
    requires { (length question.now + 1 + answers + counter_length ≤ most_string + counter_length) × (counter_length + answers ≤ length proof.now) }
    ensures { out.new ≡ drawn_from question.now answers proof.now (length out.old) }
{
    if question.len() + 1 + answers + COUNTER <= FEW {
        draw_in::<FEW>(question, answers, proof, out);
    } else {
        draw_in::<LONGEST>(question, answers, proof, out);
    }
}

// ---- a counter that does not qualify

// Is each word of the reply an element? Batching answers and evaluation answers stand one after the other, and are tested as one.
fn reply_elements(s: Shape, m: usize, reply: &[u8]) -> bool
    requires { SizesInOrder (sizes_in s) × (m ≤ most_points) × (nodes_at (sizes_in s) m ≤ length reply.now) }
    ensures { result ≡ elements_in (sizes_in s) m reply.now }
{
    let words = row_width(s) * (s.eta as usize + m);
    if !elements_in(reply, 0, words) {
        return false;
    }
    record_elements(
        records_at(s, m),
        record_length(s),
        record_values(s),
        s.l as usize,
        reply,
    )
}

// The verdict then: 7 and 3 come first, and else it is 12.
fn unqualified_verdict(s: Shape, m: usize, indices: &[usize], reply: &[u8]) -> Result<(), Refusal>
    requires { SizesInOrder (sizes_in s) × (m ≤ most_points) × IndexSet s.h indices.now }
    ensures { number_of result ≡ unqualified (sizes_in s) m indices.now reply.now }
{
    if reply.len() != length_for(s, m, indices) {
        return Err(Refusal::ReplyLength);
    }
    if !reply_elements(s, m, reply) {
        return Err(Refusal::Element);
    }
    Err(Refusal::Unqualified)
}

// ---- the check

// The conversation's check of the question drawn with these leaves, without its count.
fn check_drawn(
    query: &OfflineQuery<'_>,
    indices: &[usize],
    reply: &[u8],
    values: &mut [u32],
) -> Result<(), Refusal>
    requires { IndexSet query.now.shape.h indices.now × (length indices.now ≡ query.now.shape.l) }
    ensures { (number_of result, values.new) ≡ checking (drawn_bytes query.now.bytes.now indices.now) reply.now values.old }
{
    let s = query.shape;
    let n = question_length(s, query.m as usize);
    let mut asked = [0u8; LONGEST_QUESTION];
    draw_question(query, indices, &mut asked[..n]);
    let drawn = Query {
        bytes: &asked[..n],
        shape: s,
        m: query.m,
    };
    check_reply(&drawn, reply, values).outcome
}

// The tests after those of lengths, where the draw is made: its leaves are found, and the counter decides which tests follow.
fn check_draw(
    query: &OfflineQuery<'_>,
    draw: &[u8],
    proof: &[u8],
    values: &mut [u32],
) -> Result<(), Refusal>
    requires { (length values.old ≡ query.now.shape.w * query.now.m) × (counter_length + records_at (sizes_in query.now.shape) query.now.m ≤ length proof.now) × (draw.now ≡ proof_draw query.now.bytes.now proof.now) }
    ensures { (number_of result, values.new) ≡ checking_proof query.now.bytes.now query.now.kappa proof.now values.old }
{
    let s = query.shape;
    let l = s.l as usize;
    let mut indices = [0usize; MOST_INDICES];
    draw_leaves(draw, leaf_count(s.h), &mut indices[..l]);
    if qualified(draw, query.kappa) {
        return check_drawn(query, &indices[..l], &proof[COUNTER..], values);
    }
    unqualified_verdict(s, query.m as usize, &indices[..l], &proof[COUNTER..])
}

// The same with room for the draw.
fn check_answered(query: &OfflineQuery<'_>, proof: &[u8], values: &mut [u32]) -> Result<(), Refusal>
    requires { (length values.old ≡ query.now.shape.w * query.now.m) × (counter_length + records_at (sizes_in query.now.shape) query.now.m ≤ length proof.now) }
    ensures { (number_of result, values.new) ≡ checking_proof query.now.bytes.now query.now.kappa proof.now values.old }
{
    let n = RANKS_AT + 8 * query.shape.l as usize;
    let mut drawn = [0u8; LONGEST_DRAW];
    let answers = records_at(query.shape, query.m as usize);
    draw_proof(query.bytes, answers, proof, &mut drawn[..n]);
    check_draw(query, &drawn[..n], proof, values)
}

// The tests after those of the question: 2, 7 for a proof too short for counter and answers, and those of the reply.
fn check_asked(query: &OfflineQuery<'_>, proof: &[u8], values: &mut [u32]) -> Result<(), Refusal>
    ensures { (number_of result, values.new) ≡ checking_proof query.now.bytes.now query.now.kappa proof.now values.old }
{
    if values.len() != query.shape.w as usize * query.m as usize {
        return Err(Refusal::Length);
    }
    if proof.len() < COUNTER + records_at(query.shape, query.m as usize) {
        return Err(Refusal::ReplyLength);
    }
    check_answered(query, proof, values)
}

// The check; the values are written only where no test holds.
pub fn check_proof(
    question: &[u8],
    kappa: u32,
    proof: &[u8],
    values: &mut [u32],
) -> Result<(), Refusal>
    ensures { (number_of result, values.new) ≡ checking_proof question.now kappa proof.now values.old }
{
    let query = ask_offline(question, kappa)?;
    check_asked(&query, proof, values)
}
