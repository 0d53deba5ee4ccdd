// Opening: the reply to a question, from what was committed to.
#![tactic(auto)]

ghost use Rattle.std.specs.Prelude.{◌≡◌, ◌&&◌, ◌+◌, ◌*◌, ◌≤◌, eqb, length, take, drop};
ghost use mathlib.Core.List.{[], ◌∷◌, ◌++◌, map, flatten};
ghost use Rattle.lists.specs.Tests.{every, same};
ghost use Rattle.scheme.specs.Layers.{extended_rows};
ghost use Rattle.lent.specs.Witnessed.{witnessed};
ghost use Rattle.scheme.specs.Commit.{lent_ok, filled_ok, lent_elements, last_digest, leaf_record};
ghost use Rattle.scheme.specs.Sizes.{elements};
ghost use Rattle.scheme.specs.Question.{header_length, salt_at, challenges_at, read_question, question_at};
ghost use Rattle.scheme.specs.Reply.{record_length, records_at, nodes_at, reply_length};
ghost use Rattle.scheme.specs.Open.{reply_of, open_verdict, opening};
ghost use Rattle.tree.specs.Leaf.{salt_length};
ghost use Rattle.tree.specs.Sets.{missing};
ghost use Rattle.tree.specs.Tree.{all_parts, opened};
ghost use Rattle.commitment.specs.Shape.{sizes_in};
ghost use Rattle.refusal.specs.Numbers.{number_of, given};
ghost use Rattle.lists.specs.Spliced.{spliced};
ghost use Rattle.opener.specs.Parts.{CanCopy, CanRecord, CanList, CanSum, sums};
ghost use Rattle.opener.specs.Ready.{Ready};

use answers::{put_answers, put_batchings};
use codec::{both, elements_ok, put_bytes, put_words, same_bytes};
use commitment::{
    Shape, answers_at, challenges_at, leaf_count, nodes_at, points_at, record_length,
    record_values, records_at, root_at, row_width, salt_at,
};
use field::Element;
use lent::{Witness, filled_ok, lent_elements, lent_ok};
use missing_nodes::list_missing;
use node_sets::{LeafIndex, opened_index};
use planner::length_for;
use question::{Query, ask};
use refusal::Refusal;

// ---- the records one after the other

// The values of a leaf from the table, and its nonce.
fn put_record(s: Shape, table: &[u32], nonces: &[u8], leaf: LeafIndex, out: &mut [u8], at: usize)
    requires { CanCopy (sizes_in s) table.now nonces.now leaf.0 × (at + record_length (sizes_in s) ≤ length out.old) }
    ensures { out.new ≡ spliced at (record_length (sizes_in s)) (leaf_record (sizes_in s) table.now nonces.now leaf.0) out.old }
{
    let i = leaf.0 as usize;
    let n = record_values(s);
    let from = n * i;
    let to = from + n;
    put_words(out, at, &table[from..to]);
    let nonce = 32 * i;
    let end = nonce + 32;
    let after = at + 4 * n;
    put_bytes(out, after, &nonces[nonce..end]);
}

fn put_records(s: Shape, table: &[u32], nonces: &[u8], indices: &[usize], out: &mut [u8], at: usize)
    requires { CanRecord (sizes_in s) table.now nonces.now indices.now × (at + record_length (sizes_in s) * length indices.now ≤ length out.old) }
    ensures { out.new ≡ spliced at (record_length (sizes_in s) * length indices.now) (flatten (map (leaf_record (sizes_in s) table.now nonces.now) indices.now)) out.old }
{
    let size = record_length(s);
    for a in 0..indices.len() {
        let leaf = opened_index(indices, a);
        put_record(s, table, nonces, leaf, out, at + size * a);
    }
}

// ---- tests

// Is each lent slice of its length, the reply that of the leaves that are opened?
fn lengths_ok(
    query: &Query<'_>,
    indices: &[usize],
    witness: &Witness<'_>,
    table: &[u32],
    tree: &[u8],
    reply: &[u8],
) -> bool
    requires { indices.now ≡ (read_question query.now.bytes.now).indices }
    ensures { result ≡ every (lent_ok (sizes_in query.now.shape) (witnessed witness.now) ∷ filled_ok (sizes_in query.now.shape) table.now tree.now ∷ eqb (length reply.now) (nodes_at (sizes_in query.now.shape) query.now.m + 32 * length (missing 2 query.now.shape.h indices.now)) ∷ []) }
{
    let lent = lent_ok(query.shape, witness);
    let filled = filled_ok(query.shape, table, tree);
    let room = reply.len() == length_for(query.shape, query.m as usize, indices);
    both(lent, both(filled, room))
}

// Is each lent word below q?
pub fn words_ok(witness: &Witness<'_>, table: &[u32]) -> bool
    ensures { result ≡ every (elements table.now ∷ lent_elements (witnessed witness.now)) }
{
    both(elements_ok(table), lent_elements(witness))
}

// Does the question name the root that the lent tree ends with, and the lent salt?
pub fn names_ok(question: &[u8], salt: &[u8], tree: &[u8]) -> bool
    requires { (challenges_at ≤ length question.now) × (32 ≤ length tree.now) }
    ensures { result ≡ (same (last_digest tree.now) (take 32 (drop header_length question.now)) && same salt.now (take salt_length (drop salt_at question.now))) }
{
    let last = tree.len() - 32;
    let from = root_at();
    let middle = salt_at();
    let to = challenges_at();
    let root = same_bytes(&tree[last..], &question[from..middle]);
    let known = same_bytes(salt, &question[middle..to]);
    both(root, known)
}

// The tests after those of the question.
fn lent_verdict(
    query: &Query<'_>,
    indices: &[usize],
    witness: &Witness<'_>,
    table: &[u32],
    tree: &[u8],
    reply: &[u8],
) -> Result<(), Refusal>
    requires { indices.now ≡ (read_question query.now.bytes.now).indices }
    ensures { number_of result ≡ open_verdict query.now.bytes.now (witnessed witness.now) table.now tree.now reply.now }
{
    if !lengths_ok(query, indices, witness, table, tree, reply) {
        return Err(Refusal::Length);
    }
    if !words_ok(witness, table) {
        return Err(Refusal::Element);
    }
    if !names_ok(query.bytes, witness.salt, tree) {
        return Err(Refusal::Root);
    }
    Ok(())
}

// ---- the parts of the reply

// The batching answers and the evaluation answers.
pub fn put_sums(s: Shape, m: u32, question: &[u8], witness: &Witness<'_>, reply: &mut [u8])
    requires { CanSum question.now (sizes_in s) m witness.now.coefficients.now witness.now.tails.now witness.now.blinds.now witness.now.masks.now reply.old }
    ensures { reply.new ≡ sums (question_at (sizes_in s) m question.now) (extended_rows (sizes_in s) (witnessed witness.now)) witness.now.masks.now ++ drop (records_at (sizes_in s) m) reply.old }
{
    let n = row_width(s);
    let first = Element(leaf_count(s.h) as u32);
    put_batchings(s, question, challenges_at(), first, witness, n, reply, 0);
    put_answers(
        s,
        question,
        points_at(s),
        m as usize,
        witness,
        n,
        reply,
        answers_at(s),
    );
}

// The leaf records and the missing nodes; returns the reply's length.
pub fn put_leaves(
    s: Shape,
    m: u32,
    indices: &[usize],
    table: &[u32],
    nonces: &[u8],
    tree: &[u8],
    reply: &mut [u8],
) -> usize
    requires { CanList (sizes_in s) m table.now nonces.now indices.now tree.now reply.old }
    ensures value { result ≡ nodes_at (sizes_in s) m + 32 * length (missing 2 s.h indices.now) }
    ensures reply_after { reply.new ≡ take (records_at (sizes_in s) m) reply.old ++ ((flatten (map (leaf_record (sizes_in s) table.now nonces.now) indices.now) ++ flatten (opened 2 s.h (all_parts tree.now) indices.now)) ++ drop result reply.old) }
{
    let records = records_at(s, m as usize);
    put_records(s, table, nonces, indices, reply, records);
    let nodes = nodes_at(s, m as usize);
    let count = list_missing(
        s.h as usize,
        leaf_count(s.h),
        indices,
        tree,
        &mut reply[nodes..],
    );
    nodes + 32 * count
}

// The whole reply; returns its length.
fn write_reply(
    query: &Query<'_>,
    indices: &[usize],
    witness: &Witness<'_>,
    table: &[u32],
    tree: &[u8],
    reply: &mut [u8],
) -> usize
    requires { Ready query.now.bytes.now (sizes_in query.now.shape) query.now.m (witnessed witness.now) table.now tree.now reply.old × (indices.now ≡ (question_at (sizes_in query.now.shape) query.now.m query.now.bytes.now).indices) }
    ensures value { result ≡ reply_length (question_at (sizes_in query.now.shape) query.now.m query.now.bytes.now) }
    ensures reply_after { reply.new ≡ reply_of (question_at (sizes_in query.now.shape) query.now.m query.now.bytes.now) (witnessed witness.now) table.now tree.now ++ drop result reply.old }
{
    put_sums(query.shape, query.m, query.bytes, witness, reply);
    let nonces = witness.nonces;
    put_leaves(query.shape, query.m, indices, table, nonces, tree, reply)
}

// Fills `reply` with the reply to a question, and returns its length. A refusal leaves it as it was.
pub fn open(
    question: &[u8],
    witness: &Witness<'_>,
    table: &[u32],
    tree: &[u8],
    reply: &mut [u8],
) -> Result<usize, Refusal>
    ensures { (number_of result, given result, reply.new) ≡ opening question.now (witnessed witness.now) table.now tree.now reply.old }
{
    let query = ask(question)?;
    let all = query.indices();
    let indices = &all[..query.shape.l as usize];
    lent_verdict(&query, indices, witness, table, tree, &reply[..])?;
    Ok(write_reply(&query, indices, witness, table, tree, reply))
}
