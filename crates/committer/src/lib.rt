// Committing: the tests, the table of leaf values, the tree over the leaves.
#![tactic(auto)]

ghost use Rattle.std.specs.Prelude.{◌≡◌, ◌*◌, ◌<◌, ◌≤◌, length, drop};
ghost use mathlib.Core.List.{◌++◌, flatten};
ghost use Rattle.lists.specs.Bytes.{bytes_of};
ghost use Rattle.sponge.specs.Digest.{digest};
ghost use Rattle.tree.specs.Leaf.{leaf_string, salt_length, index_end};
ghost use Rattle.scheme.specs.Sizes.{leaves, most_values};
ghost use Rattle.scheme.specs.Commit.{table_of, leaf_digests, tree_of, commit_verdict, committing};
ghost use Rattle.commitment.specs.Shape.{sizes_in};
ghost use Rattle.lent.specs.Witnessed.{witnessed};
ghost use Rattle.refusal.specs.Numbers.{number_of};
ghost use Rattle.committer.specs.Clauses.{Hashable, Committable};

use codec::{put_bytes, put_words};
use commitment::{Shape, leaf_count, record_values, sizes_ok};
use digests::leaf_digest;
use evaluations::fill_table;
use lent::{Witness, filled_ok, lent_elements, lent_ok};
use node_sets::LeafIndex;
use refusal::Refusal;
use tree_fill::fill_tree;

// The longest leaf record: 68 values, and a nonce.
const RECORD: usize = 304;

// ---- the tree

// The digest of a leaf, given the salt, its values and its nonce.
fn hash_leaf(salt: &[u8], index: LeafIndex, values: &[u32], nonce: &[u8], out: &mut [u8])
    requires { (length salt.now ≡ salt_length) × (index.0 < index_end) × (length values.now ≤ most_values) × (length nonce.now ≡ 32) × (length out.old ≡ 32) }
    ensures { out.new ≡ digest (leaf_string salt.now index.0 (bytes_of values.now ++ nonce.now)) }
{
    let mut leaf = [0u8; RECORD];
    let at = 4 * values.len();
    let end = at + 32;
    put_words(&mut leaf, 0, values);
    put_bytes(&mut leaf, at, nonce);
    leaf_digest(salt, index, &leaf[..end], out);
}

// The digests of the leaves, in front of the tree.
fn hash_leaves(s: Shape, table: &[u32], nonces: &[u8], salt: &[u8], tree: &mut [u8])
    requires { Hashable (sizes_in s) table.now nonces.now salt.now tree.old }
    ensures { tree.new ≡ flatten (leaf_digests (sizes_in s) table.now nonces.now salt.now) ++ drop (32 * leaves (sizes_in s)) tree.old }
{
    let n = leaf_count(s.h);
    let values = record_values(s);
    for index in 0..n {
        let from = values * index;
        let to = from + values;
        let start = 32 * index;
        let end = start + 32;
        hash_leaf(
            salt,
            LeafIndex(index as u32),
            &table[from..to],
            &nonces[start..end],
            &mut tree[start..end],
        );
    }
}

// ---- committing

// The table, and the tree over it.
fn fill(s: Shape, witness: &Witness<'_>, table: &mut [u32], tree: &mut [u8])
    requires { Committable (sizes_in s) (witnessed witness.now) table.old tree.old }
    ensures table_after { table.new ≡ table_of (sizes_in s) (witnessed witness.now) }
    ensures tree_after { tree.new ≡ tree_of (sizes_in s) (witnessed witness.now) }
{
    fill_table(s, witness, table);
    hash_leaves(s, table, witness.nonces, witness.salt, tree);
    fill_tree(witness.salt, s.h as usize, leaf_count(s.h), tree);
}

// The tests, in their order.
fn verdict(s: Shape, witness: &Witness<'_>, table: &[u32], tree: &[u8]) -> Result<(), Refusal>
    ensures { number_of result ≡ commit_verdict (sizes_in s) (witnessed witness.now) table.now tree.now }
{
    if !sizes_ok(s) {
        return Err(Refusal::Sizes);
    }
    if !lent_ok(s, witness) {
        return Err(Refusal::Length);
    }
    if !filled_ok(s, table, tree) {
        return Err(Refusal::Length);
    }
    if !lent_elements(witness) {
        return Err(Refusal::Element);
    }
    Ok(())
}

// Commits to the polynomials: fills the table and the tree, or refuses and leaves them as they were.
pub fn commit(
    s: Shape,
    witness: &Witness<'_>,
    table: &mut [u32],
    tree: &mut [u8],
) -> Result<(), Refusal>
    ensures { (number_of result, table.new, tree.new) ≡ committing (sizes_in s) (witnessed witness.now) table.old tree.old }
{
    verdict(s, witness, table, tree)?;
    fill(s, witness, table, tree);
    Ok(())
}
