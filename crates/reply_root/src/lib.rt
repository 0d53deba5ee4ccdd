// The root that a reply gives: the digests of its opened leaves, and the missing nodes after them.
#![tactic(auto)]

ghost use Rattle.std.specs.Prelude.{◌≡◌, ◌++◌, ◌+◌, ◌*◌, ◌≤◌, length, drop};
ghost use Rattle.lists.specs.All.{Below};
ghost use Rattle.lists.specs.Rows.{rows_of};
ghost use Rattle.tree.specs.Sets.{missing};
ghost use Rattle.tree.specs.Clauses.{IndexSet};
ghost use Rattle.reply_root.specs.Root.{leaf_digest_at, root_at};
ghost use Rattle.tree.specs.Ancestors.{nodes_above};
ghost use Rattle.tree.specs.Leaf.{salt_length, prefix_length, record_start, index_end, longest_record};
ghost use Rattle.tree.specs.Work.{permutations_for};

use digests::{first_digest, leaf_digest};
use node_sets::opened_index;
use opened::LeafRecords;
use sponge::Hashed;
use tree_root::root_of;

const DIGEST: usize = 32; // bytes of a digest

const MOST_LEAVES: usize = 64; // opened leaves of a reply

// The digest of each opened leaf. Returns how many permutations were run.
fn leaf_digests(salt: &[u8], indices: &[usize], records: &LeafRecords, out: &mut [u8]) -> usize
    requires { (length salt.now ≡ salt_length) × Below index_end indices.now × (records.now.size ≤ longest_record) × (records.now.at + records.now.size * length indices.now ≤ length records.now.reply.now) × (32 * length indices.now ≤ length out.old) }
    ensures out_after { out.new ≡ rows_of (leaf_digest_at salt.now records.now.at records.now.size indices.now records.now.reply.now) (length indices.now) ++ drop (32 * length indices.now) out.old }
    ensures value { result ≡ length indices.now * permutations_for (record_start + records.now.size) }
{
    let mut ran = 0;
    for a in 0..indices.len() {
        let index = opened_index(indices, a);
        let record = records.record(a);
        let first = DIGEST * a;
        let last = first + DIGEST;
        ran += leaf_digest(salt, index, record, &mut out[first..last]);
    }
    ran
}

// The root that the opened leaves, whose records begin at `at`, and the missing nodes after them give, and how many permutations were run for it.
pub fn reply_root(
    salt: &[u8],
    h: usize,
    at: usize,
    size: usize,
    indices: &[usize],
    reply: &[u8],
) -> Hashed
    requires { (length salt.now ≡ salt_length) × IndexSet h indices.now × (size ≤ longest_record) × (at + size * length indices.now + 32 * length (missing 2 h indices.now) ≤ length reply.now) }
    ensures digest_value { result.digest ≡ root_at salt.now h at size indices.now reply.now }
    ensures permutations_value { result.permutations ≡ length indices.now * permutations_for (record_start + size) + length (nodes_above 2 h indices.now) * permutations_for (prefix_length + 32 * 2) }
{
    let mut digests = [0u8; DIGEST * MOST_LEAVES];
    let records = LeafRecords { reply, at, size };
    let leaves = leaf_digests(salt, indices, &records, &mut digests);
    let from = at + size * indices.len();
    let nodes = root_of(salt, h, indices, &mut digests, &reply[from..]);
    let digest = first_digest(&digests);
    Hashed {
        digest,
        permutations: leaves + nodes,
    }
}
