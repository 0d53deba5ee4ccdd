// The root that an opening gives: from the digests of some leaves and the missing nodes, level by level.
//
// The inner functions are general in the number b of a node's children and in what a node's string begins with; root_of takes two children, and 0x01 and the salt.
// A set of nodes of one level is a slice of numbers in rising order; dig begins with its digests. nodes holds the digests of missing nodes.
// a is a place in a set, t a place in a list of nodes. buf is a node's string; its first off bytes are there from the start. ran counts the permutations run so far.
#![tactic(auto)]

ghost use Rattle.std.specs.Prelude.{◌≡◌, ◌∷◌, ◌+◌, ◌*◌, ◌≤◌, length, take};
ghost use Rattle.sponge.specs.Digest.{digest};
ghost use Rattle.tree.specs.Ancestors.{nodes_above};
ghost use Rattle.tree.specs.Leaf.{salt_length, prefix_length};
ghost use Rattle.tree.specs.Sets.{parents, missing};
ghost use Rattle.tree.specs.Tree.{parts, all_parts, root_from};
ghost use Rattle.tree.specs.Work.{permutations_for};
ghost use Rattle.tree.specs.Clauses.{IndexSet};
ghost use Rattle.tree_root.specs.Clauses.{CanGather, Gathered, CanHashParents, ParentsHashed, CanRoot};

use digests::{PREFIX, node_buffer, write_digest};
use node_sets::{Place, next_is, to_parents};

// Writes the digests of the b children from first on into buf, from off on: each is the set's next one, if the set has the child, or else the next of the nodes.
fn gather_children(
    first: usize,
    b: usize,
    set: &[usize],
    a: usize,
    dig: &[u8],
    nodes: &[u8],
    t: usize,
    buf: &mut [u8],
    off: usize,
) -> Place
    requires { CanGather first b set.now (length set.now) a dig.now nodes.now t buf.old off }
    ensures { Gathered first b set.now (parts (length set.now) dig.now) (all_parts nodes.now) (take off buf.old) buf.new a t result.a result.t }
{
    let mut a = a;
    let mut t = t;
    for c in first..first + b {
        let to = off + 32 * (c - first);
        if next_is(set, a, c) {
            let own = 32 * a;
            buf[to..to + 32].copy_from_slice(&dig[own..own + 32]);
            a += 1;
        } else {
            let missing = 32 * t;
            buf[to..to + 32].copy_from_slice(&nodes[missing..missing + 32]);
            t += 1;
        }
    }
    Place { a, t }
}

// After a level: the next node's place, and how many permutations were run for the level.
#[derive(Clone, Copy)]
struct Level {
    t: usize,
    permutations: usize,
}

// Hashes the set's parents: their digests take the place of the set's in dig.
fn hash_parents(
    b: usize,
    set: &[usize],
    dig: &mut [u8],
    nodes: &[u8],
    t: usize,
    buf: &mut [u8],
    off: usize,
) -> Level
    requires { CanHashParents b set.now (length set.now) dig.old nodes.now t buf.old off }
    ensures parents_hashed { ParentsHashed b (take off buf.old) set.now (parts (length set.now) dig.old) (all_parts nodes.now) t dig.new result.t }
    ensures permutations_value { result.permutations ≡ length (parents b set.now) * permutations_for (length buf.old) }
    ensures buf_unchanged { take off buf.new ≡ take off buf.old }
{
    let mut a = 0;
    let mut w = 0;
    let mut t = t;
    let mut ran = 0;
    while a < set.len() {
        let p = set[a] / b;
        let g = gather_children(b * p, b, set, a, dig, nodes, t, buf, off);
        a = g.a;
        t = g.t;
        ran += write_digest(buf, dig, w);
        w += 1;
    }
    Level {
        t,
        permutations: ran,
    }
}

// The root, h levels up, stands in front of dig afterwards. Returns how many permutations were run.
fn root_from(
    b: usize,
    h: usize,
    set: &mut [usize],
    dig: &mut [u8],
    nodes: &[u8],
    buf: &mut [u8],
    off: usize,
) -> usize
    requires { CanRoot b h set.old (length set.old) dig.old nodes.now buf.old off }
    ensures dig_after { take 32 dig.new ≡ root_from digest b (take off buf.old) h set.old (parts (length set.old) dig.old) (all_parts nodes.now) }
    ensures value { result ≡ length (nodes_above b h set.old) * permutations_for (length buf.old) }
{
    let mut n = set.len();
    let mut t = 0;
    let mut ran = 0;
    for _ in 0..h {
        let level = hash_parents(b, &set[..n], dig, nodes, t, buf, off);
        t = level.t;
        ran += level.permutations;
        n = to_parents(b, &mut set[..n]);
    }
    ran
}

// The root that the digests of some leaves and the missing nodes give: it stands in front of the digests afterwards. Returns how many permutations were run.
pub fn root_of(salt: &[u8], h: usize, indices: &[usize], digests: &mut [u8], nodes: &[u8]) -> usize
    requires { (length salt.now ≡ salt_length) × IndexSet h indices.now × (32 * length indices.now ≤ length digests.old) × (32 * length (missing 2 h indices.now) ≤ length nodes.now) }
    ensures digests_after { take 32 digests.new ≡ root_from digest 2 (1 ∷ salt.now) h indices.now (parts (length indices.now) digests.old) (all_parts nodes.now) }
    ensures value { result ≡ length (nodes_above 2 h indices.now) * permutations_for (prefix_length + 32 * 2) }
{
    let mut room = [0usize; 64];
    let set = &mut room[..indices.len()];
    set.copy_from_slice(indices);
    let mut buf = node_buffer(salt);
    root_from(2, h, set, digests, nodes, &mut buf, PREFIX)
}
