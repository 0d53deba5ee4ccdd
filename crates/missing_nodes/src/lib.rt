// The missing nodes of a set of leaves: how many they are, and their digests, copied from a tree.
//
// The inner functions are general in the number b of a node's children; the public ones take two.
// A set of nodes of one level is a slice of numbers in rising order. a is a place in a set, t a place in a list of nodes.
#![tactic(auto)]

ghost use Rattle.std.specs.Prelude.{◌≡◌, ◌*◌, ◌^◌, ◌≤◌, ◌<◌, length, drop};
ghost use mathlib.Core.List.{◌++◌, flatten};
ghost use Rattle.tree.specs.Sets.{missing, tree_size};
ghost use Rattle.tree.specs.Ancestors.{changes};
ghost use Rattle.tree.specs.Tree.{all_parts, opened};
ghost use Rattle.tree.specs.Clauses.{IndexSet};
ghost use Rattle.missing_nodes.specs.Clauses.{CanCount, CanList, Listed, CanListLevel, LevelListed, CanListNodes, NodesListed};

use node_sets::{Place, next_is, to_parents};

// ---- Counting

// How many of the indices differ from the next one without their last `shift` bits.
fn count_changes(shift: usize, indices: &[usize]) -> usize
    requires { (shift < 64) × (0 < length indices.now) }
    ensures { result ≡ changes (2 ^ shift) indices.now }
{
    let last = indices.len() - 1;
    let mut n = 0;
    for a in 0..last {
        if indices[a] >> shift != indices[a + 1] >> shift {
            n += 1;
        }
    }
    n
}

// On each level b for each parent, of which there is one more than changes, less those of the set. A node has b = 2^bits children.
fn count_nodes(b: usize, bits: usize, h: usize, indices: &[usize]) -> usize
    requires { CanCount b bits h indices.now }
    ensures { result ≡ length (missing b h indices.now) }
{
    let mut n = indices.len();
    let mut t = 0;
    let mut shift = 0;
    for _ in 0..h {
        shift += bits;
        let w = count_changes(shift, indices) + 1;
        t += b * w - n;
        n = w;
    }
    t
}

// How many nodes are missing.
pub fn count_missing(h: usize, indices: &[usize]) -> usize
    requires { IndexSet h indices.now }
    ensures { result ≡ length (missing 2 h indices.now) }
{
    count_nodes(2, 1, h, indices)
}

// ---- Listing

// Copies the digests of those of the b children from first on that the set does not have, from the tree, whose level begins at start, to out.
fn list_children(
    first: usize,
    b: usize,
    set: &[usize],
    a: usize,
    tree: &[u8],
    start: usize,
    out: &mut [u8],
    t: usize,
) -> Place
    requires { CanList first b set.now (length set.now) a tree.now start out.old t }
    ensures { Listed first b set.now (all_parts tree.now) start out.old out.new a t result.a result.t }
{
    let mut a = a;
    let mut t = t;
    for c in first..first + b {
        if next_is(set, a, c) {
            a += 1;
        } else {
            let to = 32 * t;
            let from = 32 * (start + c);
            out[to..to + 32].copy_from_slice(&tree[from..from + 32]);
            t += 1;
        }
    }
    Place { a, t }
}

// Lists the missing nodes of one level. Returns the next place in out.
fn list_level(b: usize, set: &[usize], tree: &[u8], start: usize, out: &mut [u8], t: usize) -> usize
    requires { CanListLevel b set.now (length set.now) tree.now start out.old t }
    ensures { LevelListed b set.now (all_parts tree.now) start out.old out.new t result }
{
    let mut a = 0;
    let mut t = t;
    while a < set.len() {
        let p = set[a] / b;
        let g = list_children(b * p, b, set, a, tree, start, out, t);
        a = g.a;
        t = g.t;
    }
    t
}

// Lists the missing nodes of all levels, of which the lowest has width nodes. Returns their number.
fn list_nodes(
    b: usize,
    h: usize,
    width: usize,
    set: &mut [usize],
    tree: &[u8],
    out: &mut [u8],
) -> usize
    requires { CanListNodes b h width set.old (length set.old) tree.now out.old }
    ensures { NodesListed b h set.old (all_parts tree.now) out.old out.new result }
{
    let mut n = set.len();
    let mut t = 0;
    let mut start = 0;
    let mut width = width;
    for _ in 0..h {
        t = list_level(b, &set[..n], tree, start, out, t);
        n = to_parents(b, &mut set[..n]);
        start += width;
        width = width / b;
    }
    t
}

// Copies the missing nodes from a tree over n = 2^h leaves to the front of out. Returns their number.
pub fn list_missing(h: usize, n: usize, indices: &[usize], tree: &[u8], out: &mut [u8]) -> usize
    requires { IndexSet h indices.now × (n ≡ 2 ^ h) × (length tree.now ≡ 32 * tree_size 2 h) × (32 * length (missing 2 h indices.now) ≤ length out.old) }
    ensures value { result ≡ length (missing 2 h indices.now) }
    ensures out_after { out.new ≡ flatten (opened 2 h (all_parts tree.now) indices.now) ++ drop (32 * result) out.old }
{
    let mut room = [0usize; 64];
    let set = &mut room[..indices.len()];
    set.copy_from_slice(indices);
    list_nodes(2, h, n, set, tree, out)
}
