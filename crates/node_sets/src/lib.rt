// Numbers of nodes: the index of a leaf, and sets of nodes of one level with their parents.
//
// A set is a slice of numbers in rising order; a is a place in it. A node has b children.
#![tactic(auto)]

ghost use Rattle.std.specs.Prelude.{◌≡◌, ◌+◌, ◌≤◌, ◌<◌, length, get_or, take, drop};
ghost use Rattle.lists.specs.All.{Below};
ghost use Rattle.tree.specs.Sets.{parents};
ghost use Rattle.tree.specs.Walk.{heads, used};
ghost use Rattle.node_sets.specs.Clauses.{NodeSet};
ghost use Rattle.tree.specs.Leaf.{index_end};

// The number of a leaf, a type of its own: it is no field point.
#[derive(Clone, Copy)]
pub struct LeafIndex(pub u32);

// A place in a set and one in a list of nodes.
#[derive(Clone, Copy)]
pub struct Place {
    pub a: usize,
    pub t: usize,
}

// ---- Indices of leaves

// The index of opened leaf a.
pub fn opened_index(indices: &[usize], a: usize) -> LeafIndex
    requires { (a < length indices.now) × Below index_end indices.now }
    ensures { result.0 ≡ get_or indices.now a 0 }
{
    let i = indices[a];
    LeafIndex(i as u32)
}

// ---- Sets of nodes

// Does the set go on with c, from place a on?
pub fn next_is(set: &[usize], a: usize, c: usize) -> bool
    ensures { result ≡ heads (drop a set.now) c }
{
    a < set.len() && set[a] == c
}

// The place in the set, from a on, behind those of the b children from first on that it has.
fn skip_children(first: usize, b: usize, set: &[usize], a: usize) -> usize
    requires { first + b ≤ 4294967296 }
    ensures { result ≡ a + used first b (drop a set.now) }
{
    let mut a = a;
    for c in first..first + b {
        if next_is(set, a, c) {
            a += 1;
        }
    }
    a
}

// The set's parents take its place. Returns their number.
pub fn to_parents(b: usize, set: &mut [usize]) -> usize
    requires { NodeSet b set.old (length set.old) }
    ensures { (result ≡ length (parents b set.old)) × (take result set.new ≡ parents b set.old) }
{
    let mut a = 0;
    let mut w = 0;
    while a < set.len() {
        let p = set[a] / b;
        a = skip_children(b * p, b, set, a);
        set[w] = p;
        w += 1;
    }
    w
}
