// For planners: how long the reply to a question is, and how many permutations its check runs, before it is made.
#![tactic(auto)]

ghost use Rattle.std.specs.Prelude.{◌≡◌, ◌+◌, ◌-◌, ◌*◌, ◌≤◌, length};
ghost use Rattle.tree.specs.Sets.{missing};
ghost use Rattle.tree.specs.Clauses.{IndexSet};
ghost use Rattle.tree.specs.Work.{permutations_for};
ghost use Rattle.scheme.specs.Sizes.{SizesInOrder, most_points};
ghost use Rattle.scheme.specs.Question.{read_question};
ghost use Rattle.scheme.specs.Reply.{nodes_at};
ghost use Rattle.scheme.specs.Sizing.{sizing};
ghost use Rattle.scheme.specs.Work.{leaf_length, node_length, counting};
ghost use Rattle.commitment.specs.Shape.{sizes_in};
ghost use Rattle.refusal.specs.Numbers.{number_of, given};
ghost use Rattle.planner.specs.Planned.{most_missing};

use commitment::{Shape, nodes_at, record_length};
use digests::{NODE, RECORD_START};
use missing_nodes::count_missing;
use question::{Query, ask};
use refusal::Refusal;
use sponge::permutations_for;

// The length of a reply with so many missing nodes.
fn length_with(s: Shape, m: usize, missing: usize) -> usize
    requires { SizesInOrder (sizes_in s) × (m ≤ most_points) × (missing ≤ most_missing) }
    ensures { result ≡ nodes_at (sizes_in s) m + 32 * missing }
{
    nodes_at(s, m) + 32 * missing
}

// The length of a reply that opens these leaves.
pub fn length_for(s: Shape, m: usize, indices: &[usize]) -> usize
    requires { SizesInOrder (sizes_in s) × (m ≤ most_points) × IndexSet s.h indices.now }
    ensures { result ≡ nodes_at (sizes_in s) m + 32 * length (missing 2 s.h indices.now) }
{
    length_with(s, m, count_missing(s.h as usize, indices))
}

// The permutations of a check with so many missing nodes: for each opened leaf's string, and for that of each node above one. Every node above has two children,
// and these are all nodes above but the root, the opened leaves and the missing nodes.
fn work_with(s: Shape, missing: usize) -> usize
    requires { SizesInOrder (sizes_in s) × (missing ≤ most_missing) }
    ensures { result ≡ s.l * permutations_for (leaf_length (sizes_in s)) + (s.l + missing - 1) * permutations_for (node_length (sizes_in s)) }
{
    let l = s.l as usize;
    let leaf = permutations_for(RECORD_START + record_length(s));
    let nodes = l + missing - 1;
    l * leaf + nodes * permutations_for(NODE)
}

// How many nodes are missing from the leaves of a well-formed question.
fn asked_missing(query: &Query<'_>) -> usize
    ensures { result ≡ length (missing 2 query.now.shape.h (read_question query.now.bytes.now).indices) }
{
    let l = query.shape.l as usize;
    let indices = query.indices();
    count_missing(query.shape.h as usize, &indices[..l])
}

// The exact length of the reply to a question: what an opener must be lent, and what a check takes.
pub fn reply_length(question: &[u8]) -> Result<usize, Refusal>
    ensures { (number_of result, given result) ≡ sizing question.now }
{
    let query = ask(question)?;
    Ok(length_with(query.shape, query.m as usize, asked_missing(&query)))
}

// How many permutations the check of a reply to a question runs where it comes to hashing, whatever the reply.
pub fn permutations(question: &[u8]) -> Result<usize, Refusal>
    ensures { (number_of result, given result) ≡ counting question.now }
{
    let asked = ask(question)?;
    Ok(work_with(asked.shape, asked_missing(&asked)))
}
