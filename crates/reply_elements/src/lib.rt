// The reply's words are elements: its answers, and the values of its leaf records where they stand.
#![tactic(auto)]

ghost use Rattle.std.specs.Prelude.{◌≡◌, [], ◌∷◌, ◌+◌, ◌*◌, ◌≤◌, length};
ghost use Rattle.lists.specs.Tests.{every, each};
ghost use Rattle.scheme.specs.Sizes.{elements};
ghost use Rattle.reply_elements.specs.Elements.{record_elements_at};

use codec::{elements_in, elements_ok};
use opened::LeafRecords;

// Is each of the first n values of leaf record a an element?
fn are_elements(records: &LeafRecords, n: usize, a: usize) -> bool
    requires { (records.now.at + records.now.size * a + records.now.size ≤ length records.now.reply.now) × (4 * n ≤ records.now.size) }
    ensures { result ≡ record_elements_at records.now.at records.now.size n records.now.reply.now a }
{
    elements_in(records.record(a), 0, n)
}

// Is each of the n values of each leaf record an element?
pub fn record_elements(at: usize, size: usize, n: usize, count: usize, reply: &[u8]) -> bool
    requires { (at + size * count ≤ length reply.now) × (4 * n ≤ size) }
    ensures { result ≡ each count (record_elements_at at size n reply.now) }
{
    let records = LeafRecords { reply, at, size };
    (0..count).all(|a| are_elements(&records, n, a))
}

// Is each word of the reply an element? The records begin at `at`.
pub fn elements_read(
    batching: &[u32],
    answers: &[u32],
    at: usize,
    size: usize,
    n: usize,
    count: usize,
    reply: &[u8],
) -> bool
    requires { (at + size * count ≤ length reply.now) × (4 * n ≤ size) }
    ensures { result ≡ every (elements batching.now ∷ elements answers.now ∷ each count (record_elements_at at size n reply.now) ∷ []) }
{
    elements_ok(batching) && elements_ok(answers) && record_elements(at, size, n, count, reply)
}
