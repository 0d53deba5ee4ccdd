// The opened leaves of a reply: the point of each and the values in its record; and tables of powers. Both tests at opened leaves use them.
#![tactic(auto)]

ghost use Rattle.std.specs.Prelude.{◌≡◌, ◌++◌, ◌+◌, ◌*◌, ◌<◌, ◌≤◌, length, get_or, drop};
ghost use Rattle.lists.specs.All.{Below};
ghost use Rattle.scheme.specs.Sizes.{leaf_point};
ghost use Rattle.opened.specs.Records.{record_of, record_words_at};
ghost use Rattle.lists.specs.Rows.{rows_of};
ghost use Rattle.opened.specs.Powers.{powers_at};
ghost use Rattle.tree.specs.Leaf.{index_end};

use field::Element;
use node_sets::{LeafIndex, opened_index};

// The point of a leaf.
fn leaf_point(i: LeafIndex) -> Element
    ensures { result.0 ≡ leaf_point i.0 }
{
    Element(i.0)
}

// The point of opened leaf a.
pub fn opened_point(indices: &[usize], a: usize) -> Element
    requires { (a < length indices.now) × Below index_end indices.now }
    ensures { result.0 ≡ leaf_point (get_or indices.now a 0) }
{
    leaf_point(opened_index(indices, a))
}

// The leaf records of a reply, one for each opened leaf: each of `size` bytes, from byte `at` on.
#[derive(Clone, Copy)]
pub struct LeafRecords<'a> {
    pub reply: &'a [u8],
    pub at: usize,
    pub size: usize,
}

impl<'a> LeafRecords<'a> {
    // The record of opened leaf a, handed on as the part of the reply that holds it.
    pub fn record(&self, a: usize) -> &'a [u8]
        requires { self.now.at + self.now.size * a + self.now.size ≤ length self.now.reply.now }
        ensures { result.now ≡ record_of self.now.at self.now.size self.now.reply.now a }
    {
        let from = self.at + self.size * a;
        let to = from + self.size;
        &self.reply[from..to]
    }

    // Its first values, as many as there is room for.
    pub fn read_values(&self, a: usize, values: &mut [u32])
        requires { (self.now.at + self.now.size * a + self.now.size ≤ length self.now.reply.now) × (4 * length values.old ≤ self.now.size) }
        ensures { values.new ≡ record_words_at self.now.at self.now.size (length values.old) self.now.reply.now a }
    {
        codec::read_words(self.record(a), 0, values.len(), values);
    }
}

// The first n powers of each element, one row each.
pub fn fill_powers(n: usize, xs: &[u32], table: &mut [u32])
    requires { n * length xs.now ≤ length table.old }
    ensures { table.new ≡ rows_of (powers_at n xs.now) (length xs.now) ++ drop (n * length xs.now) table.old }
{
    for (a, x) in xs.iter().enumerate() {
        let from = n * a;
        let to = from + n;
        field::powers(Element(*x), &mut table[from..to]);
    }
}
