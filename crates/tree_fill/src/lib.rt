// Filling a tree: from the digests of the leaves, level by level, to the root.
//
// fill_levels is general in the number b of a node's children and in what a node's string begins with; fill_tree takes two children, and 0x01 and the salt.
// buf is a node's string; its first off bytes are there from the start.
#![tactic(auto)]

ghost use Rattle.std.specs.Prelude.{◌≡◌, ◌*◌, ◌^◌, length, take};
ghost use mathlib.Core.List.{◌∷◌, flatten};
ghost use Rattle.sponge.specs.Digest.{digest};
ghost use Rattle.tree.specs.Leaf.{salt_length};
ghost use Rattle.tree.specs.Sets.{tree_size};
ghost use Rattle.tree.specs.Tree.{parts, all_parts, tree as tree_of};
ghost use Rattle.tree_fill.specs.Clauses.{CanHashLevel, with_level, CanFillLevels};

use digests::{PREFIX, node_buffer, write_digest};

// Hashes one level: part begins with its b * w digests, and the w digests of the level above are written into the part that begins after them.
fn hash_level(b: usize, w: usize, part: &mut [u8], buf: &mut [u8], off: usize)
    requires { CanHashLevel b w part.old buf.old off }
    ensures part_after { all_parts part.new ≡ with_level digest b (take off buf.old) w (all_parts part.old) }
    ensures buf_unchanged { take off buf.new ≡ take off buf.old }
{
    let size = 32 * b;
    let above = size * w;
    for p in 0..w {
        let children = size * p;
        buf[off..].copy_from_slice(&part[children..children + size]);
        write_digest(buf, &mut part[above..], p);
    }
}

// Fills a tree whose n = b^h leaf digests stand in front, level by level.
fn fill_levels(b: usize, h: usize, n: usize, tree: &mut [u8], buf: &mut [u8], off: usize)
    requires { CanFillLevels b h n tree.old buf.old off }
    ensures { tree.new ≡ flatten (tree_of digest b (take off buf.old) h (parts n tree.old)) }
{
    let mut n = n;
    let mut start = 0;
    for _ in 0..h {
        let w = n / b;
        hash_level(b, w, &mut tree[start..], buf, off);
        start += 32 * n;
        n = w;
    }
}

// Fills the tree over the n = 2^h leaf digests that stand in front.
pub fn fill_tree(salt: &[u8], h: usize, n: usize, tree: &mut [u8])
    requires { (length salt.now ≡ salt_length) × (n ≡ 2 ^ h) × (length tree.old ≡ 32 * tree_size 2 h) }
    ensures { tree.new ≡ flatten (tree_of digest 2 (1 ∷ salt.now) h (parts n tree.old)) }
{
    let mut buf = node_buffer(salt);
    fill_levels(2, h, n, tree, &mut buf, PREFIX);
}
