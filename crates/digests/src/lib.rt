// Digests in rows of bytes: the first one, a digest written to its place, the string and the digest of a leaf, what a node's string begins with.
//
// A digest has 32 bytes; in a row they stand one after the other. A function that writes a digest returns how many permutations were run for it.
#![tactic(auto)]

ghost use Rattle.std.specs.Prelude.{◌≡◌, ◌∷◌, ◌++◌, ◌+◌, ◌*◌, ◌/◌, ◌≤◌, ◌<◌, length, take, drop};
ghost use Rattle.sponge.specs.Digest.{digest};
ghost use Rattle.tree.specs.Leaf.{leaf_string, salt_length, prefix_length, record_start, index_end, longest_record};

use node_sets::LeafIndex;

pub const PREFIX: usize = 33; // what every string begins with: a byte, the salt

pub const RECORD_START: usize = 35; // where a leaf's record begins in its string: after the prefix, the index

const LONGEST_LEAF: usize = 339; // a string with the longest record

pub const NODE: usize = 97; // a node's string: the prefix, two digests

// ---- Digests

// The first digest.
pub fn first_digest(s: &[u8]) -> [u8; 32]
    requires { 32 ≤ length s.now }
    ensures { result ≡ take 32 s.now }
{
    let mut d = [0u8; 32];
    d.copy_from_slice(&s[..32]);
    d
}

// The digest of s, written to out.
fn digest_into(s: &[u8], out: &mut [u8]) -> usize
    requires { length out.old ≡ 32 }
    ensures out_after { out.new ≡ digest s.now }
    ensures value { result ≡ length s.now / 136 + 1 }
{
    let h = sponge::hash(s);
    out.copy_from_slice(&h.digest);
    h.permutations
}

// The digest of s, written to place p of a row of digests.
pub fn write_digest(s: &[u8], row: &mut [u8], p: usize) -> usize
    requires { 32 * p + 32 ≤ length row.old }
    ensures row_after { row.new ≡ take (32 * p) row.old ++ (digest s.now ++ drop (32 * p + 32) row.old) }
    ensures value { result ≡ length s.now / 136 + 1 }
{
    let lo = 32 * p;
    let hi = lo + 32;
    digest_into(s, &mut row[lo..hi])
}

// ---- Leaves

// Writes a leaf's string to the front of buf.
fn leaf_string(salt: &[u8], index: LeafIndex, leaf: &[u8], buf: &mut [u8])
    requires { (length salt.now ≡ salt_length) × (record_start + length leaf.now ≤ length buf.old) }
    ensures { take (record_start + length leaf.now) buf.new ≡ leaf_string salt.now index.0 leaf.now }
{
    buf[0] = 0;
    buf[1..PREFIX].copy_from_slice(salt);
    buf[PREFIX] = (index.0 % 256) as u8;
    buf[PREFIX + 1] = (index.0 / 256 % 256) as u8;
    buf[RECORD_START..RECORD_START + leaf.len()].copy_from_slice(leaf);
}

// The digest of a leaf, given the commitment's salt, the leaf's index and its record of values and nonce.
pub fn leaf_digest(salt: &[u8], index: LeafIndex, leaf: &[u8], out: &mut [u8]) -> usize
    requires { (length salt.now ≡ salt_length) × (index.0 < index_end) × (length leaf.now ≤ longest_record) × (length out.old ≡ 32) }
    ensures out_after { out.new ≡ digest (leaf_string salt.now index.0 leaf.now) }
    ensures value { result ≡ (record_start + length leaf.now) / 136 + 1 }
{
    let mut buf = [0u8; LONGEST_LEAF];
    let n = RECORD_START + leaf.len();
    leaf_string(salt, index, leaf, &mut buf);
    digest_into(&buf[0..n], out)
}

// ---- Nodes

// The string of a node with two children, before their digests are written: 0x01 and the salt stand in front.
pub fn node_buffer(salt: &[u8]) -> [u8; NODE]
    requires { length salt.now ≡ salt_length }
    ensures { (length result ≡ 97) × (take prefix_length result ≡ 1 ∷ salt.now) }
{
    let mut node = [1u8; NODE];
    node[1..PREFIX].copy_from_slice(salt);
    node
}
