// Prints SHAKE256 outputs, each as a line of hexadecimal digits. 32 bytes by `digest`: of the two messages of FIPS 202's published examples, the empty one
// and 1600 bits that are 200 bytes 0xa3; of the first n bytes of a pattern, for n from 0 to 339; of four leaf strings, of 135, 139, 271 and 275 bytes. Then
// outputs of many lengths by `draw`, and outputs of 137 bytes by `draw_after`. The file stdout is made by tools/sponge_vectors.py from a second
// implementation.
#![tactic(auto)]

ghost use Rattle.std.specs.Prelude.{◌≡◌, ◌+◌, ◌*◌, ◌%◌, ◌≤◌, length};
ghost use Rattle.lists.specs.Tabulate.{tabulate};

use node_sets::LeafIndex;
use std::array::from_fn;
use std::io;

fn print_bytes(rt: &impl Print, d: &[u8]) -> io::Result<()> {
    for b in d {
        print!(rt; "{b:02x}")?;
    }
    println!(rt)
}

fn print_digest_of(rt: &impl Print, m: &[u8]) -> io::Result<()> {
    let d = sponge::digest(m);
    print_bytes(rt, &d)
}

// The pattern: byte i is 7 i + 3, modulo 256.
fn pattern() -> [u8; 408]
    ensures { result ≡ tabulate 408 (λ i. (i % 256 * 7 + 3) % 256) }
{
    from_fn(|i| ((i % 256 * 7 + 3) % 256) as u8)
}

// The digests of the first n bytes of m, for n from 0 to its length.
fn print_all(rt: &impl Print, m: &[u8]) -> io::Result<()> {
    for n in 0..=m.len() {
        print_digest_of(rt, &m[..n])?;
    }
    Ok(())
}

// The digest of the last leaf of 4,096 with so many row and mask values: its string is 0x00, the salt, the index, the values and the nonce, 4 values + 67 bytes. Values and nonce are the pattern's first bytes, the salt is its last 32.
fn print_leaf(rt: &impl Print, m: &[u8], values: usize) -> io::Result<()>
    requires { (values ≤ 68) × (408 ≤ length m.now) }
{
    let size = 4 * values + 32;
    let mut d = [0u8; 32];
    digests::leaf_digest(&m[376..408], LeafIndex(4095), &m[..size], &mut d);
    print_bytes(rt, &d)
}

// With 17 and with 51 values the string is one byte short of whole blocks, and the padding is one byte; with one value more it ends three bytes after.
fn print_leaves(rt: &impl Print, m: &[u8]) -> io::Result<()>
    requires { 408 ≤ length m.now }
{
    print_leaf(rt, m, 17)?;
    print_leaf(rt, m, 18)?;
    print_leaf(rt, m, 51)?;
    print_leaf(rt, m, 52)
}

// The first N bytes of the output for m.
fn print_draw<const N: usize>(rt: &impl Print, m: &[u8]) -> io::Result<()>
    requires { N ≤ 544 }
{
    let mut out = [0; N];
    sponge::draw(m, &mut out);
    print_bytes(rt, &out)
}

// Outputs below, at and above one block of 136 bytes, two, and four.
fn print_draws(rt: &impl Print, m: &[u8]) -> io::Result<()> {
    print_draw::<1>(rt, m)?;
    print_draw::<2>(rt, m)?;
    print_draw::<31>(rt, m)?;
    print_draw::<32>(rt, m)?;
    print_draw::<33>(rt, m)?;
    print_draw::<96>(rt, m)?;
    print_draw::<135>(rt, m)?;
    print_draw::<136>(rt, m)?;
    print_draw::<137>(rt, m)?;
    print_draw::<272>(rt, m)?;
    print_draw::<544>(rt, m)
}

// The output for the first `prefix` + `more` bytes of m, from the state after the full blocks of the first `prefix`.
fn print_resumed(rt: &impl Print, m: &[u8], prefix: usize, more: usize) -> io::Result<()>
    requires { (prefix ≤ 272) × (more ≤ 136) × (408 ≤ length m.now) }
{
    let a = sponge::absorb_prefix(&m[..prefix]);
    let rest = prefix / 136 * 136;
    let end = prefix + more;
    let mut out = [0u8; 137];
    sponge::draw_after(a, &m[rest..end], &mut out);
    print_bytes(rt, &out)
}

fn print_tails(rt: &impl Print, m: &[u8], prefix: usize) -> io::Result<()>
    requires { (prefix ≤ 272) × (408 ≤ length m.now) }
{
    print_resumed(rt, m, prefix, 4)?;
    print_resumed(rt, m, prefix, 135)?;
    print_resumed(rt, m, prefix, 136)
}

fn main(rt: HostRuntime) -> io::Result<()> {
    let example = [0xa3u8; 200];
    print_digest_of(&rt, &example[..0])?;
    print_digest_of(&rt, &example)?;
    let m = pattern();
    print_all(&rt, &m[..339])?;
    print_leaves(&rt, &m)?;
    print_draws(&rt, &m[..0])?;
    print_draws(&rt, &m[..97])?;
    print_draws(&rt, &m[..136])?;
    print_draws(&rt, &m[..339])?;
    print_tails(&rt, &m, 0)?;
    print_tails(&rt, &m, 132)?;
    print_tails(&rt, &m, 135)?;
    print_tails(&rt, &m, 136)?;
    print_tails(&rt, &m, 137)?;
    print_tails(&rt, &m, 272)
}
