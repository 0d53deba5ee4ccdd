// SHAKE256 of FIPS 202: cut to 32 bytes, with output of any length, and of many strings that begin alike.
#![tactic(auto)]

ghost use Rattle.std.specs.Prelude.{◌≡◌, ◌+◌, ◌*◌, ◌/◌, ◌≤◌, ◌<◌, length};
ghost use Rattle.sponge.specs.Shake as S;
ghost use Rattle.sponge.specs.Step as W;
ghost use Rattle.sponge.specs.Digest as D;
ghost use Rattle.sponge.specs.Resume as R;
ghost use Rattle.sponge.specs.Draw as O;

use permutation::keccak_f;
use squeezing::{squeeze, squeeze_block};
use words::word;

const RATE: usize = 136; // bytes of a block

// The step by which every string goes in: one lane ⊕ the next eight bytes from `at` on, or those left, as one number; all others unchanged.
fn xor_word(a: &mut [u64; 25], lane: usize, s: &[u8], at: usize)
    requires { (lane < 25) × (at ≤ length s.now) }
    ensures { a.new ≡ W.xor_word a.old lane s.now at }
{
    a[lane] ^= word(s, at);
}

// The lanes of the rate ⊕ the bytes of a block, or of what the string has of it: full words, and then those left. Full words cost no test of their own:
// each is a part of known length.
fn xor_words(a: &mut [u64; 25], s: &[u8])
    requires { (length a.old ≡ 25) × (length s.now ≤ 136) }
    ensures { a.new ≡ S.xor_block a.old s.now 0 }
{
    let full = s.len() / 8;
    for lane in 0..full {
        let at = 8 * lane;
        xor_word(a, lane, &s[at..at + 8], 0);
    }
    xor_word(a, full, s, 8 * full);
}

// The lanes of the rate ⊕ the last block of the padded string, of which the string itself has the bytes s. The padding goes straight into the state:
// 0x1f is SHAKE's suffix 1111 and the padding's first bit, and bit 63 of the rate's last lane is the padding's last bit.
fn xor_last_block(a: &mut [u64; 25], s: &[u8])
    requires { (length a.old ≡ 25) × (length s.now < 136) }
    ensures { a.new ≡ S.xor_block a.old (S.padded s.now) 0 }
{
    xor_words(a, s);
    let n = s.len();
    let lane = n / 8;
    let shift = n % 8 * 8;
    a[lane] ^= 0x1f << shift;
    a[16] ^= 0x8000_0000_0000_0000;
}

// A state, and how many permutations were run for it.
#[derive(Clone, Copy)]
struct Absorbed {
    state: [u64; 25],
    permutations: usize,
}

// The state after all blocks of the padded string. Each permutation for a digest is run here, and counted.
fn absorb(s: &[u8]) -> Absorbed
    ensures state_value { result.state ≡ S.absorbed (S.padded s.now) result.permutations }
    ensures permutations_value { result.permutations ≡ length s.now / 136 + 1 }
{
    let mut a = [0u64; 25];
    let mut ran: usize = 0;
    let blocks = s.len() / RATE;
    for block in 0..blocks {
        let at = RATE * block;
        xor_words(&mut a, &s[at..at + RATE]);
        keccak_f(&mut a);
        ran += 1;
    }
    xor_last_block(&mut a, &s[RATE * blocks..]);
    keccak_f(&mut a);
    Absorbed {
        state: a,
        permutations: ran + 1,
    }
}

// A digest, and how many permutations were run for it.
#[derive(Clone, Copy)]
pub struct Hashed {
    pub digest: [u8; 32],
    pub permutations: usize,
}

// The digest of a byte string of any length, with its permutations counted.
pub fn hash(s: &[u8]) -> Hashed
    ensures digest_value { result.digest ≡ D.digest s.now }
    ensures permutations_value { result.permutations ≡ length s.now / 136 + 1 }
{
    let t = absorb(s);
    let state = t.state;
    let digest = squeeze(state);
    Hashed {
        digest,
        permutations: t.permutations,
    }
}

// The digest of a byte string of any length.
pub fn digest(s: &[u8]) -> [u8; 32]
    ensures { result ≡ D.digest s.now }
{
    hash(s).digest
}

// The permutations that `hash` runs for a string of n bytes: for planners, who hash nothing.
pub fn permutations_for(n: usize) -> usize
    ensures { result ≡ n / 136 + 1 }
{
    n / RATE + 1
}

// ---- output of any length, and from a state on: apart from `absorb`, which is the faster for having one caller

// The full blocks of a string go into the state. The result is how many bytes they have.
fn absorb_blocks(a: &mut [u64; 25], s: &[u8]) -> usize
    requires { length a.old ≡ 25 }
    ensures { (result ≡ length s.now / 136 * 136) × (a.new ≡ R.absorbed_from a.old s.now (length s.now / 136)) }
{
    let full = s.len() / RATE;
    for block in 0..full {
        let at = RATE * block;
        xor_words(a, &s[at..at + RATE]);
        keccak_f(a);
    }
    RATE * full
}

// All blocks of the padded string go into the state.
fn absorb_tail(a: &mut [u64; 25], s: &[u8])
    requires { length a.old ≡ 25 }
    ensures { a.new ≡ R.finished a.old s.now }
{
    let at = absorb_blocks(a, s);
    xor_last_block(a, &s[at..]);
    keccak_f(a);
}

// Output of any length: a block at a time, and a permutation between two.
fn squeeze_all(a: [u64; 25], out: &mut [u8])
    ensures { out.new ≡ R.output a (length out.old) }
{
    let mut b = a;
    let before_last = out.len().saturating_sub(1) / RATE;
    for block in 0..before_last {
        let at = RATE * block;
        squeeze_block(b, &mut out[at..at + RATE]);
        keccak_f(&mut b);
    }
    squeeze_block(b, &mut out[RATE * before_last..]);
}

// The state after the full blocks of a string, for `draw_after`.
pub fn absorb_prefix(s: &[u8]) -> [u64; 25]
    ensures { result ≡ O.prefix_state s.now }
{
    let mut a = [0u64; 25];
    absorb_blocks(&mut a, s);
    a
}

// SHAKE256 of a string of which `a` has absorbed the full blocks before `tail`: as many bytes as `out` has.
pub fn draw_after(a: [u64; 25], tail: &[u8], out: &mut [u8])
    ensures { out.new ≡ O.drawn_after a tail.now (length out.old) }
{
    let mut b = a;
    absorb_tail(&mut b, tail);
    squeeze_all(b, out);
}

// SHAKE256 of a byte string: as many bytes as `out` has.
pub fn draw(s: &[u8], out: &mut [u8])
    ensures { out.new ≡ O.draw s.now (length out.old) }
{
    let a = [0u64; 25];
    draw_after(a, s, out);
}
