// What is drawn for a proof: the challenges, whether a counter qualifies, and the question so drawn.
#![tactic(auto)]

ghost use Rattle.std.specs.Prelude.{◌≡◌, suc, ◌+◌, ◌≤◌, ◌<◌, length, drop};
ghost use mathlib.Core.List.{◌∷◌, ◌++◌, map, flatten};
ghost use Rattle.sponge.specs.Digest as D;
ghost use Rattle.lists.specs.Bytes.{little_endian, bytes_of};
ghost use Rattle.lists.specs.Spliced.{spliced};
ghost use Rattle.scheme.specs.Question.{challenges_at, header_sizes, question_length};
ghost use Rattle.fiat_shamir.specs.Offline.{header_root_salt, most_bits};
ghost use Rattle.fiat_shamir.specs.Draw.{challenge_string, drawn_challenges, qualifies, drawn_bytes};
ghost use Rattle.commitment.specs.Shape.{sizes_in};

use codec::{put_bytes, put_halves, put_words};
use commitment::{challenges_at, indices_at, points_at};
use field::Q;
use offline_question::OfflineQuery;
use question::MOST_CHALLENGES;
use sponge::digest;
use words::word;

const CHALLENGE_PREFIX: u8 = 2;

const CHALLENGE_STRING: usize = 80; // the prefix, header, root, salt

const LEAF_PREFIX: u8 = 3;

pub const COUNTER: usize = 4; // bytes of a counter

pub const LONGEST_DRAW: usize = 544; // 32 bytes, and 8 for each of 64 leaves

pub const LONGEST_QUESTION: usize = 255; // of a conversation

pub const LONGEST_STRING: usize = 15472; // of a leaf draw but for the counter: prefix, question, 12 answers of 320 words

// A string after a prefix of one byte, to the front of `out`.
fn put_prefixed(prefix: u8, string: &[u8], out: &mut [u8])
    requires { length string.now < length out.old }
    ensures { out.new ≡ (prefix ∷ string.now) ++ drop (suc (length string.now)) out.old }
{
    out[0] = prefix;
    put_bytes(out, 1, string);
}

// The digest of 0x02, header, root, salt.
fn challenge_digest(question: &[u8]) -> [u8; 32]
    requires { challenges_at ≤ length question.now }
    ensures { result ≡ D.digest (challenge_string (header_root_salt question.now)) }
{
    let mut s = [0u8; CHALLENGE_STRING];
    let to = challenges_at();
    put_prefixed(CHALLENGE_PREFIX, &question[..to], &mut s);
    digest(&s)
}

// The challenges: the first words of eight bytes of that digest, each modulo q.
fn draw_challenges(question: &[u8], out: &mut [u32])
    requires { (challenges_at ≤ length question.now) × (length out.old ≤ 4) × (length out.old ≡ (header_sizes (header_root_salt question.now)).η) }
    ensures { out.new ≡ drawn_challenges (header_root_salt question.now) }
{
    let d = challenge_digest(question);
    for (k, x) in out.iter_mut().enumerate() {
        *x = (word(&d, 8 * k) % u64::from(Q)) as u32;
    }
}

// The front of a leaf draw's string: 0x03 and the question.
pub fn put_question(question: &[u8], string: &mut [u8])
    requires { length question.now < length string.old }
    ensures { string.new ≡ (3 ∷ question.now) ++ drop (suc (length question.now)) string.old }
{
    put_prefixed(LEAF_PREFIX, question, string);
}

// Are the first kappa bits of a draw zero?
pub fn qualified(draw: &[u8], kappa: u32) -> bool
    requires { (2 ≤ length draw.now) × (kappa ≤ most_bits) }
    ensures { result ≡ qualifies kappa draw.now }
{
    let first = u16::from_be_bytes([draw[0], draw[1]]);
    u32::from(first) < 1u32 << (16 - kappa)
}

// The bytes, from `at` on. One by one, since for a copy by the library the compiler wants memmove of the C library here.
fn put_part(out: &mut [u8], at: usize, bytes: &[u8])
    requires { at + length bytes.now ≤ length out.old }
    ensures { out.new ≡ spliced at (length bytes.now) bytes.now out.old }
{
    for i in 0..bytes.len() {
        out[at + i] = bytes[i];
    }
}

// The bytes of a question with these challenges and indices: header, root, salt, challenges, points, indices.
fn put_parts(query: &OfflineQuery<'_>, challenges: &[u32], indices: &[usize], out: &mut [u8])
    requires { (length challenges.now ≡ query.now.shape.eta) × (length indices.now ≡ query.now.shape.l) × (length out.old ≡ question_length (sizes_in query.now.shape) query.now.m) }
    ensures { out.new ≡ header_root_salt query.now.bytes.now ++ (bytes_of challenges.now ++ (drop challenges_at query.now.bytes.now ++ flatten (map (little_endian 2) indices.now))) }
{
    let question = query.bytes;
    let at = challenges_at();
    put_part(out, 0, &question[..at]);
    put_words(out, at, challenges);
    put_part(out, points_at(query.shape), &question[at..]);
    put_halves(out, indices_at(query.shape, query.m as usize), indices);
}

// The bytes of the question so drawn.
pub fn draw_question(query: &OfflineQuery<'_>, indices: &[usize], out: &mut [u8])
    requires { (length indices.now ≡ query.now.shape.l) × (length out.old ≡ question_length (sizes_in query.now.shape) query.now.m) }
    ensures { out.new ≡ drawn_bytes query.now.bytes.now indices.now }
{
    let mut room = [0u32; MOST_CHALLENGES];
    let challenges = &mut room[..query.shape.eta as usize];
    draw_challenges(query.bytes, challenges);
    put_parts(query, challenges, indices, out);
}
