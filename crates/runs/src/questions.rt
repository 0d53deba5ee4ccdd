// Questions, made from what is asked.
use super::calls::front;
use super::inputs::{Salt, Slice, filled, filled_points, filled_salt};
use super::sizes::product;
use codec::{put_bytes, put_words};
use commitment::{Shape, challenges_at, root_at, salt_at};

// The version that is not refused.
pub const VERSION: u16 = 3;

// The version, the number of points and the salt; challenges and points, of which a question holds the first ones; the indices first, first + step, first + 2 step, ..
#[derive(Clone, Copy)]
pub struct Asked {
    pub version: u16,
    pub m: u32,
    pub salt: Salt,
    pub challenges: [u32; 4],
    pub points: [u32; 8],
    pub first: usize,
    pub step: usize,
}

// With salt, challenges and points by the rules.
pub fn filled_question(m: u32, first: usize, step: usize) -> Asked {
    Asked {
        version: VERSION,
        m,
        salt: Salt::First,
        challenges: filled(Slice::Challenges),
        points: filled_points(),
        first,
        step,
    }
}

// The same about a commitment with another salt.
pub fn with_salt(a: Asked, salt: Salt) -> Asked {
    Asked { salt, ..a }
}

fn put_indices(first: usize, step: usize, out: &mut [u8]) {
    for (k, index) in out.chunks_exact_mut(2).enumerate() {
        let i = first % 65536 + product(step, k);
        index.copy_from_slice(&i.to_le_bytes()[..2]);
    }
}

fn low_byte(n: u32) -> u8 {
    n.to_le_bytes()[0]
}

// Sizes that are larger than their places are cut.
fn header(version: u16, s: Shape, m: u32) -> [u8; 15] {
    let version = version.to_le_bytes();
    let nu = s.nu.to_le_bytes();
    let w = s.w.to_le_bytes();
    [
        b'S',
        b'W',
        b'Q',
        version[0],
        version[1],
        low_byte(s.h),
        low_byte(s.mu),
        nu[0],
        nu[1],
        w[0],
        w[1],
        low_byte(s.l),
        low_byte(s.eta),
        low_byte(m),
        low_byte(s.beta),
    ]
}

// Header, root (the last 32 bytes of the tree) and salt, to the front of `question`.
fn put_named(version: u16, s: Shape, m: u32, salt: Salt, tree: &[u8], question: &mut [u8]) {
    if tree.len() < 32 {
        return;
    }
    if question.len() < challenges_at() {
        return;
    }
    let head = header(version, s, m);
    let bytes = filled_salt::<32>(salt);
    let last = tree.len() - 32;
    put_bytes(question, 0, &head);
    put_bytes(question, root_at(), &tree[last..]);
    put_bytes(question, salt_at(), &bytes);
}

// The question of a proof, header, root, salt and points, to the front of `question`.
pub fn put_offline_question(s: Shape, a: Asked, tree: &[u8], question: &mut [u8]) {
    let all_points = a.points;
    let points = front(&all_points, a.m as usize);
    if question.len() < challenges_at() + 4 * points.len() {
        return;
    }
    put_named(a.version, s, a.m, a.salt, tree, question);
    put_words(question, challenges_at(), points);
}

// A question of these sizes about the root, to the front of `question`; the rest of it is filled with indices.
pub fn put_question(s: Shape, a: Asked, tree: &[u8], question: &mut [u8]) {
    let all_challenges = a.challenges;
    let all_points = a.points;
    let challenges = front(&all_challenges, s.eta as usize);
    let points = front(&all_points, a.m as usize);
    let points_at = challenges_at() + 4 * challenges.len();
    let indices_at = points_at + 4 * points.len();
    if question.len() < indices_at {
        return;
    }
    put_named(a.version, s, a.m, a.salt, tree, question);
    put_words(question, challenges_at(), challenges);
    put_words(question, points_at, points);
    put_indices(a.first, a.step, &mut question[indices_at..]);
}
