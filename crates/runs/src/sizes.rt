// Sizes, and how many items of each buffer a call at these sizes is lent.
ghost use Rattle.std.specs.Prelude.{◌≤◌};

use super::inputs::Slice;
use commitment::{SALT_LENGTH, Shape, challenges_at, leaf_count};

// Without blinding rows.
pub fn shape(h: u32, mu: u32, nu: u32, w: u32, l: u32, eta: u32) -> Shape {
    Shape {
        h,
        mu,
        nu,
        w,
        l,
        eta,
        beta: 0,
    }
}

// With so many blinding rows.
pub fn blinded(s: Shape, beta: u32) -> Shape {
    Shape { beta, ..s }
}

// The largest word for every size.
pub fn largest() -> Shape {
    let n = u32::MAX;
    blinded(shape(n, n, n, n, n, n), n)
}

#[derive(Clone, Copy)]
pub struct Lengths {
    pub coefficients: usize,
    pub tails: usize,
    pub blinds: usize,
    pub masks: usize,
    pub nonces: usize,
    pub salt: usize,
    pub table: usize,
    pub tree: usize,
    pub question: usize,
}

// The product of two numbers below 65536.
pub fn product(a: usize, b: usize) -> usize
    ensures { result ≤ 4294836225 }
{
    a % 65536 * (b % 65536)
}

// N, for a depth up to 12.
fn leaves_of(h: u32) -> usize
    ensures { (1 ≤ result) × (result ≤ 4096) }
{
    leaf_count(h % 13)
}

fn question_length(s: Shape, m: u32) -> usize {
    let words = s.eta as usize + m as usize;
    challenges_at() + 4 * words + 2 * s.l as usize
}

pub fn lengths_of(s: Shape, m: u32) -> Lengths {
    let nu = s.nu as usize;
    let w = s.w as usize;
    let l = s.l as usize;
    let eta = s.eta as usize;
    let beta = s.beta as usize;
    let leaves = leaves_of(s.h);
    let rows = s.mu as usize + beta;
    let width = product(w, nu) + l;
    let coefficients = product(s.mu as usize, nu) + beta;
    let blinds = product(nu.saturating_sub(1), beta);
    Lengths {
        coefficients: product(w, coefficients),
        tails: product(rows, l),
        blinds: product(w, blinds),
        masks: product(eta, width),
        nonces: 32 * leaves,
        salt: SALT_LENGTH,
        table: product(leaves, rows + eta),
        tree: 64 * leaves - 32,
        question: question_length(s, m),
    }
}

// The lengths, that of one slice less by 1.
pub fn shorter(n: Lengths, slice: Slice) -> Lengths {
    let mut m = n;
    match slice {
        Slice::Coefficients => m.coefficients = n.coefficients.saturating_sub(1),
        Slice::Tails => m.tails = n.tails.saturating_sub(1),
        Slice::Blinds => m.blinds = n.blinds.saturating_sub(1),
        Slice::Masks => m.masks = n.masks.saturating_sub(1),
        Slice::Nonces => m.nonces = n.nonces.saturating_sub(1),
        Slice::Table => m.table = n.table.saturating_sub(1),
        Slice::Tree => m.tree = n.tree.saturating_sub(1),
        Slice::Challenges | Slice::Points | Slice::Reply | Slice::Values => {}
    }
    m
}

// The lengths, with so many bytes of salt.
pub fn salted(n: Lengths, salt: usize) -> Lengths {
    Lengths { salt, ..n }
}
