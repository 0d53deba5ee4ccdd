// The sizes of a commitment, and what follows from them: where each part of a question and of a reply begins. Nowhere else are places reckoned.
#![tactic(auto)]

ghost use Rattle.std.specs.Prelude.{◌≡◌, [], ◌∷◌, ◌+◌, ◌*◌, ◌^◌, ◌≤◌, leb};
ghost use Rattle.lists.specs.Tests.{every, within};
ghost use Rattle.scheme.specs.Sizes.{SizesInOrder, sizes_ok, columns, rows, coefficient_count, blind_count, width, record_values, most_points};
ghost use Rattle.scheme.specs.Question.{header_length, salt_at, challenges_at, points_at, indices_at, question_length};
ghost use Rattle.scheme.specs.Reply.{record_length, answers_at, records_at, nodes_at};
ghost use Rattle.commitment.specs.Shape.{sizes_in};

use codec::{both, in_range};

// The sizes of a commitment, `Sizes` of the definitions: depth, rows of coefficients, columns per polynomial, polynomials, opened leaves, batching repetitions, blinding rows.
#[derive(Clone, Copy)]
pub struct Shape {
    pub h: u32,
    pub mu: u32,
    pub nu: u32,
    pub w: u32,
    pub l: u32,
    pub eta: u32,
    pub beta: u32,
}

// ---- the sizes

// N, the number of leaves.
pub fn leaf_count(h: u32) -> usize
    requires { h ≤ 12 }
    ensures { result ≡ 2 ^ h }
{
    1usize << h
}

// Are the blinding rows in their range, no more than the rows of coefficients, and with these at most 64? No sizes are added up, since they can be any.
fn blinding_ok(s: Shape) -> bool
    ensures { result ≡ every (within 0 16 s.beta ∷ leb s.beta s.mu ∷ leb (s.mu + s.beta) 64 ∷ []) }
{
    if in_range(0, s.beta, 16) {
        both(s.beta <= s.mu, s.mu <= 64 - s.beta)
    } else {
        false
    }
}

// Are all sizes but the depth in their ranges, and do the columns and the opened leaves fit?
fn widths_ok(s: Shape, leaves: u64) -> bool
    ensures { result ≡ every (within 1 64 s.mu ∷ within 1 256 s.nu ∷ within 1 256 s.w ∷ leb (s.w * s.nu) 256 ∷ within 1 64 s.l ∷ within 1 4 s.eta ∷ leb (s.w * s.nu + s.l) leaves ∷ within 0 16 s.beta ∷ leb s.beta s.mu ∷ leb (s.mu + s.beta) 64 ∷ []) }
{
    let columns = (s.w as u64) * (s.nu as u64);
    let few = columns <= 256;
    let fit = both(columns + (s.l as u64) <= leaves, blinding_ok(s));
    let eta = both(in_range(1, s.eta, 4), fit);
    let l = both(in_range(1, s.l, 64), eta);
    let c = both(few, l);
    let w = both(in_range(1, s.w, 256), c);
    let nu = both(in_range(1, s.nu, 256), w);
    both(in_range(1, s.mu, 64), nu)
}

// Is each size in its range, wν + ℓ at most N, β at most μ, and μ + β at most 64?
pub fn sizes_ok(s: Shape) -> bool
    ensures { result ≡ sizes_ok (sizes_in s) }
{
    if in_range(1, s.h, 12) {
        widths_ok(s, leaf_count(s.h) as u64)
    } else {
        false
    }
}

// All columns.
pub fn column_count(s: Shape) -> usize
    requires { SizesInOrder (sizes_in s) }
    ensures { result ≡ columns (sizes_in s) }
{
    s.w as usize * s.nu as usize
}

// The rows of the matrix: those of coefficients and the blinding rows.
pub fn row_count(s: Shape) -> usize
    ensures { result ≡ rows (sizes_in s) }
{
    s.mu as usize + s.beta as usize
}

// The coefficients of a polynomial, and the blinds of one.
pub fn coefficient_count(s: Shape) -> usize
    requires { SizesInOrder (sizes_in s) }
    ensures { result ≡ coefficient_count (sizes_in s) }
{
    s.mu as usize * s.nu as usize + s.beta as usize
}

pub fn blind_count(s: Shape) -> usize
    requires { SizesInOrder (sizes_in s) }
    ensures { result ≡ blind_count (sizes_in s) }
{
    (s.nu as usize - 1) * s.beta as usize
}

// The words of a row with its tails, and of an answer, batching or evaluation.
pub fn row_width(s: Shape) -> usize
    requires { SizesInOrder (sizes_in s) }
    ensures { result ≡ width (sizes_in s) }
{
    column_count(s) + s.l as usize
}

// ---- the layout of a question

pub const SALT_LENGTH: usize = 32;

// The bytes of the header; the root begins after them.
pub fn root_at() -> usize
    ensures { result ≡ header_length }
{
    15
}

// Where the salt begins, the challenges, the evaluation points and the indices, and how long a question is.
pub fn salt_at() -> usize
    ensures { result ≡ salt_at }
{
    root_at() + 32
}

pub fn challenges_at() -> usize
    ensures { result ≡ challenges_at }
{
    salt_at() + SALT_LENGTH
}

pub fn points_at(s: Shape) -> usize
    ensures { result ≡ points_at (sizes_in s) }
{
    challenges_at() + 4 * s.eta as usize
}

pub fn indices_at(s: Shape, m: usize) -> usize
    requires { m ≤ most_points }
    ensures { result ≡ indices_at (sizes_in s) m }
{
    points_at(s) + 4 * m
}

pub fn question_length(s: Shape, m: usize) -> usize
    requires { m ≤ most_points }
    ensures { result ≡ question_length (sizes_in s) m }
{
    indices_at(s, m) + 2 * s.l as usize
}

// ---- the layout of a reply

// The values of a leaf record, and its bytes.
pub fn record_values(s: Shape) -> usize
    requires { SizesInOrder (sizes_in s) }
    ensures { result ≡ record_values (sizes_in s) }
{
    row_count(s) + s.eta as usize
}

pub fn record_length(s: Shape) -> usize
    requires { SizesInOrder (sizes_in s) }
    ensures { result ≡ record_length (sizes_in s) }
{
    4 * record_values(s) + 32
}

// Where the evaluation answers, the leaf records and the missing nodes of a reply begin.
pub fn answers_at(s: Shape) -> usize
    requires { SizesInOrder (sizes_in s) }
    ensures { result ≡ answers_at (sizes_in s) }
{
    4 * row_width(s) * s.eta as usize
}

pub fn records_at(s: Shape, m: usize) -> usize
    requires { SizesInOrder (sizes_in s) × (m ≤ most_points) }
    ensures { result ≡ records_at (sizes_in s) m }
{
    answers_at(s) + 4 * row_width(s) * m
}

pub fn nodes_at(s: Shape, m: usize) -> usize
    requires { SizesInOrder (sizes_in s) × (m ≤ most_points) }
    ensures { result ≡ nodes_at (sizes_in s) m }
{
    let records = record_length(s) * s.l as usize;
    records_at(s, m) + records
}
