// The answers of an opening: sums over the rows, each times a power of a point, and polynomials through them, as bytes of a reply.
#![tactic(auto)]

ghost use Rattle.std.specs.Prelude.{◌≡◌, ◌+◌, ◌*◌, ◌≤◌, length, drop};
ghost use mathlib.Core.List.{map, flatten};
ghost use Rattle.lists.specs.Pieces.{pieces};
ghost use Rattle.lists.specs.Range.{up_from};
ghost use Rattle.lists.specs.Bytes.{words, bytes_of};
ghost use Rattle.lists.specs.Tabulate.{tabulate};
ghost use Rattle.algebra.specs.Columns.{pow_n};
ghost use Rattle.algebra.specs.Dot.{longest, dots_of};
ghost use Rattle.algebra.specs.Pairs.{points_end};
ghost use Rattle.scheme.specs.Layers.{extended_rows, combination};
ghost use Rattle.scheme.specs.Sizes.{rows, columns, width, most_width};
ghost use Rattle.commitment.specs.Shape.{sizes_in};
ghost use Rattle.lists.specs.Spliced.{spliced};
ghost use Rattle.lent.specs.Witnessed.{witnessed, LaysOut};
ghost use Rattle.column_sums.specs.Sums.{Powers, column_sums};
ghost use Rattle.answers.specs.Answers.{Lined, Combines, batching_over, batching_at, answer_at};

use codec::{put_words, word};
use column_sums::sum_columns;
use commitment::{Shape, column_count, row_count};
use field::{Element, fold, powers};
use interpolation::interpolate_from;
use lent::Witness;
use row_sums::sum_rows;
use sums::{dot, dots};

// Rows of at most so many entries are summed by Horner's rule, which needs no room for sums.
const NARROW: usize = 8;

// The most rows.
const MOST_ROWS: usize = 64;

// The widest row, and up to which width an answer takes small room, since room is cleared at each call.
const WIDEST: usize = 320;

const FEW: usize = 32;

// ---- sums over the rows

// The sum over j of z^j times row j, by Horner's rule. The last row takes the place of what was in `out`.
fn horner(rows: &[u32], mu: usize, z: Element, out: &mut [u32])
    requires { Lined (length out.old) mu rows.now }
    ensures { out.new ≡ combination (length out.old) z.0 (pieces (length out.old) mu rows.now) }
{
    let n = out.len();
    let last = n * (mu - 1);
    fold(out, Element(0), &rows[last..]);
    for j in (0..mu - 1).rev() {
        let from = n * j;
        let to = from + n;
        fold(out, z, &rows[from..to]);
    }
}

// The sum over j of z^j times row j. The weights are the powers of z.
fn combine_tails(weights: &[u32], rows: &[u32], z: Element, out: &mut [u32])
    requires { Lined (length out.old) (length weights.now) rows.now × (weights.now ≡ tabulate (length weights.now) (pow_n z.0)) }
    ensures { out.new ≡ combination (length out.old) z.0 (pieces (length out.old) (length weights.now) rows.now) }
{
    if out.len() <= NARROW {
        horner(rows, weights.len(), z, out);
        return;
    }
    sum_rows(weights, rows, out);
}

// The dot products of the weights with columns that stand one after the other. A single one is done at once.
fn plain_columns(weights: &[u32], columns: &[u32], out: &mut [u32])
    requires { (length weights.now * length out.old ≤ length columns.now) × (length weights.now ≤ longest) }
    ensures { out.new ≡ dots_of weights.now (length out.old) columns.now }
{
    if out.len() == 1 {
        let end = weights.len();
        let sum = dot(weights, &columns[..end]);
        out[0] = sum.0;
        return;
    }
    dots(weights, columns, out);
}

// The sums over the rows of each column. Without blinding rows the columns stand one after the other in the coefficients.
fn combine_columns(s: Shape, weights: &[u32], witness: &Witness<'_>, out: &mut [u32])
    requires { LaysOut (sizes_in s) witness.now × Powers (rows (sizes_in s)) weights.now × (length out.old ≡ columns (sizes_in s)) }
    ensures { out.new ≡ column_sums (sizes_in s) witness.now.coefficients.now witness.now.blinds.now weights.now }
{
    if s.beta == 0 {
        plain_columns(weights, witness.coefficients, out);
        return;
    }
    sum_columns(s, weights, witness, out);
}

// The sums over the rows j of z^j times each entry, column by column, and then times each tail. A row's tails stand one after the other.
fn combine_lent(s: Shape, witness: &Witness<'_>, z: Element, out: &mut [u32])
    requires { Combines (sizes_in s) witness.now × (length out.old ≡ width (sizes_in s)) }
    ensures { out.new ≡ combination (width (sizes_in s)) z.0 (extended_rows (sizes_in s) (witnessed witness.now)) }
{
    let rows = row_count(s);
    let columns = column_count(s);
    let mut weights = [0u32; MOST_ROWS]; // powers of z
    powers(z, &mut weights[..rows]);
    combine_columns(s, &weights[..rows], witness, &mut out[..columns]);
    combine_tails(&weights[..rows], witness.tails, z, &mut out[columns..]);
}

// The batching answer: the mask plus gamma times the polynomial through the rows' sum. One interpolation, since it is linear. `sum` is room for that sum.
fn batching_answer(
    s: Shape,
    first: Element,
    witness: &Witness<'_>,
    mask: &[u32],
    gamma: Element,
    sum: &mut [u32],
    out: &mut [u32],
)
    requires { Combines (sizes_in s) witness.now × (length out.old ≡ width (sizes_in s)) × (first.0 + length out.old ≤ points_end) × (length mask.now ≡ length out.old) × (length sum.old ≡ length out.old) }
    ensures { out.new ≡ batching_over first.0 (length out.old) (extended_rows (sizes_in s) (witnessed witness.now)) mask.now gamma.0 }
{
    combine_lent(s, witness, gamma, sum);
    interpolate_from(first, sum, out);
    fold(out, gamma, mask);
}

// ---- one answer as bytes of the reply

// A batching answer, in room for rows of so many entries.
fn put_batching_in<const N: usize>(
    s: Shape,
    first: Element,
    witness: &Witness<'_>,
    mask: &[u32],
    gamma: Element,
    out: &mut [u8],
    at: usize,
)
    requires { Combines (sizes_in s) witness.now × (length mask.now ≡ width (sizes_in s)) × (first.0 + length mask.now ≤ points_end) × (at + 4 * length mask.now ≤ length out.old) × (length mask.now ≤ N) × (N ≤ most_width) }
    ensures { out.new ≡ spliced at (4 * length mask.now) (bytes_of (batching_over first.0 (length mask.now) (extended_rows (sizes_in s) (witnessed witness.now)) mask.now gamma.0)) out.old }
{
    let n = mask.len();
    let mut sum = [0u32; N];
    let mut answer = [0u32; N];
    batching_answer(
        s,
        first,
        witness,
        mask,
        gamma,
        &mut sum[..n],
        &mut answer[..n],
    );
    put_words(out, at, &answer[..n]);
}

// A batching answer, in small room where it is narrow.
fn put_batching(
    s: Shape,
    first: Element,
    witness: &Witness<'_>,
    mask: &[u32],
    gamma: Element,
    out: &mut [u8],
    at: usize,
)
    requires { Combines (sizes_in s) witness.now × (length mask.now ≡ width (sizes_in s)) × (first.0 + length mask.now ≤ points_end) × (at + 4 * length mask.now ≤ length out.old) }
    ensures { out.new ≡ spliced at (4 * length mask.now) (bytes_of (batching_over first.0 (length mask.now) (extended_rows (sizes_in s) (witnessed witness.now)) mask.now gamma.0)) out.old }
{
    if mask.len() <= FEW {
        put_batching_in::<FEW>(s, first, witness, mask, gamma, out, at);
    } else {
        put_batching_in::<WIDEST>(s, first, witness, mask, gamma, out, at);
    }
}

// An evaluation answer, in room for rows of so many entries.
fn put_answer_in<const N: usize>(
    s: Shape,
    witness: &Witness<'_>,
    n: usize,
    z: Element,
    out: &mut [u8],
    at: usize,
)
    requires { Combines (sizes_in s) witness.now × (n ≡ width (sizes_in s)) × (at + 4 * n ≤ length out.old) × (n ≤ N) × (N ≤ most_width) }
    ensures { out.new ≡ spliced at (4 * n) (bytes_of (combination n z.0 (extended_rows (sizes_in s) (witnessed witness.now)))) out.old }
{
    let mut answer = [0u32; N];
    combine_lent(s, witness, z, &mut answer[..n]);
    put_words(out, at, &answer[..n]);
}

// An evaluation answer, in small room where it is narrow.
fn put_answer(s: Shape, witness: &Witness<'_>, n: usize, z: Element, out: &mut [u8], at: usize)
    requires { Combines (sizes_in s) witness.now × (n ≡ width (sizes_in s)) × (at + 4 * n ≤ length out.old) }
    ensures { out.new ≡ spliced at (4 * n) (bytes_of (combination n z.0 (extended_rows (sizes_in s) (witnessed witness.now)))) out.old }
{
    if n <= FEW {
        put_answer_in::<FEW>(s, witness, n, z, out, at);
    } else {
        put_answer_in::<WIDEST>(s, witness, n, z, out, at);
    }
}

// ---- the answers one after the other

// A batching answer for each challenge of the question, where the challenges stand from `challenges` on.
pub fn put_batchings(
    s: Shape,
    question: &[u8],
    challenges: usize,
    first: Element,
    witness: &Witness<'_>,
    n: usize,
    out: &mut [u8],
    at: usize,
)
    requires { Combines (sizes_in s) witness.now × (n ≡ width (sizes_in s)) × (first.0 + n ≤ points_end) × (length witness.now.masks.now ≡ s.eta * n) × (challenges + 4 * s.eta ≤ length question.now) × (at + 4 * n * s.eta ≤ length out.old) }
    ensures { out.new ≡ spliced at (4 * n * s.eta) (bytes_of (flatten (map (batching_at first.0 n (extended_rows (sizes_in s) (witnessed witness.now)) witness.now.masks.now (words s.eta (drop challenges question.now))) (up_from 0 s.eta)))) out.old }
{
    let eta = s.eta as usize;
    let size = 4 * n;
    for k in 0..eta {
        let gamma = Element(word(question, challenges + 4 * k));
        let from = n * k;
        let to = from + n;
        put_batching(
            s,
            first,
            witness,
            &witness.masks[from..to],
            gamma,
            out,
            at + size * k,
        );
    }
}

// An evaluation answer for each point of the question, where the points stand from `points` on.
pub fn put_answers(
    s: Shape,
    question: &[u8],
    points: usize,
    m: usize,
    witness: &Witness<'_>,
    n: usize,
    out: &mut [u8],
    at: usize,
)
    requires { Combines (sizes_in s) witness.now × (n ≡ width (sizes_in s)) × (points + 4 * m ≤ length question.now) × (at + 4 * n * m ≤ length out.old) }
    ensures { out.new ≡ spliced at (4 * n * m) (bytes_of (flatten (map (answer_at n (extended_rows (sizes_in s) (witnessed witness.now))) (words m (drop points question.now))))) out.old }
{
    let size = 4 * n;
    for p in 0..m {
        let z = Element(word(question, points + 4 * p));
        put_answer(s, witness, n, z, out, at + size * p);
    }
}
