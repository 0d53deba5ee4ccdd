// The first test at opened leaves, 9: do the batching answers agree with the values of each?
#![tactic(auto)]

ghost use Rattle.std.specs.Prelude.{◌≡◌, ◌+◌, ◌*◌, ◌<◌, ◌≤◌, length};
ghost use Rattle.lists.specs.All.{Below};
ghost use Rattle.lists.specs.Tests.{each};
ghost use Rattle.lists.specs.Tabulate.{tabulate};
ghost use Rattle.algebra.specs.Columns.{pow_n};
ghost use Rattle.algebra.specs.Dot.{longest};
ghost use Rattle.opened.specs.Records.{record_words_at};
ghost use Rattle.batching_test.specs.Batching.{agrees_at, valued_leaf, batched_row};
ghost use Rattle.tree.specs.Leaf.{index_end};
ghost use Rattle.scheme.specs.Sizes.{most_rows};

use field::Element;
use opened::{LeafRecords, fill_powers, opened_point};

const MOST_CHALLENGES: usize = 4; // of a test

const MOST_ROWS: usize = 64; // row values of a leaf

const SPAN: usize = 32; // so many coefficients of an answer are summed at a time, by as many powers of a leaf's point

// The batching answers, `width` coefficients each, one for each challenge; and the first `mu` powers of each challenge, one row each.
#[derive(Clone, Copy)]
struct Batched<'a> {
    width: usize,
    mu: usize,
    challenges: &'a [u32],
    answers: &'a [u32],
    scales: &'a [u32],
}

// Does batching answer k agree with the values of an opened leaf? `powers` are the first of the leaf's point e.
fn batching_agrees(batched: &Batched, k: usize, e: Element, powers: &[u32], values: &[u32]) -> bool
    requires { (k < length batched.now.challenges.now) ×
        (batched.now.mu ≤ longest) ×
        (powers.now ≡ tabulate (length powers.now) (pow_n e.0)) ×
        (0 < length powers.now) ×
        (length powers.now ≤ longest) ×
        (batched.now.width * k + batched.now.width ≤ length batched.now.answers.now) ×
        (batched.now.mu * k + batched.now.mu ≤ length batched.now.scales.now) ×
        (batched.now.mu + length batched.now.challenges.now ≤ length values.now) }
    ensures { result ≡ agrees_at batched.now.width batched.now.mu batched.now.challenges.now batched.now.answers.now batched.now.scales.now e.0 values.now k }
{
    let mu = batched.mu;
    let answer = batched.width * k;
    let answer_end = answer + batched.width;
    let left = horner::evaluate_by(e, powers, &batched.answers[answer..answer_end]);
    let scale = mu * k;
    let scale_end = scale + mu;
    let rows = sums::dot(&batched.scales[scale..scale_end], &values[..mu]);
    let challenge = Element(batched.challenges[k]);
    let right = field::multiply_add(Element(values[mu + k]), challenge, rows);
    left.0 == right.0
}

// Does each batching answer agree with each opened leaf? Both walks are left at the first pair that does not.
// `powers` is room for some of those of one leaf's point, `values` for one leaf's values.
fn batching_walk(
    batched: &Batched,
    indices: &[usize],
    records: &LeafRecords,
    powers: &mut [u32],
    values: &mut [u32],
) -> bool
    requires { (batched.now.mu ≤ longest) × Below index_end indices.now × (0 < length powers.old) ×
        (length powers.old ≤ longest) ×
        (batched.now.width * length batched.now.challenges.now ≤ length batched.now.answers.now) ×
        (batched.now.mu * length batched.now.challenges.now ≤ length batched.now.scales.now) ×
        (batched.now.mu + length batched.now.challenges.now ≤ length values.old) ×
        (4 * length values.old ≤ records.now.size) ×
        (records.now.at + records.now.size * length indices.now ≤ length records.now.reply.now) }
    ensures { result ≡ each (length indices.now) (valued_leaf batched.now.width batched.now.mu batched.now.challenges.now batched.now.answers.now batched.now.scales.now indices.now (record_words_at records.now.at records.now.size (length values.old) records.now.reply.now)) }
{
    let mut ok = true;
    'walk: for a in 0..indices.len() {
        let e = opened_point(indices, a);
        field::powers(e, powers);
        records.read_values(a, values);
        for k in 0..batched.challenges.len() {
            if !batching_agrees(batched, k, e, powers, values) {
                ok = false;
                break 'walk;
            }
        }
    }
    ok
}

// Does each batching answer agree with each opened leaf? The leaf records begin at `at`.
pub fn batching_ok(
    width: usize,
    mu: usize,
    challenges: &[u32],
    batching: &[u32],
    indices: &[usize],
    at: usize,
    size: usize,
    reply: &[u8],
) -> bool
    requires { (0 < width) × Below index_end indices.now × (width * length challenges.now ≤ length batching.now) × (mu ≤ most_rows) × (length challenges.now ≤ 4) × (4 * (mu + length challenges.now) ≤ size) × (at + size * length indices.now ≤ length reply.now) }
    ensures { result ≡ each (length challenges.now) (batched_row width mu challenges.now batching.now indices.now (record_words_at at size (mu + length challenges.now) reply.now)) }
{
    let mut scales = [0u32; MOST_ROWS * MOST_CHALLENGES];
    fill_powers(mu, challenges, &mut scales);
    let batched = Batched {
        width,
        mu,
        challenges,
        answers: batching,
        scales: &scales,
    };
    let records = LeafRecords { reply, at, size };
    let mut powers = [0u32; SPAN];
    let mut values = [0u32; MOST_ROWS + MOST_CHALLENGES];
    batching_walk(
        &batched,
        indices,
        &records,
        &mut powers[..width.min(SPAN)],
        &mut values[..mu + challenges.len()],
    )
}
