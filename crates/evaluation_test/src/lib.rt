// The second test at opened leaves, 10: do the polynomials through the evaluation answers agree with the values of each?
// In the barycentric form: the answers are weighed once, and each leaf takes the inverses of the value points' distances to its point.
#![tactic(auto)]

ghost use Rattle.std.specs.Prelude.{◌≡◌, ◌++◌, ◌+◌, ◌*◌, ◌%◌, ◌<◌, ◌≤◌, eqb, length, drop};
ghost use Rattle.std.specs.List.{list_all, zip};
ghost use Rattle.lists.specs.All.{Below};
ghost use Rattle.lists.specs.Fill.{Filled};
ghost use Rattle.lists.specs.Tests.{each};
ghost use Rattle.algebra.specs.Prime.{q};
ghost use Rattle.algebra.specs.Dot.{longest};
ghost use Rattle.algebra.specs.Inverse.{inv_n};
ghost use Rattle.opened.specs.Records.{record_words_at};
ghost use Rattle.lists.specs.Rows.{rows_of};
ghost use Rattle.evaluation_test.specs.Evaluation.{Fits, weighed_row, weighed_at, weighed_all, weighed_leaf, evaluated_leaf};
ghost use Rattle.scheme.specs.Sizes.{most_leaves, most_rows, most_width, most_points};
ghost use Rattle.tree.specs.Leaf.{index_end};

use field::Element;
use opened::{LeafRecords, fill_powers, opened_point};

const MOST_POINTS: usize = 8; // evaluation points of a test

const MOST_ROWS: usize = 64; // row values of a leaf

const MOST_WIDTH: usize = 320; // words of an answer

const FEW_ROWS: usize = 8; // arrays are cleared at every call: a test with so few row values ..

const SHORT_WIDTH: usize = 32; // .. and so short answers takes small ones

const MOST_SCALES: usize = MOST_ROWS * MOST_POINTS; // the powers of the evaluation points, one for each row value

const FEW_SCALES: usize = FEW_ROWS * MOST_POINTS;

const MOST_LEAVES: usize = 4096; // of a tree

const LONG_TABLE: usize = MOST_LEAVES + MOST_WIDTH; // a table of inverses of all distances from a leaf to a value point

const SHORT_TABLE: usize = 384; // a small one

const NO_TABLE: usize = 2; // the shortest, which is as good as none

// The first `count` answers, weighed; the weights; and the powers of each evaluation point, one row each.
#[derive(Clone, Copy)]
struct Weighed<'a> {
    count: usize,
    weights: &'a [u32],
    answers: &'a [u32],
    scales: &'a [u32],
}

// Room for one leaf's row values, and for the products of the distances to its point.
#[derive(Drop)]
struct Scratch<'a> {
    rows: &'a mut [u32],
    products: &'a mut [u32],
    room: &'a mut [u32],
}

// ---- one leaf

// Is each dot product of the weighed answers the total times the sum beside it?
fn products_ok(total: Element, lefts: &[u32], sums: &[u32]) -> bool
    ensures { result ≡ list_all (λ p. eqb p.0 (total.0 * p.1 % q)) (zip lefts.now sums.now) }
{
    lefts.iter().zip(sums).all(|(left, sum)| *left == field::multiply(total, Element(*sum)).0)
}

// Do the weighed answers agree with the row values of a leaf? `inverses` are those of the distances to its point, or all have one factor.
fn weighed_ok(weighed: &Weighed, inverses: &[u32], rows: &[u32]) -> bool
    requires { (weighed.now.count ≤ most_points) × (length inverses.now ≡ length weighed.now.weights.now) × (length weighed.now.weights.now ≤ longest) × (length rows.now ≤ longest) × (length weighed.now.weights.now * weighed.now.count ≤ length weighed.now.answers.now) × (length rows.now * weighed.now.count ≤ length weighed.now.scales.now) }
    ensures { result ≡ each weighed.now.count (weighed_at inverses.now weighed.now.weights.now weighed.now.answers.now weighed.now.scales.now rows.now) }
{
    let total = sums::dot(inverses, weighed.weights);
    let mut lefts = [0u32; MOST_POINTS];
    let lefts = &mut lefts[..weighed.count];
    sums::dots(inverses, weighed.answers, lefts);
    let mut sums = [0u32; MOST_POINTS];
    let sums = &mut sums[..weighed.count];
    sums::dots(rows, weighed.scales, sums);
    products_ok(total, lefts, sums)
}

// .. where the first value point is `near` places after the leaf's. A table of inverses serves if it reaches far enough; otherwise products of the distances do. `products` and `room` are scratch.
fn leaf_ok(
    weighed: &Weighed,
    near: usize,
    table: &[u32],
    rows: &[u32],
    products: &mut [u32],
    room: &mut [u32],
) -> bool
    requires { (weighed.now.count ≤ most_points) × (0 < near) × (near + length weighed.now.weights.now < q) ×
        Filled inv_n table.now 1 (length table.now) × (length weighed.now.weights.now ≤ longest) ×
        (length rows.now ≤ longest) ×
        (length weighed.now.weights.now * weighed.now.count ≤ length weighed.now.answers.now) ×
        (length rows.now * weighed.now.count ≤ length weighed.now.scales.now) ×
        (length products.old ≡ length weighed.now.weights.now) × (length room.old ≡ length weighed.now.weights.now) }
    ensures { result ≡ weighed_all weighed.now.count near weighed.now.weights.now weighed.now.answers.now weighed.now.scales.now rows.now }
{
    let far = near + weighed.weights.len();
    if far <= table.len() {
        weighed_ok(weighed, &table[near..far], rows)
    } else {
        barycentric::cofactors(near as u32, products, room);
        weighed_ok(weighed, products, rows)
    }
}

// ---- all leaves

// Do the weighed answers agree with each opened leaf? `first` is the first value point.
fn evaluation_walk(
    weighed: &Weighed,
    first: usize,
    table: &[u32],
    indices: &[usize],
    records: &LeafRecords,
    scratch: &mut Scratch,
) -> bool
    requires { (weighed.now.count ≤ most_points) × (first ≤ index_end) × Below first indices.now × (length indices.now ≤ 64) ×
        Filled inv_n table.now 1 (length table.now) × (length weighed.now.weights.now ≤ longest) ×
        (length scratch.old.rows.now ≤ longest) ×
        Fits weighed.now.count weighed.now.weights.now weighed.now.answers.now scratch.old.rows.now weighed.now.scales.now records.now.at records.now.size indices.now records.now.reply.now scratch.old.products.now scratch.old.room.now }
    ensures { result ≡ each (length indices.now) (weighed_leaf weighed.now.count first weighed.now.weights.now weighed.now.answers.now weighed.now.scales.now indices.now (record_words_at records.now.at records.now.size (length scratch.old.rows.now) records.now.reply.now)) }
{
    let rows = &mut *scratch.rows;
    let products = &mut *scratch.products;
    let room = &mut *scratch.room;
    for a in 0..indices.len() {
        let x = opened_point(indices, a);
        records.read_values(a, rows);
        let near = first - x.0 as usize;
        if !leaf_ok(weighed, near, table, rows, products, room) {
            return false;
        }
    }
    true
}

// The length of the table of inverses for so many opened leaves: as far as the distances go where it pays. A place of the products of distances is taken to cost one and a half entries of it.
fn table_length(first: usize, width: usize, opened: usize) -> usize
    requires { (0 < first) × (first ≤ most_leaves) × (0 < width) × (width ≤ most_width) × (opened ≤ 64) }
    ensures { (2 ≤ result) × (result ≤ 4416) }
{
    let reach = first + width;
    if 3 * opened * width < 2 * reach {
        return NO_TABLE;
    }
    reach
}

// The walk with a table of n inverses, which is filled first, in an array of SIZE.
fn tabled_walk<const SIZE: usize>(
    n: usize,
    weighed: &Weighed,
    first: usize,
    indices: &[usize],
    records: &LeafRecords,
    scratch: &mut Scratch,
) -> bool
    requires { (2 ≤ n) × (n ≤ SIZE) × (SIZE ≤ longest) × (weighed.now.count ≤ most_points) × (first ≤ index_end) ×
        Below first indices.now × (length indices.now ≤ 64) × (length weighed.now.weights.now ≤ longest) ×
        (length scratch.old.rows.now ≤ longest) ×
        Fits weighed.now.count weighed.now.weights.now weighed.now.answers.now scratch.old.rows.now weighed.now.scales.now records.now.at records.now.size indices.now records.now.reply.now scratch.old.products.now scratch.old.room.now }
    ensures { result ≡ each (length indices.now) (weighed_leaf weighed.now.count first weighed.now.weights.now weighed.now.answers.now weighed.now.scales.now indices.now (record_words_at records.now.at records.now.size (length scratch.old.rows.now) records.now.reply.now)) }
{
    let mut inverses = [0u32; SIZE];
    let table = &mut inverses[..n];
    barycentric::inverses(table);
    evaluation_walk(weighed, first, table, indices, records, scratch)
}

// The walk with the table that pays. Arrays are cleared, so a short table takes a small one.
fn choosing_walk(
    weighed: &Weighed,
    first: usize,
    indices: &[usize],
    records: &LeafRecords,
    scratch: &mut Scratch,
) -> bool
    requires { (weighed.now.count ≤ most_points) × (0 < first) × (first ≤ most_leaves) × Below first indices.now ×
        (length indices.now ≤ 64) × (0 < length weighed.now.weights.now) × (length weighed.now.weights.now ≤ most_width) ×
        (length scratch.old.rows.now ≤ longest) ×
        Fits weighed.now.count weighed.now.weights.now weighed.now.answers.now scratch.old.rows.now weighed.now.scales.now records.now.at records.now.size indices.now records.now.reply.now scratch.old.products.now scratch.old.room.now }
    ensures { result ≡ each (length indices.now) (weighed_leaf weighed.now.count first weighed.now.weights.now weighed.now.answers.now weighed.now.scales.now indices.now (record_words_at records.now.at records.now.size (length scratch.old.rows.now) records.now.reply.now)) }
{
    let n = table_length(first, weighed.weights.len(), indices.len());
    if n <= SHORT_TABLE {
        tabled_walk::<SHORT_TABLE>(n, weighed, first, indices, records, scratch)
    } else {
        tabled_walk::<LONG_TABLE>(n, weighed, first, indices, records, scratch)
    }
}

// ---- the test

// Each of the first m answers, weighed.
fn weigh_answers(m: usize, weights: &[u32], answers: &mut [u32])
    requires { length weights.now * m ≤ length answers.old }
    ensures { answers.new ≡ rows_of (weighed_row weights.now answers.old) m ++ drop (length weights.now * m) answers.old }
{
    let width = weights.len();
    for p in 0..m {
        let from = width * p;
        let to = from + width;
        barycentric::weigh(weights, &mut answers[from..to]);
    }
}

// `evaluation_ok` in arrays of WIDTH words for an answer and of SCALES for the powers of the evaluation points.
fn evaluation_in<const WIDTH: usize, const SCALES: usize>(
    leaves: usize,
    width: usize,
    mu: usize,
    points: &[u32],
    answers: &mut [u32],
    indices: &[usize],
    records: &LeafRecords,
) -> bool
    requires { (0 < leaves) × (leaves ≤ most_leaves) × Below leaves indices.now × (length indices.now ≤ 64) × (0 < width) ×
        (width ≤ most_width) × (mu ≤ most_rows) × (length points.now ≤ most_points) ×
        (width * length points.now ≤ length answers.old) × (4 * mu ≤ records.now.size) ×
        (records.now.at + records.now.size * length indices.now ≤ length records.now.reply.now) × (width ≤ WIDTH) ×
        (WIDTH ≤ most_width) × (mu * length points.now ≤ SCALES) × (SCALES ≤ longest) }
    ensures { result ≡ each (length indices.now) (evaluated_leaf leaves width points.now answers.old indices.now (record_words_at records.now.at records.now.size mu records.now.reply.now)) }
{
    let mut scales = [0u32; SCALES];
    fill_powers(mu, points, &mut scales);
    let mut weights = [0u32; WIDTH];
    let weights = &mut weights[..width];
    barycentric::weights(weights);
    weigh_answers(points.len(), weights, answers);
    let weighed = Weighed {
        count: points.len(),
        weights,
        answers,
        scales: &scales,
    };
    let mut rows = [0u32; MOST_ROWS];
    let mut products = [0u32; WIDTH];
    let mut room = [0u32; WIDTH];
    let mut scratch = Scratch {
        rows: &mut rows[..mu],
        products: &mut products[..width],
        room: &mut room[..width],
    };
    choosing_walk(&weighed, leaves, indices, records, &mut scratch)
}

// Does each answer agree with each opened leaf? `leaves` is the first value point; the leaf records begin at `at`. The answers come back weighed.
pub fn evaluation_ok(
    leaves: usize,
    width: usize,
    mu: usize,
    points: &[u32],
    answers: &mut [u32],
    indices: &[usize],
    at: usize,
    size: usize,
    reply: &[u8],
) -> bool
    requires { (0 < leaves) × (leaves ≤ most_leaves) × Below leaves indices.now × (length indices.now ≤ 64) × (0 < width) × (width ≤ most_width) × (mu ≤ most_rows) × (length points.now ≤ most_points) × (width * length points.now ≤ length answers.old) × (4 * mu ≤ size) × (at + size * length indices.now ≤ length reply.now) }
    ensures { result ≡ each (length indices.now) (evaluated_leaf leaves width points.now answers.old indices.now (record_words_at at size mu reply.now)) }
{
    let records = LeafRecords { reply, at, size };
    if width <= SHORT_WIDTH && mu <= FEW_ROWS {
        evaluation_in::<SHORT_WIDTH, FEW_SCALES>(
            leaves, width, mu, points, answers, indices, &records,
        )
    } else {
        evaluation_in::<MOST_WIDTH, MOST_SCALES>(
            leaves, width, mu, points, answers, indices, &records,
        )
    }
}
