// Values of polynomials before consecutive points, from those at the points, by walks along tables of differences.
//
// The table over values with changing signs steps along the differences, and the table over differences along the
// values: the same walk makes both.
#![tactic(auto)]

ghost use Rattle.std.specs.Prelude.{◌≡◌, ◌⊎◌, ◌+◌, ◌*◌, ◌/◌, ◌<◌, ◌≤◌, length};
ghost use Rattle.stepping.specs.Lanes.{lane_count, run, Small};
ghost use Rattle.extrapolation.specs.Written.{PutLanes, KeptColumns, KeptRows, Put, Walk};
ghost use Rattle.extrapolation.specs.Extrapolated.{points_together, Extrapolated};

use field::Q;
use loading::load;
use stepping::{RUN, steps};

// ---- walks along a table

// The values at step n of a run.
fn put_lanes(w: &[u64], n: usize, lanes: usize, start: usize, out: &mut [u32])
    requires { (n < run) × (lanes ≤ lane_count) × (length w.now ≡ lane_count * run) × (start + lanes ≤ length out.old) }
    ensures { PutLanes w.now n lanes start out.old out.new }
{
    for j in 0..lanes {
        out[start + j] = (w[4 * n + j] % u64::from(Q)) as u32;
    }
}

// The lesser.
pub fn least(a: usize, b: usize) -> usize
    ensures { (result ≤ a) × (result ≤ b) × ((result ≡ a) ⊎ (result ≡ b)) }
{
    a.min(b)
}

// The values of a run that began at step i: those of the steps from `first` on, the last one in the first row.
fn put_steps(
    w: &[u64],
    i: usize,
    lanes: usize,
    first: usize,
    count: usize,
    stride: usize,
    lo: usize,
    out: &mut [u32],
)
    requires { (lanes ≤ lane_count) × (length w.now ≡ lane_count * run) × (lo + lanes ≤ stride) × (count * stride ≤ length out.old) × (first + count ≤ points_together) × (i < first + count) }
    ensures { KeptColumns stride lo lanes out.old out.new × KeptRows i (first + count) stride lo lanes out.old out.new × Put w.now i run first (first + count) stride lo lanes out.new }
{
    let end = first + count;
    for n in first.saturating_sub(i)..RUN.min(end - i) {
        let x = end - 1 - (i + n);
        put_lanes(w, n, lanes, x * stride + lo, out);
    }
}

// Walks along with a table of differences, and writes the values at the steps from `first` on.
fn walk(
    t: &mut [u64],
    blocks: usize,
    lanes: usize,
    first: usize,
    count: usize,
    stride: usize,
    lo: usize,
    out: &mut [u32],
)
    requires { (20 * blocks ≤ length t.old) × (lanes ≤ lane_count) × Small t.old × (lo + lanes ≤ stride) × (count * stride ≤ length out.old) × (first + count ≤ points_together) }
    ensures { Small t.new × KeptColumns stride lo lanes out.old out.new × Walk (5 * blocks) t.old first (first + count) stride lo lanes out.new }
{
    let end = first + count;
    for i in (0..end).step_by(RUN) {
        let mut w = [0u64; 4 * RUN]; // what the run hands down
        steps(t, blocks, &mut w, lanes);
        put_steps(&w, i, lanes, first, count, stride, lo, out);
    }
}

// ---- from values to differences, and from these to values

// The values at 0, .., n - 1 of polynomials with at most `width` coefficients, from those at n, n + 1, ..
// Up to four polynomials at once: `values` has theirs point by point, four places to a point, and is used up.
// The new ones go to the columns from lo on of rows of `stride` entries. `lines` is room for the table of differences.
pub fn extrapolate(
    values: &mut [u32],
    width: usize,
    lanes: usize,
    n: usize,
    lines: &mut [u64],
    lo: usize,
    stride: usize,
    out: &mut [u32],
)
    requires { (0 < width) × (lanes ≤ lane_count) × (width + n ≤ points_together) × (4 * width ≤ length values.old) × (20 * ((width + 4) / 5) ≤ length lines.old) × Small lines.old × (lo + lanes ≤ stride) × (n * stride ≤ length out.old) }
    ensures { Small lines.new × KeptColumns stride lo lanes out.old out.new × Extrapolated values.old width lanes n lo stride out.new }
{
    let blocks = (width + 4) / 5;
    load(values, lanes, width, 5 * blocks, lines);
    walk(lines, blocks, lanes, 0, width, 4, 0, values);
    load(values, lanes, width, 5 * blocks, lines);
    walk(lines, blocks, lanes, width, n, stride, lo, out);
}
