// Steps of a table of differences: additions alone.
//
// A table has a line for each order of difference, the highest first, and four lanes, a polynomial each. A step takes
// every line one point further: each entry takes the one of the next order. Steps go in runs of 24 over blocks of five
// lines, so that entries stay in registers; they grow by a bit a step and are folded after a run.
#![tactic(auto)]

ghost use Rattle.std.specs.Prelude.{◌≡◌, ◌+◌, ◌*◌, ◌<◌, ◌≤◌, length};
ghost use Rattle.stepping.specs.Lanes.{lane_count, run, Small, Addable, Grown, turned, LaneStep, KeptLines, KeptLanes, BlockStep, KeptBelow, KeptFrom, TableStep, Zeros};

use field::folded;

// The steps of a run, after which entries are folded.
pub const RUN: usize = 24;

// One step of five entries of a lane: each takes the one above it, the last takes x.
fn turn(v: [u64; 5], x: u64) -> [u64; 5]
    requires { Addable v x }
    ensures { result ≡ turned v x }
{
    [v[0] + v[1], v[1] + v[2], v[2] + v[3], v[3] + v[4], v[4] + x]
}

// 24 steps of five entries of lane j. `w` has what comes from above, and then what goes below.
fn lane(t: &mut [u64], at: usize, w: &mut [u64], j: usize)
    requires { (at + 16 < length t.old) × (j < lane_count) × (length w.old ≡ lane_count * run) × Small t.old × Grown w.old }
    ensures { Small t.new × Grown w.new × KeptLines t.old at t.new × KeptLanes w.old j w.new × LaneStep t.old at w.old j t.new w.new }
{
    let mut v = [t[at + 16], t[at + 12], t[at + 8], t[at + 4], t[at]];
    for n in 0..RUN {
        let m = 4 * n + j;
        let x = w[m];
        w[m] = v[0];
        v = turn(v, x);
    }
    t[at] = folded(v[4]);
    t[at + 4] = folded(v[3]);
    t[at + 8] = folded(v[2]);
    t[at + 12] = folded(v[1]);
    t[at + 16] = folded(v[0]);
}

// 24 steps of five lines.
fn block(t: &mut [u64], b: usize, w: &mut [u64], lanes: usize)
    requires { (20 * b + 20 ≤ length t.old) × (lanes ≤ lane_count) × (length w.old ≡ lane_count * run) × Small t.old × Grown w.old }
    ensures { Small t.new × Grown w.new × KeptBelow (20 * b) t.old t.new × KeptFrom (20 * b + 20) t.old t.new × BlockStep b lanes t.old w.old t.new w.new }
{
    for j in 0..lanes {
        lane(t, 20 * b + j, w, j);
    }
}

// 24 steps of a table, from the highest order down. (From the lowest up the compiler would not vectorize `block`.)
pub fn steps(t: &mut [u64], blocks: usize, w: &mut [u64], lanes: usize)
    requires { (20 * blocks ≤ length t.old) × (lanes ≤ lane_count) × (length w.old ≡ lane_count * run) × Small t.old × Zeros w.old }
    ensures { Small t.new × TableStep (5 * blocks) lanes t.old t.new w.new }
{
    for b in 0..blocks {
        block(t, b, w, lanes);
    }
}
