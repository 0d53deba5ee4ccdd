// The values of lanes with changing signs, as the first lines of a table of differences.
#![tactic(auto)]

ghost use Rattle.std.specs.Prelude.{◌≡◌, ℕ, ◌*◌, ◌<◌, ◌≤◌, length};
ghost use Rattle.algebra.specs.Field.{of, ◌⊗◌};
ghost use Rattle.algebra.specs.Lagrange.{sign};
ghost use Rattle.algebra.specs.Differences.{clip};
ghost use Rattle.stepping.specs.Lanes.{lane_count, limit, Small, KeptLanes};
ghost use Rattle.loading.specs.Signs.{value_from, Signed};

use field::Q;

// Twice the modulus.
const TWICE_Q: u64 = 2 * Q as u64;

// v or -v, by the sign of step k.
fn signed(v: u32, k: usize) -> u64
    ensures { (of result ≡ sign k ⊗ of v) × (result < limit) }
{
    let value = u64::from(v);
    if k % 2 == 0 { value } else { TWICE_Q - value }
}

// Value k of lane j with its sign, and 0 above the last.
fn signed_value(values: &[u32], width: usize, j: usize, k: usize) -> u64
    requires { (j < lane_count) × (4 * width ≤ length values.now) }
    ensures { (of result ≡ sign k ⊗ clip width (value_from values.now width j) k) × (result < limit) }
{
    if k < width {
        signed(values[4 * (width - 1 - k) + j], k)
    } else {
        0
    }
}

// The values of lane j, with changing signs, the last line first.
fn load_lane(values: &[u32], width: usize, lines: usize, j: usize, t: &mut [u64])
    requires { (j < lane_count) × (4 * lines ≤ length t.old) × Small t.old × (4 * width ≤ length values.now) }
    ensures { Small t.new × KeptLanes t.old j t.new × Signed values.now width lines lines j t.new }
{
    for r in 0..lines {
        t[4 * r + j] = signed_value(values, width, j, lines - 1 - r);
    }
}

// The values of all lanes.
pub fn load(values: &[u32], lanes: usize, width: usize, lines: usize, t: &mut [u64])
    requires { (lanes ≤ lane_count) × (4 * lines ≤ length t.old) × Small t.old × (4 * width ≤ length values.now) }
    ensures { Small t.new × ((j : ℕ) → j < lanes → Signed values.now width lines lines j t.new) }
{
    for j in 0..lanes {
        load_lane(values, width, lines, j, t);
    }
}
