// Sums of rows, each times a weight, where the rows stand one after the other.
#![tactic(auto)]

ghost use Rattle.std.specs.Prelude.{◌≡◌, ◌+◌, ◌*◌, ◌%◌, ◌<◌, ◌≤◌, length};
ghost use Rattle.algebra.specs.Prime.{q};
ghost use Rattle.lists.specs.Tabulate.{tabulate};
ghost use Rattle.algebra.specs.Dot.{longest, spare};
ghost use Rattle.algebra.specs.Sums.{widest, sums_of, low_added, high_added, SmallProducts, Spare, Summed, reduced_at};
ghost use Rattle.lists.specs.All.{All};
ghost use Rattle.lists.specs.Fill.{Filled};

use field::{SPLIT, WIDE_Q, product};

// The sums of the lower and the upper parts of products together, reduced.
fn reduce_sum(low: u64, high: u64) -> u32
    requires { (low < spare) × (high < spare) }
    ensures { result ≡ (low + 10 * high) % q }
{
    ((low + 10 * high) % WIDE_Q) as u32
}

// c times the row, added: the lower parts of the products to `low`, the upper parts to `high`.
fn add_multiple(c: u32, row: &[u32], low: &mut [u64], high: &mut [u64])
    requires { (length low.old ≡ length row.now) × (length high.old ≡ length row.now) × Spare low.old × Spare high.old }
    ensures { Filled (low_added c row.now low.old) low.new 0 (length row.now) × Filled (high_added c row.now high.old) high.new 0 (length row.now) × SmallProducts c row.now (length row.now) }
{
    for (i, &entry) in row.iter().enumerate() {
        let p = product(c, entry);
        low[i] += p % SPLIT;
        high[i] += p / SPLIT;
    }
}

// The rows, each times its weight, added to sums that are 0 at first.
fn add_rows(weights: &[u32], rows: &[u32], low: &mut [u64], high: &mut [u64])
    requires { (length high.old ≡ length low.old) × (length low.old * length weights.now ≤ length rows.now) × (length weights.now ≤ longest) × All (λ x. x ≡ 0) low.old × All (λ x. x ≡ 0) high.old }
    ensures { Summed weights.now (length low.old) rows.now (length weights.now) low.new high.new × Spare low.new × Spare high.new }
{
    let n = low.len();
    for (j, &weight) in weights.iter().enumerate() {
        let from = n * j;
        add_multiple(weight, &rows[from..from + n], low, high);
    }
}

// The sums of the lower and the upper parts together, reduced.
fn reduce_sums(low: &[u64], high: &[u64], out: &mut [u32])
    requires { (length low.now ≡ length out.old) × (length high.now ≡ length out.old) × Spare low.now × Spare high.now }
    ensures { out.new ≡ tabulate (length out.old) (reduced_at low.now high.now) }
{
    for (i, sum) in out.iter_mut().enumerate() {
        *sum = reduce_sum(low[i], high[i]);
    }
}

// The entries of the widest rows.
const WIDEST: usize = 64;

// The sum of the rows, each times its weight, where the rows stand one after the other. Each entry is reduced once, as in `dot`.
pub fn sum_rows(weights: &[u32], rows: &[u32], out: &mut [u32])
    requires { (length out.old * length weights.now ≤ length rows.now) × (length weights.now ≤ longest) × (length out.old ≤ widest) }
    ensures { out.new ≡ sums_of weights.now (length out.old) rows.now }
{
    let n = out.len();
    let mut low = [0u64; WIDEST];
    let mut high = [0u64; WIDEST];
    add_rows(weights, rows, &mut low[..n], &mut high[..n]);
    reduce_sums(&low[..n], &high[..n], out);
}
