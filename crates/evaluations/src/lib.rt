// The table of leaf values: the values of rows and masks at N, N + 1, .., and from these the values at the leaves.
#![tactic(auto)]

ghost use Rattle.std.specs.Prelude.{◌≡◌, ℕ, ◌+◌, ◌*◌, ◌/◌, ◌<◌, ◌≤◌, length};
ghost use Rattle.lists.specs.Pieces.{pieces, piece};
ghost use Rattle.algebra.specs.Prime.{q};
ghost use Rattle.algebra.specs.Numbers.{Elements, values_at_n};
ghost use Rattle.stepping.specs.Lanes.{Small, KeptLanes};
ghost use Rattle.extrapolation.specs.Written.{KeptColumns};
ghost use Rattle.extrapolation.specs.Extrapolated.{Columns};
ghost use Rattle.scheme.specs.Sizes.{SizesInOrder, leaves, rows, columns, width, record_values, most_width};
ghost use Rattle.scheme.specs.Layers.{extended};
ghost use Rattle.lent.specs.Witnessed.{witnessed, LaysOut, Extends};
ghost use Rattle.scheme.specs.Commit.{table_of};
ghost use Rattle.commitment.specs.Shape.{sizes_in};
ghost use Rattle.lent.specs.Rows.{strided};
ghost use Rattle.evaluations.specs.Values.{strided_difference, Gathered, EntriesGathered, Lane, RowLanes, MaskLanes, row_polynomial};
ghost use Rattle.evaluations.specs.Clauses.{Room, Evaluable};

use commitment::{
    Shape, blind_count, coefficient_count, column_count, leaf_count, record_values, row_count,
    row_width,
};
use extrapolation::extrapolate;
use field::{Element, point, powers, subtract};
use lent::Witness;
use sums::dots;

// The widest row, and up to which width rows take small arrays.
const WIDEST: usize = 320;

const FEW: usize = 40;

// Four lanes of such rows.
const WIDEST_LANES: usize = 4 * WIDEST;

const FEW_LANES: usize = 4 * FEW;

// ---- values at N, N + 1, .., four lanes side by side: place 4t + j is lane j at the point N + t

// Every step-th element from the first on, as `count` values of lane j from place `to` on.
fn gather_lane(
    elements: &[u32],
    first: usize,
    step: usize,
    count: usize,
    to: usize,
    j: usize,
    values: &mut [u32],
)
    requires { (j < 4) × (first + step * count < length elements.now + step) × (4 * (to + count) ≤ length values.old) }
    ensures { KeptLanes values.old j values.new × Gathered (strided elements.now first step) count to j values.old values.new }
{
    for i in 0..count {
        values[4 * (to + i) + j] = elements[first + step * i];
    }
}

// Such elements, each lowered by a blind: these stand `apart` from the one at `start` on.
fn gather_lowered(
    elements: &[u32],
    first: usize,
    step: usize,
    blinds: &[u32],
    start: usize,
    apart: usize,
    count: usize,
    to: usize,
    j: usize,
    values: &mut [u32],
)
    requires { (j < 4) × (first + step * count < length elements.now + step) × (start + apart * count < length blinds.now + apart) × Elements blinds.now × (4 * (to + count) ≤ length values.old) }
    ensures { KeptLanes values.old j values.new × Gathered (strided_difference elements.now first step blinds.now start apart) count to j values.old values.new }
{
    for i in 0..count {
        let a = Element(elements[first + step * i]);
        let b = Element(blinds[start + apart * i]);
        values[4 * (to + i) + j] = subtract(a, b).0;
    }
}

// ---- the columns of polynomial i

// A row of coefficients, μ apart: in the first β rows all but column 0 are lowered by the blinds of the column before.
fn gather_coefficients(
    s: Shape,
    witness: &Witness<'_>,
    i: usize,
    row: usize,
    j: usize,
    values: &mut [u32],
)
    requires { LaysOut (sizes_in s) witness.now × (i < s.w) × (row < s.mu) × (j < 4) × (4 * columns (sizes_in s) ≤ length values.old) }
    ensures { EntriesGathered (sizes_in s) (witnessed witness.now) i row j values.old values.new }
{
    let mu = s.mu as usize;
    let nu = s.nu as usize;
    let beta = s.beta as usize;
    let first = coefficient_count(s) * i + row;
    let to = nu * i;
    if row < beta {
        let start = blind_count(s) * i + row;
        gather_lane(witness.coefficients, first, mu, 1, to, j, values);
        gather_lowered(
            witness.coefficients,
            first + mu,
            mu,
            witness.blinds,
            start,
            beta,
            nu - 1,
            to + 1,
            j,
            values,
        );
    } else {
        gather_lane(witness.coefficients, first, mu, nu, to, j, values);
    }
}

// Blinding row b: the blinds, β apart, and in the last column top coefficient b.
fn gather_blinds(s: Shape, witness: &Witness<'_>, i: usize, b: usize, j: usize, values: &mut [u32])
    requires { LaysOut (sizes_in s) witness.now × (i < s.w) × (b < s.beta) × (j < 4) × (4 * columns (sizes_in s) ≤ length values.old) }
    ensures { EntriesGathered (sizes_in s) (witnessed witness.now) i (s.mu + b) j values.old values.new }
{
    let nu = s.nu as usize;
    let beta = s.beta as usize;
    let last = nu - 1;
    let to = nu * i;
    let top = coefficient_count(s) * i + s.mu as usize * nu;
    gather_lane(
        witness.blinds,
        blind_count(s) * i + b,
        beta,
        last,
        to,
        j,
        values,
    );
    gather_lane(witness.coefficients, top + b, 1, 1, to + last, j, values);
}

// Any row: those from μ on are blinding rows.
fn gather_polynomial(
    s: Shape,
    witness: &Witness<'_>,
    i: usize,
    row: usize,
    j: usize,
    values: &mut [u32],
)
    requires { LaysOut (sizes_in s) witness.now × (i < s.w) × (row < rows (sizes_in s)) × (j < 4) × (4 * columns (sizes_in s) ≤ length values.old) }
    ensures { EntriesGathered (sizes_in s) (witnessed witness.now) i row j values.old values.new }
{
    let mu = s.mu as usize;
    if row < mu {
        gather_coefficients(s, witness, i, row, j, values);
    } else {
        gather_blinds(s, witness, i, row - mu, j, values);
    }
}

// ---- whole rows

// A row with its tails, as lane j: polynomial by polynomial, then the tails, which stand one after the other.
fn gather_row(s: Shape, witness: &Witness<'_>, row: usize, j: usize, values: &mut [u32])
    requires { Extends (sizes_in s) witness.now × (row < rows (sizes_in s)) × (j < 4) × (4 * width (sizes_in s) ≤ length values.old) }
    ensures { KeptLanes values.old j values.new × Lane (extended (sizes_in s) (witnessed witness.now) row) (width (sizes_in s)) j values.new }
{
    let columns = column_count(s);
    let l = s.l as usize;
    let w = s.w as usize;
    for i in 0..w {
        gather_polynomial(s, witness, i, row, j, values);
    }
    gather_lane(witness.tails, row * l, 1, l, columns, j, values);
}

// The rows from lo on, a lane each.
fn gather_rows(s: Shape, witness: &Witness<'_>, lo: usize, lanes: usize, values: &mut [u32])
    requires { Extends (sizes_in s) witness.now × (lo + lanes ≤ rows (sizes_in s)) × (lanes ≤ 4) × (4 * width (sizes_in s) ≤ length values.old) }
    ensures { RowLanes (sizes_in s) (witnessed witness.now) lo lanes values.new }
{
    for j in 0..lanes {
        gather_row(s, witness, lo + j, j, values);
    }
}

// The values at x of the masks, whose coefficients stand one after the other. `weights` is room for the powers of x.
fn mask_values(x: Element, masks: &[u32], weights: &mut [u32], out: &mut [u32])
    requires { (length weights.old ≤ most_width) × (length weights.old * length out.old ≤ length masks.now) }
    ensures { out.new ≡ values_at_n (pieces (length weights.old) (length out.old) masks.now) x.0 }
{
    powers(x, weights);
    dots(weights, masks, out);
}

// The values of the masks at the points first, first + 1, .., a lane each.
fn gather_masks(first: Element, masks: &[u32], eta: usize, weights: &mut [u32], values: &mut [u32])
    requires { (first.0 + length weights.old ≤ q) × (length weights.old ≤ most_width) × (length weights.old * eta ≤ length masks.now) × (eta ≤ 4) × (4 * length weights.old ≤ length values.old) }
    ensures { MaskLanes first.0 masks.now (length weights.old) eta (length weights.old) values.new }
{
    let width = weights.len();
    for t in 0..width {
        let start = 4 * t;
        let end = start + eta;
        mask_values(point(first, t), masks, weights, &mut values[start..end]);
    }
}

// ---- the table

// The columns of the rows, four at a time.
fn fill_rows(
    s: Shape,
    witness: &Witness<'_>,
    values: &mut [u32],
    lines: &mut [u64],
    table: &mut [u32],
)
    requires { Extends (sizes_in s) witness.now × Room (width (sizes_in s)) values.old lines.old × (length table.old ≡ leaves (sizes_in s) * record_values (sizes_in s)) }
    ensures { Small lines.new × Columns (row_polynomial (sizes_in s) (witnessed witness.now)) (rows (sizes_in s)) (leaves (sizes_in s)) 0 (record_values (sizes_in s)) table.new }
{
    let n = leaf_count(s.h);
    let width = row_width(s);
    let stride = record_values(s);
    let rows = row_count(s);
    for lo in (0..rows).step_by(4) {
        let lanes = (rows - lo).min(4);
        gather_rows(s, witness, lo, lanes, values);
        extrapolate(values, width, lanes, n, lines, lo, stride, table);
    }
}

// The columns of the masks, after those of the rows.
fn fill_masks(
    s: Shape,
    masks: &[u32],
    weights: &mut [u32],
    values: &mut [u32],
    lines: &mut [u64],
    table: &mut [u32],
)
    requires { SizesInOrder (sizes_in s) × (length masks.now ≡ s.eta * width (sizes_in s)) × (width (sizes_in s) ≤ length weights.old) × Room (width (sizes_in s)) values.old lines.old × (length table.old ≡ leaves (sizes_in s) * record_values (sizes_in s)) }
    ensures { KeptColumns (record_values (sizes_in s)) (rows (sizes_in s)) s.eta table.old table.new × Columns (λ (k : ℕ). piece (width (sizes_in s)) k masks.now) s.eta (leaves (sizes_in s)) (rows (sizes_in s)) (record_values (sizes_in s)) table.new }
{
    let n = leaf_count(s.h);
    let width = row_width(s);
    let stride = record_values(s);
    let rows = row_count(s);
    let eta = s.eta as usize;
    gather_masks(Element(n as u32), masks, eta, &mut weights[..width], values);
    extrapolate(values, width, eta, n, lines, rows, stride, table);
}

// The columns of the rows, then those of the masks, in room for rows of so many points: for the powers of a point, and by lanes for values and for their differences.
fn fill_columns<const POINTS: usize, const LANES: usize>(
    s: Shape,
    witness: &Witness<'_>,
    table: &mut [u32],
)
    requires { Evaluable (sizes_in s) witness.now.coefficients.now witness.now.tails.now witness.now.blinds.now witness.now.masks.now table.old × (width (sizes_in s) ≤ POINTS) × (20 * ((width (sizes_in s) + 4) / 5) ≤ LANES) × (POINTS ≤ most_width) × (LANES ≤ 4 * most_width) }
    ensures { table.new ≡ table_of (sizes_in s) (witnessed witness.now) }
{
    let mut weights = [0u32; POINTS];
    let mut values = [0u32; LANES];
    let mut lines = [0u64; LANES];
    fill_rows(s, witness, &mut values, &mut lines, table);
    fill_masks(
        s,
        witness.masks,
        &mut weights,
        &mut values,
        &mut lines,
        table,
    );
}

// The table: all leaves' values. Narrow rows take small arrays, since arrays are cleared.
pub fn fill_table(s: Shape, witness: &Witness<'_>, table: &mut [u32])
    requires { Evaluable (sizes_in s) witness.now.coefficients.now witness.now.tails.now witness.now.blinds.now witness.now.masks.now table.old }
    ensures { table.new ≡ table_of (sizes_in s) (witnessed witness.now) }
{
    if row_width(s) <= FEW {
        fill_columns::<FEW, FEW_LANES>(s, witness, table);
    } else {
        fill_columns::<WIDEST, WIDEST_LANES>(s, witness, table);
    }
}
