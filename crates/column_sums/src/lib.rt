// The columns of the matrix, summed over its rows with the powers of a point as weights, where there are blinding rows.
#![tactic(auto)]

ghost use Rattle.std.specs.Prelude.{◌≡◌, ◌<◌, length};
ghost use Rattle.algebra.specs.Dot.{dot_n};
ghost use Rattle.scheme.specs.Matrix.{blinding_rows};
ghost use Rattle.scheme.specs.Sizes.{rows, columns};
ghost use Rattle.commitment.specs.Shape.{sizes_in};
ghost use Rattle.lent.specs.Witnessed.{LaysOut};
ghost use Rattle.column_sums.specs.Sums.{Powers, polynomial_sums, column_sums};

use commitment::{Shape, coefficient_count};
use field::{Element, multiply_add, subtract};
use lent::Witness;
use sums::{dot, dots};

// The sum over the blinding rows of column t of polynomial i: of its blinds, or in the last column of the top coefficients.
fn blinding_sum(s: Shape, weights: &[u32], witness: &Witness<'_>, i: usize, t: usize) -> Element
    requires { LaysOut (sizes_in s) witness.now × (length weights.now ≡ s.beta) × (i < s.w) × (t < s.nu) }
    ensures { result.0 ≡ dot_n weights.now (blinding_rows (sizes_in s) witness.now.coefficients.now witness.now.blinds.now i t) }
{
    let beta = s.beta as usize;
    let last = s.nu as usize - 1;
    if t < last {
        let from = beta * (i * last + t);
        let to = from + beta;
        return dot(weights, &witness.blinds[from..to]);
    }
    let from = coefficient_count(s) * i + s.mu as usize * s.nu as usize;
    let to = from + beta;
    dot(weights, &witness.coefficients[from..to])
}

// The sums over the rows of each column of polynomial i, where there are blinding rows. What stands in them lowers the first rows of the next column, so their sum is
// subtracted there, and here it counts z^mu times.
fn combine_polynomial(s: Shape, weights: &[u32], witness: &Witness<'_>, i: usize, out: &mut [u32])
    requires { LaysOut (sizes_in s) witness.now × Powers (rows (sizes_in s)) weights.now × (0 < s.beta) × (i < s.w) × (length out.old ≡ s.nu) }
    ensures { out.new ≡ polynomial_sums (sizes_in s) witness.now.coefficients.now witness.now.blinds.now weights.now i }
{
    let mu = s.mu as usize;
    let nu = s.nu as usize;
    let beta = s.beta as usize;
    let from = coefficient_count(s) * i;
    dots(&weights[..mu], &witness.coefficients[from..], out);
    let scale = Element(weights[mu]);
    let mut before = Element(0);
    for t in 0..nu {
        let sum = blinding_sum(s, &weights[..beta], witness, i, t);
        let lowered = subtract(Element(out[t]), before);
        out[t] = multiply_add(lowered, scale, sum).0;
        before = sum;
    }
}

// The sums over the rows of each column, polynomial by polynomial.
pub fn sum_columns(s: Shape, weights: &[u32], witness: &Witness<'_>, out: &mut [u32])
    requires { LaysOut (sizes_in s) witness.now × Powers (rows (sizes_in s)) weights.now × (0 < s.beta) × (length out.old ≡ columns (sizes_in s)) }
    ensures { out.new ≡ column_sums (sizes_in s) witness.now.coefficients.now witness.now.blinds.now weights.now }
{
    let w = s.w as usize;
    let nu = s.nu as usize;
    for i in 0..w {
        let from = nu * i;
        let to = from + nu;
        combine_polynomial(s, weights, witness, i, &mut out[from..to]);
    }
}
