// Values of polynomials by a table of the first powers of the point.
#![tactic(auto)]

ghost use Rattle.std.specs.Prelude.{◌≡◌, ◌<◌, ◌≤◌, length};
ghost use Rattle.algebra.specs.Numbers.{eval_n};
ghost use Rattle.algebra.specs.Columns.{pow_n};
ghost use Rattle.lists.specs.Tabulate.{tabulate};
ghost use Rattle.algebra.specs.Dot.{longest};

use field::{Element, multiply, multiply_add};
use sums::dot;

// The value at x of the polynomial with these coefficients, by the first powers of x: a dot product for as many coefficients as there are powers, and Horner's rule over these.
pub fn evaluate_by(x: Element, powers: &[u32], coefficients: &[u32]) -> Element
    requires { (powers.now ≡ tabulate (length powers.now) (pow_n x.0)) × (0 < length powers.now) × (length powers.now ≤ longest) }
    ensures { result.0 ≡ eval_n coefficients.now x.0 }
{
    let span = powers.len();
    let step = multiply(x, Element(powers[span - 1]));
    let (whole, rest) = coefficients.split_at(coefficients.len() - coefficients.len() % span);
    let mut value = dot(&powers[..rest.len()], rest);
    for part in whole.rchunks_exact(span) {
        value = multiply_add(dot(powers, part), step, value);
    }
    value
}
