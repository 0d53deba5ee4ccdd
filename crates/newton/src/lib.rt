// The coefficients of Newton's form over consecutive points, by differences and the table of inverse factorials.
#![tactic(auto)]

ghost use Rattle.std.specs.Prelude.{◌≡◌, ◌<◌, ◌≤◌, length};
ghost use Rattle.algebra.specs.Numbers.{Elements};
ghost use Rattle.algebra.specs.Table.{table_size};
ghost use Rattle.algebra.specs.Differences.{neighbours};
ghost use Rattle.algebra.specs.Forward.{newton_n};
ghost use Rattle.lists.specs.Fill.{Filled};
ghost use Rattle.lists.specs.Tabulate.{tabulate};

use field::{Element, difference, inverse_factorials, multiply};

// The first m entries become the differences of the entry after each and the entry itself.
fn take_differences(s: &mut [u32], m: usize)
    requires { (m < length s.old) × Elements s.old }
    ensures { Filled (neighbours s.old) s.new 0 m × Elements s.new }
{
    for i in 0..m {
        s[i] = difference(s[i + 1], s[i]);
    }
}

// The coefficients of Newton's form through the values at consecutive points: coefficient k is the difference of order k at the first point, over k factorial.
// The differences take the place of the values.
pub fn newton_from(values: &mut [u32], out: &mut [u32])
    requires { Elements values.old × (length values.old ≤ table_size) × (length out.old ≡ length values.old) }
    ensures { out.new ≡ tabulate (length values.old) (newton_n values.old) }
{
    let table = inverse_factorials();
    let n = values.len();
    for k in 0..n {
        out[k] = multiply(Element(values[0]), Element(table[k])).0;
        take_differences(values, n - k - 1);
    }
}
