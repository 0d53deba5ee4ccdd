// What the value at x of the polynomial through values at consecutive points takes in the barycentric form: weights, which depend on the number of points alone,
// and the inverses of the points' distances to x, or products of distances in their place.
#![tactic(auto)]

ghost use Rattle.std.specs.Prelude.{◌≡◌, ◌+◌, ◌≤◌, ◌<◌, length};
ghost use Rattle.lists.specs.Fill.{Filled};
ghost use Rattle.lists.specs.Tabulate.{tabulate};
ghost use Rattle.algebra.specs.Prime.{q};
ghost use Rattle.algebra.specs.Inverse.{inv_n};
ghost use Rattle.algebra.specs.Table.{table_size};
ghost use Rattle.algebra.specs.Barycentric.{weight_n, weights_n, weighed_n, rise_n, above_n, cofactors_n};

use field::{Element, Q, multiply, subtract};

// ---- weights

// The weights of consecutive points, by a table of inverse factorials. The sign changes from each point to the next below.
fn weights_from(table: &[u32], out: &mut [u32])
    requires { length out.old ≤ length table.now }
    ensures { out.new ≡ tabulate (length out.old) (weight_n table.now (length out.old)) }
{
    let n = out.len();
    let mut sign = Element(1);
    for c in (0..n).rev() {
        let t = multiply(Element(table[n - 1 - c]), sign);
        out[c] = multiply(Element(table[c]), t).0;
        sign = subtract(Element(0), sign);
    }
}

// The weights of as many consecutive points as there is room for.
pub fn weights(out: &mut [u32])
    requires { length out.old ≤ table_size }
    ensures { out.new ≡ weights_n (length out.old) }
{
    let table = field::inverse_factorials();
    weights_from(&table, out);
}

// Each value times its weight.
pub fn weigh(weights: &[u32], values: &mut [u32])
    requires { length values.old ≡ length weights.now }
    ensures { values.new ≡ weighed_n weights.now values.old }
{
    for (i, value) in values.iter_mut().enumerate() {
        *value = multiply(Element(weights[i]), Element(*value)).0;
    }
}

// ---- distances

// The inverses of 1, 2, .., each at its own place: that of k from that of q % k, which stands before it.
pub fn inverses(out: &mut [u32])
    requires { (2 ≤ length out.old) × (length out.old < q) }
    ensures { Filled inv_n out.new 1 (length out.old) }
{
    let n = out.len();
    out[1] = 1;
    for k in 2..n {
        let r = k as u32;
        let rest = (Q % r) as usize;
        out[k] = multiply(Element(Q - Q / r), Element(out[rest])).0;
    }
}

// Of the distances from `near` on, the product of those below each place and of those above: two chains of products side by side.
fn chains(near: u32, below: &mut [u32], above: &mut [u32])
    requires { (length above.old ≡ length below.old) × (near + length below.old ≤ q) }
    ensures { (below.new ≡ tabulate (length below.old) (rise_n near)) × (above.new ≡ tabulate (length below.old) (above_n near (length below.old))) }
{
    let n = below.len();
    let mut low = Element(1);
    let mut high = Element(1);
    for c in 0..n {
        let t = n - 1 - c;
        below[c] = low.0;
        above[t] = high.0;
        low = multiply(low, Element(near + c as u32));
        high = multiply(high, Element(near + t as u32));
    }
}

// Of the distances from `near` on, the product of those at all other places: the inverses, up to a factor. `room` is scratch.
pub fn cofactors(near: u32, out: &mut [u32], room: &mut [u32])
    requires { (length room.old ≡ length out.old) × (near + length out.old ≤ q) }
    ensures { out.new ≡ cofactors_n near (length out.old) }
{
    chains(near, out, room);
    weigh(room, out);
}
