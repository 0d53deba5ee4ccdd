// The coefficients of Newton's form over any points, which are divided differences; and whether the points differ.
#![tactic(auto)]

ghost use Rattle.std.specs.Prelude.{◌≡◌, true, false, map, ◌+◌, ◌-◌, ◌*◌, ◌%◌, ◌<◌, ◌≤◌, length, take};
ghost use Rattle.lists.specs.Choice.{pick};
ghost use Rattle.lists.specs.Fill.{Filled};
ghost use Rattle.lists.specs.Tabulate.{tabulate};
ghost use Rattle.lists.specs.Differ.{differ};
ghost use Rattle.algebra.specs.Prime.{q};
ghost use Rattle.algebra.specs.Numbers.{Elements, interp_n};
ghost use Rattle.algebra.specs.Inverse.{inv_n};
ghost use Rattle.algebra.specs.Inverses.{before_n, invertible};
ghost use Rattle.algebra.specs.Table.{table_size};
ghost use Rattle.algebra.specs.Fold.{fold_n};
ghost use Rattle.algebra.specs.Divided.{nform_n};
ghost use Rattle.algebra.specs.Rests.{product_n, block_n, block_size, rest_turn, product_turn, rest_limit, Held, Weights};

use field::{Element, Q, difference, folded, inverse, multiply, product};

// ---- many inverses by one

// In `room` the product of the entries before each place; returns the product of all.
fn products_before(s: &[u32], room: &mut [u32]) -> Element
    requires { length room.old ≡ length s.now }
    ensures { (result.0 ≡ before_n s.now (length s.now)) × (room.new ≡ tabulate (length s.now) (before_n s.now)) }
{
    let mut p = Element(1);
    for (i, x) in s.iter().enumerate() {
        room[i] = p.0;
        p = multiply(p, Element(*x));
    }
    p
}

// Each entry's inverse, from the inverse of the product of all and the products before each place.
fn inverses_back(all: Element, before: &[u32], s: &mut [u32])
    requires { (before.now ≡ tabulate (length s.old) (before_n s.old)) × ((all.0 * before_n s.old (length s.old)) % q ≡ 1) }
    ensures { s.new ≡ map inv_n s.old }
{
    let mut a = all;
    for i in (0..s.len()).rev() {
        let own = Element(s[i]);
        let v = multiply(a, Element(before[i]));
        s[i] = v.0;
        a = multiply(a, own);
    }
}

// Inverts all entries where none of them is 0; returns whether that is so. `room` is scratch.
fn invert(s: &mut [u32], room: &mut [u32]) -> bool
    requires { Elements s.old × (length room.old ≡ length s.old) }
    ensures { (result ≡ invertible s.old) × (s.new ≡ pick result (map inv_n s.old) s.old) }
{
    let p = products_before(s, room);
    if p.0 == 0 {
        return false;
    }
    let a = inverse(p);
    inverses_back(a, room, s);
    true
}

// ---- the weights of a block of points

// The product of the differences of point k to all points before it, where p is that to the points before `from`.
fn product_on(points: &[u32], from: usize, k: usize, p: Element) -> Element
    requires { Elements points.now × (from ≤ k) × (k < length points.now) × (p.0 ≡ product_n points.now from k) }
    ensures { result.0 ≡ product_n points.now k k }
{
    let mut value = p;
    for x in &points[from..k] {
        let d = difference(points[k], *x);
        value = multiply(value, Element(d));
    }
    value
}

// The products of the points from `from` on, as many as there is room for: each point's differences to all points before it.
// In `products` the same for the points before `from` alone.
fn block_products(points: &[u32], from: usize, products: &[u32], out: &mut [u32])
    requires { Elements points.now × (from + length out.old ≤ length points.now) × (length products.now ≡ length points.now) × Filled (product_n points.now from) products.now from (length points.now) }
    ensures { out.new ≡ block_n points.now from (length out.old) }
{
    for (i, place) in out.iter_mut().enumerate() {
        let k = from + i;
        *place = product_on(points, from, k, Element(products[k])).0;
    }
}

// How many weights are made at once.
const BLOCK: usize = 8;

// Makes the weights of the points from `from` on, as many as there is room for; returns whether none of their products is 0.
fn block_weights(points: &[u32], from: usize, products: &[u32], out: &mut [u32]) -> bool
    requires { Elements points.now × (length out.old ≤ block_size) × (from + length out.old ≤ length points.now) × (length products.now ≡ length points.now) × Filled (product_n points.now from) products.now from (length points.now) }
    ensures { (result ≡ invertible (block_n points.now from (length out.old))) × (out.new ≡ pick result (map inv_n (block_n points.now from (length out.old))) (block_n points.now from (length out.old))) }
{
    block_products(points, from, products, out);
    let n = out.len();
    let mut room = [0u32; BLOCK];
    invert(out, &mut room[..n])
}

// Sees to it that point k has its weight: the points below `end` have theirs, and where k is not among them, the next block gets them.
// Returns the end of the points that have weights, and k where two points are equal.
fn next_weights(
    points: &[u32],
    k: usize,
    end: usize,
    products: &[u32],
    weights: &mut [u32],
) -> usize
    requires { Elements points.now × (k < length points.now) × (k ≤ end) × (end ≤ length points.now) × (length products.now ≡ length points.now) × (length weights.old ≡ length points.now) × Filled (product_n points.now k) products.now k (length points.now) × Weights points.now weights.old k end }
    ensures { (k ≤ result) × (result ≤ length points.now) × Weights points.now weights.new k result × (take k weights.new ≡ take k weights.old) × (result ≡ k → differ points.now ≡ false) }
{
    if k < end {
        return end;
    }
    let to = points.len().min(k + BLOCK);
    if block_weights(points, k, products, &mut weights[k..to]) {
        to
    } else {
        k
    }
}

// ---- the coefficients, one after the other

// The values, as words of 64 bits.
fn widen(values: &[u32], rests: &mut [u64])
    requires { length rests.old ≡ length values.now }
    ensures { rests.new ≡ values.now }
{
    for (i, value) in values.iter().enumerate() {
        rests[i] = u64::from(*value);
    }
}

// A rest less a coefficient times the product of differences, not reduced; `minus` is q less the coefficient.
fn rest_after(rest: u64, minus: u32, p: Element) -> u64
    requires { rest ≤ rest_limit }
    ensures { result ≡ rest + fold_n (minus * p.0) }
{
    rest + folded(product(minus, p.0))
}

// Takes the coefficient of point k off the rests behind it, and the point into the products.
// Two places at a time, and both are read before anything is written, so that no read waits for a store.
fn take_off(points: &[u32], k: usize, minus: u32, rests: &mut [u64], products: &mut [u32])
    requires { Elements points.now × (k < length points.now) × (length rests.old ≡ length points.now) × (length products.old ≡ length points.now) × Held rests.old (k + 1) (length points.now) }
    ensures { Filled (rest_turn minus rests.old products.old) rests.new (k + 1) (length points.now) × Filled (product_turn points.now k products.old) products.new (k + 1) (length points.now) }
{
    let n = points.len();
    let behind = n - 1 - k;
    for pair in 0..behind / 2 {
        let i = k + 1 + 2 * pair;
        let p = Element(products[i]);
        let t = Element(products[i + 1]);
        let d = difference(points[i], points[k]);
        let e = difference(points[i + 1], points[k]);
        let a = rest_after(rests[i], minus, p);
        let b = rest_after(rests[i + 1], minus, t);
        let u = multiply(p, Element(d));
        let v = multiply(t, Element(e));
        rests[i] = a;
        rests[i + 1] = b;
        products[i] = u.0;
        products[i + 1] = v.0;
    }
    // An odd number of places: the last one by itself.
    if behind % 2 == 1 {
        let last = n - 1;
        let p = Element(products[last]);
        let d = difference(points[last], points[k]);
        rests[last] = rest_after(rests[last], minus, p);
        products[last] = multiply(p, Element(d)).0;
    }
}

// q less an element.
fn opposite(c: Element) -> u32
    requires { c.0 < q }
    ensures { result ≡ q - c.0 }
{
    Q - c.0
}

// A rest, reduced.
fn reduced(rest: u64) -> Element
    ensures { result.0 ≡ rest % q }
{
    Element((rest % u64::from(Q)) as u32)
}

// Fills `out` with the coefficients of Newton's form; returns whether the points differ. `rests` and `products`, which hold 1, are scratch.
// Before turn k there stand from place k on, modulo q, what is left of each value beside the coefficients found; the product of its point's differences to the first k points;
// and in `out`, as far as they are made, the weights.
pub fn divide(
    points: &[u32],
    values: &[u32],
    rests: &mut [u64],
    products: &mut [u32],
    out: &mut [u32],
) -> bool
    requires { Elements points.now × Elements values.now × (length values.now ≡ length points.now) × (length rests.old ≡ length points.now) × (length products.old ≡ length points.now) × (length out.old ≡ length points.now) × (length points.now ≤ table_size) × Filled (λ _. 1) products.old 0 (length points.now) }
    ensures { (result ≡ differ points.now) × (result ≡ true → nform_n points.now out.new ≡ interp_n points.now values.now) }
{
    widen(values, rests);
    let mut end = 0;
    for k in 0..points.len() {
        end = next_weights(points, k, end, products, out);
        if end == k {
            return false;
        }
        let r = reduced(rests[k]);
        let c = multiply(r, Element(out[k]));
        out[k] = c.0;
        let minus = opposite(c);
        take_off(points, k, minus, rests, products);
    }
    true
}
