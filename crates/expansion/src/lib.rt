// Newton's form expanded in place: over any points, four at a time, and over consecutive ones, two at a time.
#![tactic(auto)]

ghost use Rattle.std.specs.Prelude.{◌≡◌, ◌+◌, ◌*◌, ◌<◌, ◌≤◌, length, take, drop};
ghost use Rattle.algebra.specs.Prime.{q};
ghost use Rattle.algebra.specs.Numbers.{Elements};
ghost use Rattle.algebra.specs.Divided.{sweep_n, nform_n};
ghost use Rattle.algebra.specs.Pairs.{multiple, points_end, three_n, twice_n};
ghost use Rattle.algebra.specs.Quartic.{onto_n};
ghost use Rattle.lists.specs.Range.{up_from};

use field::{Element, Q, point, reduce, subtract_product};
use quartic::{quartic_of, sweep_four};

// 32769 q, which is above 2^15 times any word.
const MULTIPLE: u64 = 32769 * Q as u64;

// ---- any points

// The first coefficient, plus X - x times the polynomial of the others.
fn sweep(s: &mut [u32], x: Element)
    requires { x.0 < q }
    ensures { s.new ≡ sweep_n x.0 s.old }
{
    for i in 1..s.len() {
        let v = subtract_product(Element(s[i - 1]), x, Element(s[i]));
        s[i - 1] = v.0;
    }
}

// Newton's form expanded in place, one point at a time.
fn expand_singly(points: &[u32], s: &mut [u32])
    requires { Elements points.now × (length s.old ≡ length points.now) }
    ensures { s.new ≡ nform_n points.now s.old }
{
    for k in (0..points.len()).rev() {
        sweep(&mut s[k..], Element(points[k]));
    }
}

// Four points, where what stands behind their coefficients is expanded.
fn expand_four(points: &[u32], s: &mut [u32])
    requires { Elements points.now × (length points.now ≡ 4) × (8 ≤ length s.old) }
    ensures { s.new ≡ onto_n points.now (take 4 s.old) (drop 4 s.old) }
{
    expand_singly(points, &mut s[0..4]);
    let f = quartic_of(
        Element(points[0]),
        Element(points[1]),
        Element(points[2]),
        Element(points[3]),
    );
    sweep_four(f, s);
}

// Newton's form expanded in place: from the first point on four at a time, as long as at least four coefficients stand behind them.
pub fn expand(points: &[u32], s: &mut [u32])
    requires { Elements points.now × (length s.old ≡ length points.now) }
    ensures { s.new ≡ nform_n points.now s.old }
{
    let blocks = (points.len() / 4).saturating_sub(1);
    let rest = 4 * blocks;
    expand_singly(&points[rest..], &mut s[rest..]);
    for block in (0..blocks).rev() {
        let k = 4 * block;
        expand_four(&points[k..k + 4], &mut s[k..]);
    }
}

// ---- consecutive points

// a - e b + p c, reduced once. The multiple of q, which e b does not exceed, keeps the sum from going below 0.
fn three_terms(a: u32, b: u32, c: u32, e: u32, p: u32) -> u32
    requires { (e ≤ 32768) × (p ≤ 268435456) }
    ensures { (result ≡ three_n a b c e p) × (e * b ≤ multiple) }
{
    let product = p as u64 * c as u64;
    let taken = e as u64 * b as u64;
    reduce(a as u64 + product + (MULTIPLE - taken))
}

// Two sweeps as one, first of y, then of x. The points are at most 2^14, so that one reduction serves both.
fn sweep_twice(s: &mut [u32], x: Element, y: Element)
    requires { (1 < length s.old) × (x.0 ≤ points_end) × (y.0 ≤ points_end) }
    ensures { s.new ≡ twice_n x.0 y.0 s.old }
{
    let last = s.len() - 2;
    for i in 0..last {
        s[i] = three_terms(s[i], s[i + 1], s[i + 2], x.0 + y.0, x.0 * y.0);
    }
    s[last] = three_terms(s[last], s[last + 1], 0, x.0 + y.0, x.0 * y.0);
}

// Newton's form over the points first, first + 1, .. expanded in place, two points at a time.
pub fn expand_from(first: Element, s: &mut [u32])
    requires { (0 < length s.old) × (first.0 + length s.old ≤ points_end) }
    ensures { s.new ≡ nform_n (up_from first.0 (length s.old)) s.old }
{
    let pairs = (s.len() - 1) / 2;
    let odd = (s.len() - 1) % 2;
    for pair in (0..pairs).rev() {
        let k = 2 * pair + odd;
        let x = point(first, k);
        let y = point(first, k + 1);
        s[k] = three_terms(s[k], s[k + 1], s[k + 2], x.0, x.0 * y.0);
        sweep_twice(&mut s[k + 1..], x, y);
    }
    if odd == 1 {
        sweep(s, first);
    }
}
