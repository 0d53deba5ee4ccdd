// Polynomials times (X - x)(X - y)(X - z)(X - w), in place: four sweeps of Newton's form as one.
#![tactic(auto)]

ghost use Rattle.std.specs.Prelude.{◌≡◌, ◌≤◌, length};
ghost use Rattle.algebra.specs.Prime.{q};
ghost use Rattle.algebra.specs.Divided.{sub_n};
ghost use Rattle.algebra.specs.Quartic.{five_n, Factored, quartic_at, quartic_n};
ghost use Rattle.lists.specs.Tabulate.{filled};

use field::{Element, folded, multiply, multiply_add, product, reduce, subtract};

// X^4 + e1 X^3 + e2 X^2 + e3 X + e4.
#[derive(Clone, Copy)]
pub struct Quartic {
    e1: u32,
    e2: u32,
    e3: u32,
    e4: u32,
}

// m - x - y.
fn less_both(m: Element, x: Element, y: Element) -> Element
    requires { (x.0 ≤ q) × (y.0 ≤ q) }
    ensures { result.0 ≡ sub_n (sub_n m.0 x.0) y.0 }
{
    subtract(subtract(m, x), y)
}

// The product of X - x, X - y, X - z, X - w, from two quadratics: (X^2 + a X + b)(X^2 + c X + d).
pub fn quartic_of(x: Element, y: Element, z: Element, w: Element) -> Quartic
    requires { (x.0 ≤ q) × (y.0 ≤ q) × (z.0 ≤ q) × (w.0 ≤ q) }
    ensures { Factored x.0 y.0 z.0 w.0 result.e1 result.e2 result.e3 result.e4 }
{
    let a = less_both(Element(0), x, y);
    let b = multiply(x, y);
    let c = less_both(Element(0), z, w);
    let d = multiply(z, w);
    let e1 = less_both(a, z, w);
    let e2 = multiply_add(multiply_add(b, z, w), a, c);
    let e3 = multiply_add(multiply(a, d), b, c);
    let e4 = multiply(b, d);
    Quartic {
        e1: e1.0,
        e2: e2.0,
        e3: e3.0,
        e4: e4.0,
    }
}

// a + e1 b + e2 c + e3 d + e4 e: the products are folded, so that the sum fits, and the sum is reduced once.
fn five_terms(f: Quartic, a: u32, b: u32, c: u32, d: u32, e: u32) -> u32
    ensures { result ≡ five_n f.e1 f.e2 f.e3 f.e4 a b c d e }
{
    let sum = u64::from(a)
        + folded(product(f.e1, b))
        + folded(product(f.e2, c))
        + folded(product(f.e3, d))
        + folded(product(f.e4, e));
    reduce(sum)
}

// The first four places of `sweep_four`.
fn first_four(f: Quartic, s: &mut [u32])
    requires { 8 ≤ length s.old }
    ensures { s.new ≡ filled (quartic_at f.e1 f.e2 f.e3 f.e4 s.old) 4 s.old }
{
    let a = s[4];
    let b = s[5];
    let c = s[6];
    let d = s[7];
    s[0] = five_terms(f, s[0], 0, 0, 0, a);
    s[1] = five_terms(f, s[1], 0, 0, a, b);
    s[2] = five_terms(f, s[2], 0, a, b, c);
    s[3] = five_terms(f, s[3], a, b, c, d);
}

// The first four coefficients, plus f times the polynomial of the others.
pub fn sweep_four(f: Quartic, s: &mut [u32])
    requires { 8 ≤ length s.old }
    ensures { s.new ≡ quartic_n f.e1 f.e2 f.e3 f.e4 s.old }
{
    first_four(f, s);
    let last = s.len() - 4;
    for i in 4..last {
        s[i] = five_terms(f, s[i], s[i + 1], s[i + 2], s[i + 3], s[i + 4]);
    }
    s[last] = five_terms(f, s[last], s[last + 1], s[last + 2], s[last + 3], 0);
    s[last + 1] = five_terms(f, s[last + 1], s[last + 2], s[last + 3], 0, 0);
    s[last + 2] = five_terms(f, s[last + 2], s[last + 3], 0, 0, 0);
}
