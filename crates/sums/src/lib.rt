// Dot products of elements, reduced once: of one row, and of rows that stand one after the other.
#![tactic(auto)]

ghost use Rattle.std.specs.Prelude.{◌≡◌, ◌+◌, ◌*◌, ◌/◌, ◌%◌, ◌<◌, ◌≤◌, length};
ghost use Rattle.algebra.specs.Prime.{q};
ghost use Rattle.algebra.specs.Dot.{split, longest, word_end, spare, dot_n, dots_of};
ghost use Rattle.algebra.specs.Wrapped.{low_of};

use field::{Element, SPLIT, WIDE_Q, product};

// A sum of products: all of it modulo 2^64, and the sum of the products' upper parts.
#[derive(Clone, Copy)]
struct Sum {
    all: u64,
    upper: u64,
}

fn add_product(s: Sum, a: u32, b: u32) -> Sum
    requires { s.upper < spare }
    ensures { (result.all ≡ (s.all + a * b) % word_end) × (result.upper ≡ s.upper + a * b / split) × (a * b < word_end) }
{
    let p = product(a, b);
    let upper = s.upper + p / SPLIT;
    Sum {
        all: s.all.wrapping_add(p),
        upper,
    }
}

// The two together, reduced: what they leave is the sum of the lower parts.
fn reduce_parts(s: Sum) -> Element
    requires { (low_of s.all s.upper < spare) × (s.upper < spare) }
    ensures { result.0 ≡ (low_of s.all s.upper + 10 * s.upper) % q }
{
    let low = s.all.wrapping_sub(s.upper << 33);
    Element(((low + 10 * s.upper) % WIDE_Q) as u32)
}

// The sum of the products of the entries, reduced once at the end.
pub fn dot(a: &[u32], b: &[u32]) -> Element
    requires { (length b.now ≡ length a.now) × (length a.now ≤ longest) }
    ensures { result.0 ≡ dot_n a.now b.now }
{
    let mut s = Sum { all: 0, upper: 0 };
    for (&x, &y) in a.iter().zip(b) {
        s = add_product(s, x, y);
    }
    reduce_parts(s)
}

// Four dot products with the same weights, which are read once.
#[derive(Clone, Copy)]
struct Four {
    a: Element,
    b: Element,
    c: Element,
    d: Element,
}

fn four_dots(weights: &[u32], a: &[u32], b: &[u32], c: &[u32], d: &[u32]) -> Four
    requires { (length weights.now ≤ longest) × (length a.now ≡ length weights.now) × (length b.now ≡ length weights.now) × (length c.now ≡ length weights.now) × (length d.now ≡ length weights.now) }
    ensures { (result.a.0 ≡ dot_n weights.now a.now) × (result.b.0 ≡ dot_n weights.now b.now) × (result.c.0 ≡ dot_n weights.now c.now) × (result.d.0 ≡ dot_n weights.now d.now) }
{
    let mut s = Sum { all: 0, upper: 0 };
    let mut t = Sum { all: 0, upper: 0 };
    let mut u = Sum { all: 0, upper: 0 };
    let mut v = Sum { all: 0, upper: 0 };
    for (i, &w) in weights.iter().enumerate() {
        s = add_product(s, w, a[i]);
        t = add_product(t, w, b[i]);
        u = add_product(u, w, c[i]);
        v = add_product(v, w, d[i]);
    }
    Four {
        a: reduce_parts(s),
        b: reduce_parts(t),
        c: reduce_parts(u),
        d: reduce_parts(v),
    }
}

// The dot products of the weights with rows that stand one after the other, four at a time.
pub fn dots(weights: &[u32], rows: &[u32], out: &mut [u32])
    requires { (length weights.now * length out.old ≤ length rows.now) × (length weights.now ≤ longest) }
    ensures { out.new ≡ dots_of weights.now (length out.old) rows.now }
{
    let width = weights.len();
    let n = out.len();
    for group in 0..n / 4 {
        let j = 4 * group;
        let start = j * width;
        let second = start + width;
        let third = second + width;
        let fourth = third + width;
        let end = fourth + width;
        let v = four_dots(
            weights,
            &rows[start..second],
            &rows[second..third],
            &rows[third..fourth],
            &rows[fourth..end],
        );
        out[j] = v.a.0;
        out[j + 1] = v.b.0;
        out[j + 2] = v.c.0;
        out[j + 3] = v.d.0;
    }
    for j in n - n % 4..n {
        let from = j * width;
        out[j] = dot(weights, &rows[from..from + width]).0;
    }
}
