// The field of q = 4294967291 elements: single operations, powers, the table of inverse factorials.
#![tactic(auto)]

ghost use Rattle.std.specs.Prelude.{◌≡◌, ◌+◌, ◌-◌, ◌*◌, ◌%◌, ◌<◌, ◌≤◌, length};
ghost use Rattle.algebra.specs.Prime.{q};
ghost use Rattle.algebra.specs.Numbers.{eval_n};
ghost use Rattle.algebra.specs.Columns.{pow_n};
ghost use Rattle.algebra.specs.Divided.{sub_n};
ghost use Rattle.algebra.specs.Fold.{fold_n, most_folded};
ghost use Rattle.algebra.specs.Inverse.{inv_n};
ghost use Rattle.algebra.specs.Table.{inverse_factorials};
ghost use Rattle.lists.specs.Tabulate.{tabulate};
ghost use Rattle.algebra.specs.Dot.{accumulate_n};

mod table; // table.rt: the inverse factorials

use table::{INVERSE_FACTORIALS, TABLE_SIZE};

// The modulus, and as a number of 64 bits.
pub const Q: u32 = 4294967291;

pub const WIDE_Q: u64 = Q as u64;

// Where sums of products split a product: at 2^33, which is 10 modulo q. (At 2^32 the compiler makes a slow multiply-high of it.)
pub const SPLIT: u64 = 8589934592;

// An element of the field, and a point of it.
#[derive(Clone, Copy)]
pub struct Element(pub u32);

// ---- single operations

pub fn subtract(a: Element, b: Element) -> Element
    requires { b.0 ≤ q }
    ensures { result.0 ≡ (a.0 + (q - b.0)) % q }
{
    Element(((u64::from(a.0) + (WIDE_Q - u64::from(b.0))) % WIDE_Q) as u32)
}

// a - b without a division, so that a loop over it is compiled to vector instructions.
pub fn difference(a: u32, b: u32) -> u32
    requires { (a < q) × (b < q) }
    ensures { result ≡ sub_n a b }
{
    if a < b { a + (Q - b) } else { a - b }
}

pub fn multiply(a: Element, b: Element) -> Element
    ensures { result.0 ≡ (a.0 * b.0) % q }
{
    Element((product(a.0, b.0) % WIDE_Q) as u32)
}

// a b, not reduced.
pub fn product(a: u32, b: u32) -> u64
    ensures { result ≡ a * b }
{
    u64::from(a) * u64::from(b)
}

// Congruent to x, and far below it, without a division: 2^32 is 5 modulo q.
pub fn folded(x: u64) -> u64
    ensures { (result ≡ fold_n x) × (result ≤ most_folded) }
{
    x % 4294967296 + 5 * (x / 4294967296)
}

// y modulo q, for y below 2^61, without a division, so that a loop over it is compiled to vector instructions: 2^32 is 5 modulo q.
pub fn reduce(y: u64) -> u32
    requires { y < 2305843009213693952 }
    ensures { result ≡ y % q }
{
    let low = (y % 4294967296) as u32;
    let high = (y / 4294967296) as u32;
    let h = 5 * high + 5;
    let room = 4294967295 - h;
    if room < low {
        low - room - 1
    } else {
        low + (h - 5)
    }
}

// a + b c, reduced once.
pub fn multiply_add(a: Element, b: Element, c: Element) -> Element
    ensures { result.0 ≡ (a.0 + b.0 * c.0) % q }
{
    Element(((u64::from(a.0) + product(b.0, c.0)) % WIDE_Q) as u32)
}

// a - b c, reduced once.
pub fn subtract_product(a: Element, b: Element, c: Element) -> Element
    requires { b.0 ≤ q }
    ensures { result.0 ≡ (a.0 + (q - b.0 * c.0 % q)) % q }
{
    Element(((u64::from(a.0) + product(Q - b.0, c.0)) % WIDE_Q) as u32)
}

// The inverse, by the remainders q % a, q % (q % a), ..
pub fn inverse(a: Element) -> Element
    requires { (0 < a.0) × (a.0 < q) }
    ensures { result.0 ≡ inv_n a.0 }
{
    let mut r = a.0;
    let mut k = Element(1);
    while 1 < r {
        k = multiply(k, Element(Q - Q / r));
        r = Q % r;
    }
    k
}

// ---- polynomials

// The value at x of the polynomial with these coefficients, lowest first.
pub fn evaluate(coefficients: &[u32], x: Element) -> Element
    ensures { result.0 ≡ eval_n coefficients.now x.0 }
{
    let mut value = Element(0);
    for &coefficient in coefficients.iter().rev() {
        value = multiply_add(Element(coefficient), x, value);
    }
    value
}

// row + c acc, entry by entry: a step of Horner's rule over rows.
pub fn fold(acc: &mut [u32], c: Element, row: &[u32])
    requires { length row.now ≡ length acc.old }
    ensures { acc.new ≡ accumulate_n row.now c.0 acc.old }
{
    for (i, sum) in acc.iter_mut().enumerate() {
        *sum = multiply_add(Element(row[i]), c, Element(*sum)).0;
    }
}

// x^n, where x^0 is 1.
pub fn power(x: Element, n: usize) -> Element
    ensures { result.0 ≡ pow_n x.0 n }
{
    let mut p = Element(1);
    for _ in 0..n {
        p = multiply(x, p);
    }
    p
}

// How many powers are computed one after the other: one for each of the chains of products that then run side by side.
const CHAINS: usize = 8;

// The first powers; returns the one after them.
fn first_powers(x: Element, out: &mut [u32]) -> Element
    ensures { (result.0 ≡ pow_n x.0 (length out.old)) × (out.new ≡ tabulate (length out.old) (pow_n x.0)) }
{
    let mut p = Element(1);
    for place in out.iter_mut() {
        *place = p.0;
        p = multiply(x, p);
    }
    p
}

// 1, x, x^2, ..: from the first ones on, each is a fixed power times the one CHAINS places before.
pub fn powers(x: Element, out: &mut [u32])
    ensures { out.new ≡ tabulate (length out.old) (pow_n x.0) }
{
    let head = out.len().min(CHAINS);
    let step = first_powers(x, &mut out[..head]);
    for i in head..out.len() {
        out[i] = multiply(step, Element(out[i - CHAINS])).0;
    }
}

// ---- inverse factorials

// The inverses of 0!, 1!, .., 319!. Reading the table copies it: read it once, and lend it on.
pub fn inverse_factorials() -> [u32; TABLE_SIZE]
    ensures { result ≡ inverse_factorials }
{
    INVERSE_FACTORIALS
}

// The point c places after the first.
pub fn point(first: Element, c: usize) -> Element
    requires { first.0 + c < q }
    ensures { result.0 ≡ first.0 + c }
{
    Element(first.0 + c as u32)
}
