// Words of bytes: read from them, written to them, and tested.
#![tactic(auto)]

ghost use Rattle.std.specs.Prelude.{◌≡◌, ◌&&◌, ◌+◌, ◌*◌, ◌<◌, ◌≤◌, length, take, drop};
ghost use mathlib.Core.List.{◌++◌, map, flatten};
ghost use Rattle.lists.specs.Bytes.{from_bytes, little_endian, halves, words, bytes_of};
ghost use Rattle.lists.specs.Spliced.{spliced};
ghost use Rattle.lists.specs.Tests.{within, same};
ghost use Rattle.scheme.specs.Sizes.{elements};

use field::Q;

// ---- tests of numbers

// a and b. Unlike `&&` it asks both, and so tests in a row have no branch.
pub fn both(a: bool, b: bool) -> bool
    ensures { result ≡ (a && b) }
{
    a & b
}

// Is x from low to high?
pub fn in_range(low: u32, x: u32, high: u32) -> bool
    ensures { result ≡ within low high x }
{
    (low..=high).contains(&x)
}

// Is each word below q? All are looked at: a refusal is rare, and so the loop has no branch.
pub fn elements_ok(xs: &[u32]) -> bool
    ensures { result ≡ elements xs.now }
{
    let mut ok = true;
    for x in xs {
        ok &= *x < Q;
    }
    ok
}

// ---- bytes and words

// The bytes, from `at` on.
pub fn put_bytes(out: &mut [u8], at: usize, bytes: &[u8])
    requires { at + length bytes.now ≤ length out.old }
    ensures { out.new ≡ spliced at (length bytes.now) bytes.now out.old }
{
    out[at..at + bytes.len()].copy_from_slice(bytes);
}

// A word, lowest byte first, from `at` on.
pub fn put_word(out: &mut [u8], at: usize, x: u32)
    requires { at + 4 ≤ length out.old }
    ensures { out.new ≡ spliced at 4 (little_endian 4 x) out.old }
{
    put_bytes(out, at, &x.to_le_bytes());
}

// The words, four bytes each, from `at` on.
pub fn put_words(out: &mut [u8], at: usize, words: &[u32])
    requires { at + 4 * length words.now ≤ length out.old }
    ensures { out.new ≡ spliced at (4 * length words.now) (bytes_of words.now) out.old }
{
    for (i, x) in words.iter().enumerate() {
        put_word(out, at + 4 * i, *x);
    }
}

// A number of two bytes, lowest byte first, from `at` on.
fn put_half(out: &mut [u8], at: usize, x: usize)
    requires { at + 2 ≤ length out.old }
    ensures { out.new ≡ spliced at 2 (little_endian 2 x) out.old }
{
    put_bytes(out, at, &((x % 65536) as u16).to_le_bytes());
}

// The numbers, two bytes each, from `at` on.
pub fn put_halves(out: &mut [u8], at: usize, numbers: &[usize])
    requires { at + 2 * length numbers.now ≤ length out.old }
    ensures { out.new ≡ spliced at (2 * length numbers.now) (flatten (map (little_endian 2) numbers.now)) out.old }
{
    for (i, x) in numbers.iter().enumerate() {
        put_half(out, at + 2 * i, *x);
    }
}

// A byte as a number.
pub fn wide(x: u8) -> u32
    ensures { (result ≡ x) × (result < 256) }
{
    u32::from(x)
}

// The N bytes from `at` on.
fn bytes_at<const N: usize>(b: &[u8], at: usize) -> [u8; N]
    requires { at + N ≤ length b.now }
    ensures { result ≡ take N (drop at b.now) }
{
    let mut bytes = [0u8; N];
    bytes.copy_from_slice(&b[at..at + N]);
    bytes
}

// The number of the four bytes from `at` on.
pub fn word(b: &[u8], at: usize) -> u32
    requires { at + 4 ≤ length b.now }
    ensures { result ≡ from_bytes (take 4 (drop at b.now)) }
{
    u32::from_le_bytes(bytes_at(b, at))
}

// The number of the two bytes from `at` on.
pub fn half(b: &[u8], at: usize) -> usize
    requires { at + 2 ≤ length b.now }
    ensures { (result ≡ from_bytes (take 2 (drop at b.now))) × (result < 65536) }
{
    usize::from(u16::from_le_bytes(bytes_at(b, at)))
}

// The n words from `at` on, to the front of `out`.
pub fn read_words(b: &[u8], at: usize, n: usize, out: &mut [u32])
    requires { (at + 4 * n ≤ length b.now) × (n ≤ length out.old) }
    ensures { out.new ≡ words n (drop at b.now) ++ drop n out.old }
{
    for (i, x) in out[..n].iter_mut().enumerate() {
        *x = word(b, at + 4 * i);
    }
}

// The n numbers of two bytes from `at` on, to the front of `out`.
pub fn read_halves(b: &[u8], at: usize, n: usize, out: &mut [usize])
    requires { (at + 2 * n ≤ length b.now) × (n ≤ length out.old) }
    ensures { out.new ≡ halves n (drop at b.now) ++ drop n out.old }
{
    for (i, x) in out[..n].iter_mut().enumerate() {
        *x = half(b, at + 2 * i);
    }
}

// Are the n words from `at` on below q?
pub fn elements_in(b: &[u8], at: usize, n: usize) -> bool
    requires { at + 4 * n ≤ length b.now }
    ensures { result ≡ elements (words n (drop at b.now)) }
{
    let mut ok = true;
    for i in 0..n {
        ok &= word(b, at + 4 * i) < Q;
    }
    ok
}

// Are the two equal? All bytes are looked at: no branch depends on them.
pub fn same_bytes(a: &[u8], b: &[u8]) -> bool
    ensures { result ≡ same a.now b.now }
{
    if a.len() != b.len() {
        return false;
    }
    let mut ok = true;
    for (x, y) in a.iter().zip(b) {
        ok &= *x == *y;
    }
    ok
}
