// The checking program's output as a function of its input.
#![tactic(auto)]

ghost use Rattle.std.specs.Prelude.{◌≡◌, [], ◌∷◌, ◌+◌, ◌*◌, ◌<◌, ◌≤◌, min, length};
ghost use Rattle.scheme.specs.Question.{question_length};
ghost use Rattle.scheme.specs.Program.{input_limit, decimal, value_line, value_lines, text, printed};
ghost use Rattle.commitment.specs.Shape.{sizes_in};
ghost use Rattle.question.specs.Asked.{Heads};
ghost use Rattle.report.specs.Read.{Reported};
ghost use Rattle.report.specs.Written.{written, overwritten, point_lines, checked_text};
ghost use Rattle.scheme.specs.Sizes.{most_points};

use checker::check;
use codec::put_bytes;
use commitment::{Shape, question_length};
use inputs::{INPUT_LIMIT, read_full};
use question::{Heading, header};
use refusal::number_of;
use std::io::Read;

// Each of these writes some bytes from place `at` on, and returns the place after them.
fn put_byte(out: &mut [u8], at: usize, x: u8) -> usize
    requires { at < length out.old }
    ensures { (result, out.new) ≡ written out.old at (x ∷ []) }
{
    out[at] = x;
    at + 1
}

// A number in decimal: the digits before the last one, if there are any, then the last one.
fn put_decimal(out: &mut [u8], at: usize, n: u32) -> usize
    requires { at + length (decimal n) ≤ length out.old }
    ensures { (result, out.new) ≡ written out.old at (decimal n) }
{
    let last = (48 + n % 10) as u8;
    if n < 10 {
        return put_byte(out, at, last);
    }
    let next = put_decimal(out, at, n / 10);
    put_byte(out, next, last)
}

// Point number and polynomial number, from 1, and the value.
fn put_line(out: &mut [u8], at: usize, p: usize, i: usize, v: u32) -> usize
    requires { (p < 9) × (i < 256) × (at + 24 ≤ length out.old) }
    ensures { (result, out.new) ≡ written out.old at (value_line p i v) }
{
    let point = put_decimal(out, at, (p + 1) as u32);
    let first = put_byte(out, point, b' ');
    let polynomial = put_decimal(out, first, (i + 1) as u32);
    let second = put_byte(out, polynomial, b' ');
    let value = put_decimal(out, second, v);
    put_byte(out, value, b'\n')
}

// The lines of point p.
fn put_point(out: &mut [u8], at: usize, p: usize, w: usize, values: &[u32]) -> usize
    requires { (p < 8) × (w ≤ 256) × (p * w + w ≤ length values.now) × (at + 24 * w ≤ length out.old) }
    ensures { (result, out.new) ≡ written out.old at (point_lines p w values.now w) }
{
    let first = p * w;
    let mut next = at;
    for i in 0..w {
        next = put_line(out, next, p, i, values[first + i]);
    }
    next
}

// The lines of m points.
fn put_values(out: &mut [u8], at: usize, m: usize, w: usize, values: &[u32]) -> usize
    requires { (m ≤ most_points) × (w ≤ 256) × (length values.now ≡ w * m) × (at + 24 * (w * m) ≤ length out.old) }
    ensures { (result, out.new) ≡ written out.old at (value_lines m w values.now) }
{
    let mut next = at;
    for p in 0..m {
        next = put_point(out, next, p, w, values);
    }
    next
}

// `verdict `, the number, a line end.
fn put_verdict(out: &mut [u8], verdict: u32) -> usize
    requires { 19 ≤ length out.old }
    ensures { (result, out.new) ≡ written out.old 0 (text verdict []) }
{
    put_bytes(out, 0, b"verdict ");
    let number = put_decimal(out, 8, verdict);
    put_byte(out, number, b'\n')
}

// The whole text for a verdict and the values of m points and w polynomials.
fn put_text(out: &mut [u8], verdict: u32, m: usize, w: usize, values: &[u32]) -> usize
    requires { (m ≤ most_points) × (w ≤ 256) × (length values.now ≡ w * m) × (length out.old ≡ input_limit) }
    ensures { (result, out.new) ≡ written out.old 0 (text verdict (value_lines m w values.now)) }
{
    let at = put_verdict(out, verdict);
    if verdict == 0 {
        return put_values(out, at, m, w, values);
    }
    at
}

// The text for a question and a reply, where the value buffer has w words for each of m points.
fn put_checked(
    out: &mut [u8],
    question: &[u8],
    reply: &[u8],
    m: usize,
    w: usize,
    values: &mut [u32],
) -> usize
    requires { (m ≤ most_points) × (w ≤ 256) × (length values.old ≡ w * m) × (length out.old ≡ input_limit) }
    ensures { (result, out.new) ≡ written out.old 0 (checked_text question.now reply.now m w values.old) }
{
    let checked = check(question, reply, values);
    put_text(out, number_of(checked.outcome), m, w, values)
}

// How many bytes of the input are the question: as many as the header gives, or all.
fn question_end(s: Shape, m: usize, all: usize) -> usize
    requires { m ≤ most_points }
    ensures { result ≡ min (question_length (sizes_in s) m) all }
{
    question_length(s, m).min(all)
}

// The text for an input whose header passes its tests.
fn put_split(out: &mut [u8], input: &[u8], heading: Heading) -> usize
    requires { Heads input.now heading.shape heading.m × (length input.now ≤ input_limit) × (length out.old ≡ input_limit) }
    ensures { (result, out.new) ≡ written out.old 0 (printed input.now) }
{
    let points = heading.m as usize;
    let k = question_end(heading.shape, points, input.len());
    let w = heading.shape.w as usize;
    let n = w * points;
    let mut values = [0; 2048];
    put_checked(out, &input[0..k], &input[k..], points, w, &mut values[0..n])
}

// The text for an input: its length, and the buffer that begins with it.
pub fn report(input: &[u8], out: &mut [u8]) -> usize
    requires { (length input.now ≤ input_limit) × (length out.old ≡ input_limit) }
    ensures { (result, out.new) ≡ overwritten out.old (printed input.now) }
{
    match header(input) {
        Ok(heading) => put_split(out, input, heading),
        Err(refusal) => put_verdict(out, refusal.number()),
    }
}

// Reads an input, and puts its text at the front of the buffer; returns the text's length.
pub fn report_read<R: Read>(input: &mut R, out: &mut [u8]) -> usize
    requires { length out.old ≡ input_limit }
    ensures bound { result ≤ length out.new }
    ensures text { Reported (R.remaining input.old) (R.remaining input.new) out.old (result, out.new) }
{
    let mut bytes = [0; INPUT_LIMIT];
    let n = read_full(input, &mut bytes);
    report(&bytes[..n], out)
}
