// Interpolation over the field: over any points, an entry that tests what it is lent, and over consecutive points by the table.
#![tactic(auto)]

ghost use Rattle.std.specs.Prelude.{◌≡◌, ◌+◌, ◌<◌, ◌≤◌, length};
ghost use Rattle.lists.specs.Range.{up_from};
ghost use Rattle.algebra.specs.Numbers.{Elements, interp_n};
ghost use Rattle.algebra.specs.Table.{table_size};
ghost use Rattle.algebra.specs.Pairs.{points_end};
ghost use Rattle.lists.specs.Fill.{Filled};
ghost use Rattle.lists.specs.Tests.{verdict_of};
ghost use Rattle.scheme.specs.Interpolate.{most_samples, samples_tests, interpolating};
ghost use Rattle.scheme.proofs.Interpolation.{Sampled};
ghost use Rattle.refusal.specs.Numbers.{number_of};

use codec::{both, elements_ok};
use divided_differences::divide;
use expansion::{expand, expand_from};
use field::Element;
use newton::newton_from;
use refusal::Refusal;

// The most points.
const MOST_SAMPLES: usize = 320;

// Up to so many points, small arrays do: arrays are cleared at every call.
const FEW_SAMPLES: usize = 32;

// ---- any points

// All tests but whether the points differ.
fn samples_verdict(points: &[u32], values: &[u32], room: &[u32]) -> Result<(), Refusal>
    ensures { number_of result ≡ verdict_of (samples_tests points.now values.now room.now) }
{
    let n = points.len();
    if !both(1 <= n, n <= MOST_SAMPLES) {
        return Err(Refusal::Sizes);
    }
    if !both(values.len() == n, room.len() == n) {
        return Err(Refusal::Length);
    }
    let p = elements_ok(points);
    if !both(p, elements_ok(values)) {
        return Err(Refusal::Element);
    }
    Ok(())
}

// The words. One by one, since for a copy by the library the compiler wants memmove of the C library here.
fn copy(from: &[u32], to: &mut [u32])
    requires { length to.old ≡ length from.now }
    ensures { to.new ≡ from.now }
{
    for i in 0..from.len() {
        to[i] = from[i];
    }
}

// Interpolates, or finds that two points are equal before anything is written to `out`. The three slices before it are scratch.
fn interpolate_in(
    points: &[u32],
    values: &[u32],
    rests: &mut [u64],
    products: &mut [u32],
    newton: &mut [u32],
    out: &mut [u32],
) -> Result<(), Refusal>
    requires { Sampled points.now values.now out.old × (length rests.old ≡ length points.now) × (length products.old ≡ length points.now) × (length newton.old ≡ length points.now) × Filled (λ _. 1) products.old 0 (length points.now) }
    ensures { (number_of result, out.new) ≡ interpolating points.now values.now out.old }
{
    if !divide(points, values, rests, products, newton) {
        return Err(Refusal::EqualPoints);
    }
    copy(newton, out);
    expand(points, out);
    Ok(())
}

// The same with scratch of its own, for at most ROOM points.
fn interpolate_with<const ROOM: usize>(
    points: &[u32],
    values: &[u32],
    out: &mut [u32],
) -> Result<(), Refusal>
    requires { Sampled points.now values.now out.old × (length points.now ≤ ROOM) × (ROOM ≤ most_samples) }
    ensures { (number_of result, out.new) ≡ interpolating points.now values.now out.old }
{
    let n = points.len();
    let mut rests = [0u64; ROOM];
    let mut products = [1u32; ROOM];
    let mut newton = [0u32; ROOM];
    interpolate_in(
        points,
        values,
        &mut rests[..n],
        &mut products[..n],
        &mut newton[..n],
        out,
    )
}

// The coefficients, lowest first, of the one polynomial of degree below the number of points that takes the values at the points;
// or a refusal, and the slice is as it was.
pub fn interpolate(points: &[u32], values: &[u32], coefficients: &mut [u32]) -> Result<(), Refusal>
    ensures { (number_of result, coefficients.new) ≡ interpolating points.now values.now coefficients.old }
{
    samples_verdict(points, values, coefficients)?;
    if points.len() <= FEW_SAMPLES {
        interpolate_with::<FEW_SAMPLES>(points, values, coefficients)
    } else {
        interpolate_with::<MOST_SAMPLES>(points, values, coefficients)
    }
}

// ---- consecutive points

// The coefficients of the polynomial through the values at first, first + 1, .., which are at most 2^14. `values` is used up.
pub fn interpolate_from(first: Element, values: &mut [u32], out: &mut [u32])
    requires { (0 < length values.old) × (first.0 + length values.old ≤ points_end) × (length values.old ≤ table_size) × Elements values.old × (length out.old ≡ length values.old) }
    ensures { out.new ≡ interp_n (up_from first.0 (length values.old)) values.old }
{
    newton_from(values, out);
    expand_from(first, out);
}
