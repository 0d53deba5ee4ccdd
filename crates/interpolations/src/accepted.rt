// Interpolations that are accepted: the coefficients of few points whole, those of many by their digest.
use super::inputs::{Recurrence, any_points, constant, room, rule, scattered, words};
use field::Q;
use interpolation::interpolate;
use refusal::number_of;
use runs::calls::{front, front_mut};
use runs::printing::{Hex, print_words, word_digest};
use std::io;

// The number of points from which on there is a digest.
const MANY: usize = 20;

fn print_coefficients(rt: &impl Print, coefficients: &[u32]) -> io::Result<()> {
    if coefficients.len() < MANY {
        print!(rt; "coefficients ")?;
        print_words(rt, coefficients)
    } else {
        let digest = word_digest(coefficients);
        println!(rt; "coefficients digest {}", Hex(&digest))
    }
}

// So many points and values by these rules.
fn print_run(rt: &impl Print, n: usize, points: Recurrence, values: Recurrence) -> io::Result<()> {
    let x = words(points);
    let y = words(values);
    let mut coefficients = room();
    let answer = interpolate(front(&x, n), front(&y, n), front_mut(&mut coefficients, n));
    println!(rt; "points {n} interpolate {}", number_of(answer))?;
    print_coefficients(rt, front(&coefficients, n))
}

fn print_any(rt: &impl Print, n: usize) -> io::Result<()> {
    print_run(rt, n, any_points(), scattered(5))
}

// Points of other rules: in a row, up and down, around 0, powers, and far apart.
fn print_rows(rt: &impl Print, n: usize) -> io::Result<()> {
    let values = scattered(7);
    print_run(rt, n, rule(0, 1, 1), values)?;
    print_run(rt, n, rule(4096, 1, 1), values)?;
    print_run(rt, n, rule(Q - 1, 1, Q - 1), values)?;
    print_run(rt, n, rule(Q - 3, 1, 1), values)?;
    print_run(rt, n, rule(1, 2, 0), values)?;
    print_run(rt, n, rule(0, 1, 65536), values)
}

// Values of polynomials of low degree: 0, q - 1, X, 3 X + 1.
fn print_low(rt: &impl Print, n: usize) -> io::Result<()> {
    print_run(rt, n, any_points(), constant(0))?;
    print_run(rt, n, any_points(), constant(Q - 1))?;
    print_run(rt, n, any_points(), any_points())?;
    print_run(rt, n, rule(0, 1, 1), rule(1, 1, 3))
}

pub fn print_accepted(rt: &impl Print) -> io::Result<()> {
    print_any(rt, 1)?;
    print_any(rt, 2)?;
    print_any(rt, 3)?;
    print_any(rt, 7)?;
    print_any(rt, 8)?;
    print_any(rt, 9)?;
    print_any(rt, 16)?;
    print_any(rt, 17)?;
    print_any(rt, 319)?;
    print_any(rt, 320)?;
    print_rows(rt, 9)?;
    print_rows(rt, 320)?;
    print_low(rt, 1)?;
    print_low(rt, 9)?;
    print_low(rt, 320)
}
