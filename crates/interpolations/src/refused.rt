// Calls that are refused, in the order of the tests: 1 2 3 13.
use super::inputs::{any_points, room, scattered, words};
use field::Q;
use interpolation::interpolate;
use refusal::number_of;
use runs::calls::{front, front_mut};
use runs::printing::word_digest;
use runs::small::print_same;
use std::io;

// How many points and values are lent, and room for how many coefficients. A point and a value may be set to a word, each by its place, and after that the point at the second place to the one at the first.
#[derive(Clone, Copy)]
struct Attempt {
    points: usize,
    values: usize,
    room: usize,
    point: Option<(usize, u32)>,
    value: Option<(usize, u32)>,
    equal: Option<(usize, usize)>,
}

fn put(words: &mut [u32], change: Option<(usize, u32)>) {
    let Some((at, word)) = change else {
        return;
    };
    if let Some(place) = words.get_mut(at) {
        *place = word;
    }
}

// The word at the first place is put at the second too.
fn repeat(words: &mut [u32], equal: Option<(usize, usize)>) {
    let Some((from, to)) = equal else {
        return;
    };
    if from < words.len() {
        let word = words[from];
        put(words, Some((to, word)));
    }
}

fn print_attempt(rt: &impl Print, a: Attempt) -> io::Result<()> {
    let mut points = words(any_points());
    let mut values = words(scattered(11));
    let mut coefficients = room();
    put(&mut points, a.point);
    put(&mut values, a.value);
    repeat(&mut points, a.equal);
    let before = word_digest(&coefficients);
    let answer = interpolate(
        front(&points, a.points),
        front(&values, a.values),
        front_mut(&mut coefficients, a.room),
    );
    print!(rt;
        "points {} values {} room {} interpolate {}",
        a.points,
        a.values,
        a.room,
        number_of(answer)
    )?;
    print_same(rt, before, word_digest(&coefficients))
}

// With nothing wrong but perhaps the lengths.
fn lent(points: usize, values: usize, room: usize) -> Attempt {
    Attempt {
        points,
        values,
        room,
        point: None,
        value: None,
        equal: None,
    }
}

fn sound(n: usize) -> Attempt {
    lent(n, n, n)
}

fn with_point(a: Attempt, at: usize, word: u32) -> Attempt {
    Attempt {
        point: Some((at, word)),
        ..a
    }
}

fn with_value(a: Attempt, at: usize, word: u32) -> Attempt {
    Attempt {
        value: Some((at, word)),
        ..a
    }
}

fn with_equal(a: Attempt, from: usize, to: usize) -> Attempt {
    Attempt {
        equal: Some((from, to)),
        ..a
    }
}

// 1, whatever else is wrong.
fn print_counts(rt: &impl Print) -> io::Result<()> {
    print_attempt(rt, sound(0))?;
    print_attempt(rt, lent(0, 1, 1))?;
    print_attempt(rt, with_value(lent(0, 1, 0), 0, Q))?;
    print_attempt(rt, sound(321))?;
    print_attempt(rt, lent(321, 320, 320))?;
    print_attempt(rt, lent(321, 0, 0))?;
    print_attempt(rt, with_point(sound(321), 320, Q))?;
    print_attempt(rt, with_equal(sound(321), 0, 320))?;
    print_attempt(rt, sound(328))
}

// 2, before elements and equal points.
fn print_lengths(rt: &impl Print) -> io::Result<()> {
    print_attempt(rt, lent(320, 319, 320))?;
    print_attempt(rt, lent(320, 321, 320))?;
    print_attempt(rt, lent(320, 320, 319))?;
    print_attempt(rt, lent(320, 320, 321))?;
    print_attempt(rt, lent(9, 8, 8))?;
    print_attempt(rt, lent(9, 10, 10))?;
    print_attempt(rt, lent(9, 8, 10))?;
    print_attempt(rt, lent(9, 10, 8))?;
    print_attempt(rt, lent(1, 0, 1))?;
    print_attempt(rt, lent(1, 1, 0))?;
    print_attempt(rt, with_point(lent(9, 8, 9), 0, Q))?;
    print_attempt(rt, with_value(lent(9, 9, 10), 8, Q))?;
    print_attempt(rt, with_equal(lent(9, 9, 8), 0, 8))
}

// 3, before equal points.
fn print_elements(rt: &impl Print) -> io::Result<()> {
    print_attempt(rt, with_point(sound(1), 0, Q))?;
    print_attempt(rt, with_value(sound(1), 0, u32::MAX))?;
    print_attempt(rt, with_point(sound(9), 0, Q + 1))?;
    print_attempt(rt, with_point(sound(9), 8, Q))?;
    print_attempt(rt, with_value(sound(9), 0, Q))?;
    print_attempt(rt, with_value(sound(9), 8, Q))?;
    print_attempt(rt, with_point(sound(320), 319, u32::MAX))?;
    print_attempt(rt, with_value(sound(320), 319, Q))?;
    print_attempt(rt, with_equal(with_point(sound(9), 0, Q), 0, 8))?;
    print_attempt(rt, with_equal(with_value(sound(9), 4, Q), 0, 8))
}

// 13.
fn print_equal(rt: &impl Print) -> io::Result<()> {
    print_attempt(rt, with_equal(sound(2), 0, 1))?;
    print_attempt(rt, with_equal(sound(8), 6, 7))?;
    print_attempt(rt, with_equal(sound(9), 0, 8))?;
    print_attempt(rt, with_equal(sound(9), 7, 8))?;
    print_attempt(rt, with_equal(sound(17), 8, 16))?;
    print_attempt(rt, with_equal(with_point(sound(17), 3, 0), 3, 12))?;
    print_attempt(rt, with_equal(sound(319), 317, 318))?;
    print_attempt(rt, with_equal(sound(320), 0, 1))?;
    print_attempt(rt, with_equal(sound(320), 0, 319))?;
    print_attempt(rt, with_equal(sound(320), 311, 312))?;
    print_attempt(rt, with_equal(sound(320), 318, 319))
}

// Nothing wrong among what is lent: accepted, and changed.
fn print_sound(rt: &impl Print) -> io::Result<()> {
    print_attempt(rt, with_equal(sound(9), 0, 9))?;
    print_attempt(rt, with_point(with_value(sound(9), 9, Q), 9, Q))?;
    print_attempt(rt, with_point(with_value(sound(9), 0, Q - 1), 8, Q - 1))?;
    print_attempt(rt, sound(320))
}

pub fn print_refused(rt: &impl Print) -> io::Result<()> {
    print_counts(rt)?;
    print_lengths(rt)?;
    print_elements(rt)?;
    print_equal(rt)?;
    print_sound(rt)
}
