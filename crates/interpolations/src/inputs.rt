// The inputs, made by one rule, and the buffers that hold them.
use field::Q;

// Room for a few points more than can be.
const ROOM: usize = 328;

// A first word, and each next one from the one before: times `factor`, plus `step`, modulo q.
#[derive(Clone, Copy)]
pub struct Recurrence {
    pub first: u32,
    pub factor: u32,
    pub step: u32,
}

pub fn rule(first: u32, factor: u32, step: u32) -> Recurrence {
    Recurrence {
        first,
        factor,
        step,
    }
}

// The points where nothing else is said.
pub fn any_points() -> Recurrence {
    rule(97, 2654435761, 12345)
}

// Another factor than that of the points: with the same one the values would be those of a line.
pub fn scattered(first: u32) -> Recurrence {
    rule(first, 1103515245, 12345)
}

// Words that are all the same.
pub fn constant(word: u32) -> Recurrence {
    rule(word, 1, 0)
}

// What the lent coefficients hold before: the first is no element.
fn before() -> Recurrence {
    scattered(u32::MAX)
}

fn next(r: Recurrence, word: u32) -> u32 {
    let product = u64::from(word) * u64::from(r.factor);
    ((product + u64::from(r.step)) % u64::from(Q)) as u32
}

pub fn words(r: Recurrence) -> [u32; ROOM] {
    let mut words = [0; ROOM];
    let mut word = r.first;
    for place in &mut words {
        *place = word;
        word = next(r, word);
    }
    words
}

pub fn room() -> [u32; ROOM] {
    words(before())
}
