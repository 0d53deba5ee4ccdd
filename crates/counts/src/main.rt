// The check on stored inputs, with its count: the files that the arguments name, each name before verdict and permutations. Inputs are split as the checking
// program splits them. The file stdout is made by tools/stored_counts.py from a second implementation.
#![tactic(auto)]

use checker::check;
use commitment::question_length;
use inputs::{INPUT_LIMIT, each_file, read_full};
use question::{Heading, header};
use refusal::number_of;
use std::io;
use std::io::Read;

const MOST_POINTS: usize = 8;

const MOST_VALUES: usize = 2048;

fn print_counted(
    rt: &impl Print,
    question: &[u8],
    reply: &[u8],
    values: &mut [u32],
) -> io::Result<()> {
    let checked = check(question, reply, values);
    let verdict = number_of(checked.outcome);
    let permutations = checked.permutations;
    println!(rt; "verdict {verdict} permutations {permutations}")
}

// The first `end` bytes are the question, or all of them; n words are the value buffer. Where the header's tests have passed, there is room for them.
fn print_parts(rt: &impl Print, input: &[u8], end: usize, n: usize) -> io::Result<()> {
    if MOST_VALUES < n {
        return Ok(());
    }
    let k = end.min(input.len());
    let mut values = [0; MOST_VALUES];
    print_counted(rt, &input[..k], &input[k..], &mut values[..n])
}

fn print_split(rt: &impl Print, input: &[u8], heading: Heading) -> io::Result<()> {
    let Heading { shape, m } = heading;
    let points = m as usize;
    if MOST_POINTS < points {
        return Ok(());
    }
    print_parts(
        rt,
        input,
        question_length(shape, points),
        shape.w as usize * points,
    )
}

fn print_input(rt: &impl Print, input: &[u8]) -> io::Result<()> {
    match header(input) {
        Ok(heading) => print_split(rt, input, heading),
        Err(_) => print_parts(rt, input, input.len(), 0),
    }
}

fn print_file(rt: &impl Print, file: &mut impl Read) -> io::Result<()> {
    let mut input = [0; INPUT_LIMIT];
    let n = read_full(file, &mut input);
    print_input(rt, &input[..n])
}

fn main(rt: HostRuntime) -> io::Result<()> {
    each_file(&rt, &rt.stderr(), &|file| print_file(&rt, file))
}
