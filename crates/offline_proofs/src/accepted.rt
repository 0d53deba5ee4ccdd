// Runs that are accepted: commits, proves, checks, and prints what comes out.
use super::attempt::{about_salt, ask, commit_sound, length_of, prove_asked, sound};
use commitment::Shape;
use proof_checker::check_proof;
use refusal::number_of;
use runs::calls::{front, front_mut};
use runs::inputs::{SMALL_ROOM, Salt, Slice, WORD_ROOM, filled};
use runs::printing::{Hex, print_sizes, print_words};
use runs::sizes::product;
use std::io;

fn print_check(
    rt: &impl Print,
    s: Shape,
    m: u32,
    kappa: u32,
    question: &[u8],
    proof: &[u8],
) -> io::Result<()> {
    let mut values = filled::<u32, WORD_ROOM>(Slice::Values);
    let lent = front_mut(&mut values, product(s.w as usize, m as usize));
    let checked = check_proof(question, kappa, proof, lent);
    print!(rt; "check {}\nvalues ", number_of(checked))?;
    print_words(rt, lent)
}

pub fn print_proven(rt: &impl Print, s: Shape, m: u32, kappa: u32) -> io::Result<()> {
    print_salted(rt, s, m, kappa, Salt::First)
}

// With this salt.
pub fn print_salted(rt: &impl Print, s: Shape, m: u32, kappa: u32, salt: Salt) -> io::Result<()> {
    let a = about_salt(sound(s, m, kappa), salt);
    let mut table = filled::<u32, WORD_ROOM>(Slice::Table);
    let mut tree = filled::<u8, SMALL_ROOM>(Slice::Tree);
    let mut question = [0; SMALL_ROOM];
    let mut proof = filled::<u8, SMALL_ROOM>(Slice::Reply);
    commit_sound(a.call, &mut table, &mut tree);
    ask(a, &tree, &mut question);
    let asked = front(&question, a.call.lengths.question);
    let answer = prove_asked(a, asked, &table, &tree, &mut proof);
    let made = front(&proof, length_of(answer));
    let digest = sponge::digest(&proof);
    print_sizes(rt, s)?;
    println!(rt; "\nm {m} kappa {kappa}")?;
    println!(rt; "question {}", Hex(asked))?;
    println!(rt; "prove {} {}", number_of(answer), length_of(answer))?;
    println!(rt; "proof {}", Hex(made))?;
    println!(rt; "buffer digest {}", Hex(&digest))?;
    print_check(rt, s, m, kappa, asked, made)
}
