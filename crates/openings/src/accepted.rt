// Runs that are accepted: commits, asks for the reply's length, opens, and prints what comes out.
use super::calls::{open_front, print_reply_length};
use commitment::Shape;
use lent::Witness;
use refusal::{Refusal, number_of};
use runs::calls::{commit_front, front};
use runs::inputs::{
    NONCE_ROOM, REPLY_ROOM, SALT_ROOM, SMALL_ROOM, Salt, Slice, TABLE_ROOM, TREE_ROOM, WORD_ROOM,
    filled, filled_salt,
};
use runs::printing::{Hex, print_sizes, word_digest};
use runs::questions::{Asked, VERSION, filled_question, put_question, with_salt};
use runs::sizes::{Lengths, lengths_of, shape};
use std::io;

fn print_commit(
    rt: &impl Print,
    s: Shape,
    n: Lengths,
    all: &Witness<'_>,
    table: &mut [u32],
    tree: &mut [u8],
) -> io::Result<()> {
    let committed = commit_front(s, n, all, table, tree);
    print_sizes(rt, s)?;
    let table_digest = word_digest(front(table, n.table));
    let tree_digest = sponge::digest(front(tree, n.tree));
    println!(rt; "\ncommit {}", number_of(committed))?;
    println!(rt; "table digest {}", Hex(&table_digest))?;
    println!(rt; "tree digest {}", Hex(&tree_digest))
}

// Asks, and returns the reply's length.
fn print_question(
    rt: &impl Print,
    s: Shape,
    n: Lengths,
    a: Asked,
    tree: &[u8],
    question: &mut [u8],
) -> io::Result<usize> {
    put_question(s, a, front(tree, n.tree), question);
    let asked = front(question, n.question);
    println!(rt; "m {}", a.m)?;
    println!(rt; "question {}", Hex(asked))?;
    print_reply_length(rt, asked)
}

// A short reply whole, a long one by its digest.
fn print_reply(rt: &impl Print, n: usize, reply: &[u8]) -> io::Result<()> {
    let made = front(reply, n);
    println!(rt; "\nopen 0")?;
    println!(rt; "length {n}")?;
    if n < 1500 {
        println!(rt; "reply {}", Hex(made))
    } else {
        let digest = sponge::digest(made);
        println!(rt; "reply digest {}", Hex(&digest))
    }
}

fn print_opened(rt: &impl Print, answer: Result<usize, Refusal>, reply: &[u8]) -> io::Result<()> {
    match answer {
        Ok(n) => print_reply(rt, n, reply),
        Err(refusal) => println!(rt; "\nopen {}", refusal.number()),
    }
}

fn print_run(
    rt: &impl Print,
    s: Shape,
    a: Asked,
    all: &Witness<'_>,
    table: &mut [u32],
    tree: &mut [u8],
    reply: &mut [u8],
) -> io::Result<()> {
    let n = lengths_of(s, a.m);
    let mut question = [0; SMALL_ROOM];
    print_commit(rt, s, n, all, table, tree)?;
    let reply_length = print_question(rt, s, n, a, tree, &mut question)?;
    let answer = open_front(n, reply_length, &question, all, table, tree, reply);
    print_opened(rt, answer, reply)
}

// Case P: all sizes 1, nonces and salt zeros.
pub fn print_p(rt: &impl Print) -> io::Result<()> {
    let mut coefficients = [0; WORD_ROOM];
    let mut tails = [0; WORD_ROOM];
    let blinds = [0; WORD_ROOM];
    let mut masks = [0; WORD_ROOM];
    coefficients[0] = 5;
    tails[0] = 9;
    masks[0] = 7;
    masks[1] = 2;
    let nonces = [0; NONCE_ROOM];
    let salt = [0; SALT_ROOM];
    let mut table = [0; TABLE_ROOM];
    let mut tree = [0; TREE_ROOM];
    let mut reply = [0; REPLY_ROOM];
    let a = Asked {
        version: VERSION,
        m: 1,
        salt: Salt::Zeros,
        challenges: [10, 0, 0, 0],
        points: [6, 0, 0, 0, 0, 0, 0, 0],
        first: 1,
        step: 0,
    };
    let all = Witness {
        coefficients: &coefficients,
        tails: &tails,
        blinds: &blinds,
        masks: &masks,
        nonces: &nonces,
        salt: &salt,
    };
    print_run(
        rt,
        shape(1, 1, 1, 1, 1, 1),
        a,
        &all,
        &mut table,
        &mut tree,
        &mut reply,
    )
}

// All buffers are filled by the rules before, those that are written too. The salt is the question's.
fn print_asked(rt: &impl Print, s: Shape, a: Asked) -> io::Result<()> {
    let coefficients = filled::<u32, WORD_ROOM>(Slice::Coefficients);
    let tails = filled::<u32, WORD_ROOM>(Slice::Tails);
    let blinds = filled::<u32, WORD_ROOM>(Slice::Blinds);
    let masks = filled::<u32, WORD_ROOM>(Slice::Masks);
    let nonces = filled::<u8, NONCE_ROOM>(Slice::Nonces);
    let salt = filled_salt::<SALT_ROOM>(a.salt);
    let mut table = filled::<u32, TABLE_ROOM>(Slice::Table);
    let mut tree = filled::<u8, TREE_ROOM>(Slice::Tree);
    let mut reply = filled::<u8, REPLY_ROOM>(Slice::Reply);
    let all = Witness {
        coefficients: &coefficients,
        tails: &tails,
        blinds: &blinds,
        masks: &masks,
        nonces: &nonces,
        salt: &salt,
    };
    print_run(rt, s, a, &all, &mut table, &mut tree, &mut reply)
}

// The indices are first, first + step, first + 2 step, ..
pub fn print_filled(
    rt: &impl Print,
    s: Shape,
    m: u32,
    first: usize,
    step: usize,
) -> io::Result<()> {
    print_asked(rt, s, filled_question(m, first, step))
}

// The same with this salt.
pub fn print_salted(
    rt: &impl Print,
    s: Shape,
    m: u32,
    first: usize,
    step: usize,
    salt: Salt,
) -> io::Result<()> {
    print_asked(rt, s, with_salt(filled_question(m, first, step), salt))
}
