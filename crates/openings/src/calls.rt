// Asks for a reply's length, and opens with the fronts of buffers.
use lent::Witness;
use opener::open;
use planner::reply_length;
use refusal::Refusal;
use runs::calls::{front, front_mut, lent_front};
use runs::sizes::Lengths;
use std::io;

// Asks for the length of the reply to a question: prints the number, and with 0 the length. Returns the length, or 0.
pub fn print_reply_length(rt: &impl Print, question: &[u8]) -> io::Result<usize> {
    match reply_length(question) {
        Ok(n) => {
            print!(rt; "size 0 {n}")?;
            Ok(n)
        }
        Err(refusal) => {
            print!(rt; "size {}", refusal.number())?;
            Ok(0)
        }
    }
}

// With so many bytes for the reply.
pub fn open_front(
    n: Lengths,
    reply_length: usize,
    question: &[u8],
    all: &Witness<'_>,
    table: &[u32],
    tree: &[u8],
    reply: &mut [u8],
) -> Result<usize, Refusal> {
    let witness = lent_front(n, all);
    open(
        front(question, n.question),
        &witness,
        front(table, n.table),
        front(tree, n.tree),
        front_mut(reply, reply_length),
    )
}
