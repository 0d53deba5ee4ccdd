// The search for a counter that qualifies. All that is hashed before the counter is absorbed once.
#![tactic(auto)]

ghost use Rattle.std.specs.Prelude.{◌≡◌, ◌++◌, ◌+◌, ◌≤◌, length, take};
ghost use Rattle.sponge.specs.Draw.{draw, drawn_after};
ghost use Rattle.lists.specs.Least.{least};
ghost use Rattle.fiat_shamir.specs.Offline.{most_bits};
ghost use Rattle.fiat_shamir.specs.Draw.{qualifies};
ghost use Rattle.fiat_shamir.specs.Prove.{counter_bytes};
ghost use Rattle.counter_search.specs.Tried.{tried_after, tried};

use codec::{put_bytes, put_word};
use drawing::{COUNTER, qualified};
use sponge::{absorb_prefix, draw_after};

const RATE: usize = 136; // bytes of a block of SHAKE256

const TAIL: usize = RATE - 1 + COUNTER; // what a string has after its full blocks, at most, and the counter

// Does the string of which `a` has absorbed the full blocks before `tail` qualify? Two bytes of its draw say so.
fn tail_qualifies(a: [u64; 25], tail: &[u8], kappa: u32) -> bool
    requires { kappa ≤ most_bits }
    ensures { result ≡ qualifies kappa (drawn_after a tail.now 2) }
{
    let mut first = [0u8; 2];
    draw_after(a, tail, &mut first);
    qualified(&first, kappa)
}

// The least counter below the limit that qualifies after `a` and the first `at` bytes of the tail, or the limit where there is none.
fn search(a: [u64; 25], tail: &mut [u8], at: usize, kappa: u32, limit: u32) -> u32
    requires { (at + 4 ≤ length tail.old) × (kappa ≤ most_bits) }
    ensures value { result ≡ least limit (tried_after kappa a (take at tail.old)) }
    ensures tail_unchanged { take at tail.new ≡ take at tail.old }
{
    let end = at + COUNTER;
    for c in 0..limit {
        put_word(tail, at, c);
        if tail_qualifies(a, &tail[..end], kappa) {
            return c;
        }
    }
    limit
}

// The least counter below the limit with which the string qualifies, or the limit where there is none; and its draw, as many bytes as `out` has.
pub fn find_counter(string: &[u8], kappa: u32, limit: u32, out: &mut [u8]) -> u32
    requires { kappa ≤ most_bits }
    ensures value { result ≡ least limit (tried kappa string.now) }
    ensures out_after { out.new ≡ draw (string.now ++ counter_bytes result) (length out.old) }
{
    let from = RATE * (string.len() / RATE);
    let left = string.len() - from;
    let mut tail = [0u8; TAIL];
    put_bytes(&mut tail, 0, &string[from..]);
    let a = absorb_prefix(string);
    let counter = search(a, &mut tail, left, kappa, limit);
    put_word(&mut tail, left, counter);
    let end = left + COUNTER;
    draw_after(a, &tail[..end], out);
    counter
}
