// Commits, asks for a reply's length and opens at several sizes and prints what comes out, then refusals of every number: without blinding rows, then with them, then those about the salt.
// The file stdout is made by tools/stored_openings.py from a second implementation.
#![tactic(auto)]

mod accepted; // accepted.rt: runs that are accepted
mod calls; // calls.rt: asking for a reply's length, and opening with the fronts of buffers
mod refused_commits; // refused_commits.rt
mod refused_opens; // refused_opens.rt

use accepted::{print_filled, print_p, print_salted};
use refused_commits::{
    print_refused_blinded_commits, print_refused_commits, print_refused_salted_commits,
};
use refused_opens::{print_refused_blinded_opens, print_refused_opens, print_refused_salted_opens};
use runs::inputs::Salt;
use runs::sizes::{blinded, shape};
use runs::small::{small, small_blinded};
use std::io;

fn print_plain(rt: &impl Print) -> io::Result<()> {
    print_p(rt)?;
    print_filled(rt, shape(4, 3, 2, 4, 5, 2), 3, 1, 3)?;
    print_filled(rt, shape(9, 2, 256, 1, 3, 1), 1, 0, 255)?;
    print_filled(rt, shape(9, 2, 1, 256, 3, 1), 2, 111, 200)?;
    print_filled(rt, shape(3, 2, 2, 2, 2, 1), 8, 3, 4)?;
    print_filled(rt, shape(3, 5, 1, 3, 4, 4), 1, 0, 2)?;
    print_filled(rt, shape(3, 1, 4, 1, 4, 1), 1, 4, 1)?;
    print_filled(rt, shape(12, 64, 16, 16, 64, 4), 8, 63, 64)?;
    print_filled(rt, small(), 1, 1, 2)?;
    print_refused_commits(rt)?;
    print_refused_opens(rt)
}

fn print_blinded(rt: &impl Print) -> io::Result<()> {
    print_filled(rt, small_blinded(), 1, 1, 2)?;
    print_filled(rt, blinded(shape(1, 1, 1, 1, 1, 1), 1), 1, 1, 0)?;
    print_filled(rt, blinded(shape(3, 4, 1, 3, 2, 3), 2), 1, 2, 3)?;
    print_filled(rt, blinded(shape(4, 3, 3, 2, 4, 2), 3), 2, 0, 5)?;
    print_filled(rt, blinded(shape(5, 16, 2, 5, 3, 1), 16), 3, 9, 11)?;
    print_filled(rt, blinded(shape(9, 2, 256, 1, 3, 1), 2), 1, 0, 255)?;
    print_filled(rt, blinded(shape(12, 48, 16, 16, 64, 4), 16), 8, 63, 64)?;
    print_refused_blinded_commits(rt)?;
    print_refused_blinded_opens(rt)
}

// What has been committed above, under another salt: tables and answers stay, roots do not.
fn print_about_salt(rt: &impl Print) -> io::Result<()> {
    print_salted(rt, small(), 1, 1, 2, Salt::Other)?;
    print_salted(rt, small_blinded(), 1, 1, 2, Salt::Other)?;
    print_refused_salted_commits(rt)?;
    print_refused_salted_opens(rt)
}

fn main(rt: HostRuntime) -> io::Result<()> {
    print_plain(&rt)?;
    print_blinded(&rt)?;
    print_about_salt(&rt)
}
