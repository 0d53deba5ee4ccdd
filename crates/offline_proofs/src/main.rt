// Commits, proves and checks at several sizes and prints what comes out, then refusals of the prover and of the check of a proof: without blinding rows, then with them, then those about the salt.
// The file stdout is made by tools/stored_proofs.py from a second implementation.
#![tactic(auto)]

mod accepted; // accepted.rt: runs that are accepted
mod attempt; // attempt.rt: a call of the prover, with something wrong where a test is meant
mod refused_checks; // refused_checks.rt
mod refused_proofs; // refused_proofs.rt

use accepted::{print_proven, print_salted};
use refused_checks::{
    print_refused_blinded_checks, print_refused_checks, print_refused_salted_checks,
};
use refused_proofs::{
    print_refused_blinded_proofs, print_refused_proofs, print_refused_salted_proofs,
};
use runs::inputs::Salt;
use runs::sizes::{blinded, shape};
use runs::small::{small, small_blinded};
use std::io;

fn print_plain(rt: &impl Print) -> io::Result<()> {
    print_proven(rt, shape(1, 1, 1, 1, 1, 1), 1, 0)?;
    print_proven(rt, small(), 2, 3)?;
    print_proven(rt, shape(4, 3, 2, 4, 5, 4), 3, 8)?;
    print_proven(rt, shape(4, 2, 3, 1, 4, 3), 2, 9)?;
    print_refused_proofs(rt)?;
    print_refused_checks(rt)
}

fn print_blinded(rt: &impl Print) -> io::Result<()> {
    print_proven(rt, small_blinded(), 2, 3)?;
    print_proven(rt, blinded(shape(1, 1, 1, 1, 1, 1), 1), 1, 0)?;
    print_proven(rt, blinded(shape(3, 4, 1, 3, 2, 3), 2), 1, 5)?;
    print_proven(rt, blinded(shape(4, 3, 3, 2, 4, 2), 3), 2, 8)?;
    print_proven(rt, blinded(shape(5, 48, 2, 2, 3, 1), 16), 1, 4)?;
    print_refused_blinded_proofs(rt)?;
    print_refused_blinded_checks(rt)
}

// What has been committed above, under another salt: the values stay.
fn print_about_salt(rt: &impl Print) -> io::Result<()> {
    print_salted(rt, small(), 2, 3, Salt::Other)?;
    print_salted(rt, small_blinded(), 2, 3, Salt::Other)?;
    print_refused_salted_proofs(rt)?;
    print_refused_salted_checks(rt)
}

fn main(rt: HostRuntime) -> io::Result<()> {
    print_plain(&rt)?;
    print_blinded(&rt)?;
    print_about_salt(&rt)
}
