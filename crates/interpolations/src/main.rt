// Interpolates at several numbers of points and prints what comes out, then refusals of every number.
// The file stdout is made by tools/stored_interpolations.py from a second implementation.
#![tactic(auto)]

mod accepted; // accepted.rt: runs that are accepted
mod inputs; // inputs.rt: the rules by which all inputs are made
mod refused; // refused.rt: calls with something wrong

use accepted::print_accepted;
use refused::print_refused;
use std::io;

fn main(rt: HostRuntime) -> io::Result<()> {
    print_accepted(&rt)?;
    print_refused(&rt)
}
