// The checking program on stored inputs: the files that the arguments name, each name before its text.
#![tactic(auto)]

use inputs::{INPUT_LIMIT, each_file};
use report::report_read;
use std::io;
use std::io::Read;

// Reads a file as the program reads standard input.
fn print_text(rt: &impl Print, file: &mut impl Read) -> io::Result<()> {
    let mut out = [0; INPUT_LIMIT];
    let r = report_read(file, &mut out);
    rt.write_all(&out[..r])
}

fn main(rt: HostRuntime) -> io::Result<()> {
    each_file(&rt, &rt.stderr(), &|file| print_text(&rt, file))
}
