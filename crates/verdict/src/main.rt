// The checking program: reads a question and a reply, at most 65,536 bytes, and prints the verdict and the values.
#![tactic(auto)]

use inputs::INPUT_LIMIT;
use report::report_read;
use std::io;

fn main(rt: HostRuntime) -> io::Result<()> {
    let mut out = [0; INPUT_LIMIT];
    let r = report_read(&mut rt.reader(), &mut out);
    rt.write_all(&out[..r])
}
