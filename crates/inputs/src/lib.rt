// What the programs read: an input whole, and the input of each file that the arguments name.
#![tactic(auto)]

ghost use Rattle.std.specs.Prelude.{◌≤◌, length, take};
ghost use Rattle.std.specs.Io.KnownBytes.{Consumes};

use std::env::FillError;
use std::io::{ErrorKind, Read};
use std::rt::{Env, Files};
use std::{fs, io, str};

// The most bytes of an input that a program reads, and the room for the text that it prints.
pub const INPUT_LIMIT: usize = 65536;

// Reads until the buffer is full, the input ends or a read fails, and returns how many bytes it put at the buffer's front.
pub fn read_full<R: Read>(input: &mut R, buffer: &mut [u8]) -> usize
    ensures bound { result ≤ length buffer.new }
    ensures bytes { Consumes (R.remaining input.old) (R.remaining input.new) (take result buffer.new) }
{
    let mut done = 0;
    while done < buffer.len() {
        match input.read(&mut buffer[done..]) {
            Ok(n) if n > 0 => done += n,
            _ => break,
        }
    }
    done
}

// Opens a file to be read. The library opens only names that are UTF-8.
fn open<R: Files>(rt: &R, name: &[u8]) -> io::Result<R::File> {
    match str::from_utf8(name) {
        Ok(path) => fs::open(rt, path),
        Err(_) => Err(io::Error::from(ErrorKind::InvalidInput)),
    }
}

// Prints the name and takes the step. A file that cannot be opened is named with the reason on `errors`, and then passed over.
fn file_step<R: Files + Print, F: Fn(&mut R::File) -> io::Result<()>>(
    rt: &R,
    errors: &impl Print,
    name: &[u8],
    step: &F,
) -> io::Result<()>
    requires { F.IsAlwaysCallable step.now }
{
    rt.write_all(name)?;
    rt.write_all(b"\n")?;
    match open(rt, name) {
        Ok(mut file) => step(&mut file),
        Err(error) => {
            errors.write_all(name)?;
            println!(errors; ": {error}")
        }
    }
}

// Takes the step at each file that the arguments name, each name printed before it.
pub fn each_file<R: Env + Files + Print, F: Fn(&mut R::File) -> io::Result<()>>(
    rt: &R,
    errors: &impl Print,
    step: &F,
) -> io::Result<()>
    requires { F.IsAlwaysCallable step.now }
{
    let mut name = [0; 4096];
    for i in 1..usize::MAX {
        match rt.arg(i, &mut name) {
            Ok(n) => file_step(rt, errors, &name[..n], step)?,
            // An argument that is longer counts as an empty one.
            Err(FillError::TooLong) => file_step(rt, errors, b"", step)?,
            Err(FillError::NotPresent) => break,
        }
    }
    Ok(())
}
