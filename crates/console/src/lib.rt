// Standard input and output of the programs. The whole input is read before anything is written, and a read or a write that fails is told on
// standard error.
#![tactic(auto)]

ghost use Rattle.std.specs.Prelude.{◌≤◌, length};
ghost use Rattle.std.specs.Io.{ReadsAtMost};
ghost use Rattle.console.specs.Read.{GaveInto};

use std::io;
use std::io::{Read, Write};

// A read of standard input failed, and was told: what came may be cut off anywhere.
#[derive(Clone, Copy, PartialEq, Eq, Debug)]
pub struct ReadFailed;

// Reads standard input to its end, or until the buffer is full, and answers how many bytes came. A read that fails is told.
pub fn read_input<R: Read, E: Write>(
    stdin: &mut R,
    stderr: &mut E,
    input: &mut [u8],
) -> Result<usize, ReadFailed>
    ensures counted { ReadsAtMost result input.new }
    ensures bytes { GaveInto (R.remaining stdin.old) (R.remaining stdin.new) input.new result }
{
    let mut done: usize = 0;
    while done < input.len() {
        match stdin.read(&mut input[done..]) {
            Ok(0) => return Ok(done),
            Ok(more) => done += more,
            Err(error) => {
                input_failed(stderr, error);
                return Err(ReadFailed);
            }
        }
    }
    Ok(done)
}

// Tells that standard input could not be read, with the system's reason.
pub fn input_failed<E: Write>(stderr: &mut E, error: io::Error) {
    tell(stderr, b"standard input: ", error);
}

// Writes bytes to standard output, and tells where that fails, with the system's reason.
pub fn write_output<W: Write, E: Write>(stdout: &mut W, stderr: &mut E, bytes: &[u8]) {
    if let Err(error) = stdout.write_all(bytes) {
        tell(stderr, b"standard output: ", error);
    }
}

// Writes bytes to standard error. Where that fails there is nowhere left to tell it.
pub fn write_error<E: Write>(stderr: &mut E, bytes: &[u8]) {
    let _ = stderr.write_all(bytes);
}

// Tells what failed and why, in a line.
fn tell<E: Write>(stderr: &mut E, what: &[u8], error: io::Error) {
    // A reason has at most 256 bytes, and the number behind it at most 23.
    let mut text = [0u8; 320];
    let mut rest = &mut text[..];
    let _ = write!(rest, "{error}");
    let n = reason_len(&text);
    write_error(stderr, what);
    write_error(stderr, &text[..n]);
    write_error(stderr, b"\n");
}

// How long the system's reason is at the front of the text of an error: std puts the error's number behind it, and zeros fill the rest.
fn reason_len(text: &[u8]) -> usize
    ensures { result ≤ length text.now }
{
    for i in 0..text.len() {
        if text[i] == 0 || text[i..].starts_with(b" (os error ") {
            return i;
        }
    }
    text.len()
}

#[cfg(test)]
mod tests;
