// Many framed calls from standard input, one line of answer each: the answers are compared with those of an independent search.
// A frame is a byte for the operation, then its arguments: a slice as a length of two bytes, the lowest first, and its bytes; a place as one byte.
#![tactic(auto)]

ghost use Rattle.std.specs.Prelude.{◌≡◌, ◌≤◌, IfOk, length};

use std::io;
use std::io::{Read, Write};

// What a frame asks for.
#[derive(Clone, Copy)]
enum Operation {
    Measure,
    Refine,
    Choose,
    Size,
}

impl Operation {
    // The operation that a frame's first byte names; none is named by 0, as which the input reads past its end.
    fn named(byte: u8) -> Option<Operation> {
        match byte {
            0 => None,
            1 => Some(Operation::Measure),
            2 => Some(Operation::Refine),
            3 => Some(Operation::Choose),
            _ => Some(Operation::Size),
        }
    }
}

// What the slices of a frame are read into.
#[derive(Drop)]
struct Buffers {
    job: [u8; 2048],
    second: [u8; 1024],
    third: [u8; 1024],
}

// Reads until the buffer is full or the input ends.
fn read_full<R: Read>(input: &mut R, buffer: &mut [u8]) -> io::Result<()> {
    let mut done: usize = 0;
    while done < buffer.len() {
        let more = input.read(&mut buffer[done..])?;
        if more == 0 {
            return Ok(());
        }
        done += more;
    }
    Ok(())
}

// One byte of the input, 0 past its end.
fn read_byte<R: Read>(input: &mut R) -> io::Result<u8> {
    let mut one = [0u8; 1];
    read_full(input, &mut one)?;
    Ok(one[0])
}

// Reads a slice into the front of a buffer; answers its length, 0 where it is longer than the buffer.
fn read_slice<R: Read>(input: &mut R, buffer: &mut [u8]) -> io::Result<usize>
    ensures within { IfOk result (λ n. n ≤ length buffer.new) }
    ensures long { length buffer.new ≡ length buffer.old }
{
    let mut two = [0u8; 2];
    read_full(input, &mut two)?;
    let n = usize::from(u16::from_le_bytes(two));
    if buffer.len() < n {
        return Ok(0);
    }
    read_full(input, &mut buffer[..n])?;
    Ok(n)
}

// Bytes in hexadecimal digits, after a blank; nothing where there are none. The line ends behind them.
fn end_in_hex<W: Write>(out: &mut W, bytes: &[u8]) -> io::Result<()> {
    if !bytes.is_empty() {
        out.write_all(b" ")?;
    }
    for byte in bytes {
        write!(out, "{byte:02x}")?;
    }
    out.write_all(b"\n")
}

fn measure_line<W: Write>(out: &mut W, job: &[u8], sizing: &[u8]) -> io::Result<()> {
    match operations::measure(job, sizing) {
        Ok(figures) => writeln!(out, "measure 0 {} {}", figures.delay.0, figures.load.0),
        Err(refusal) => writeln!(out, "measure {} 0 0", refusal.number()),
    }
}

fn refine_line<W: Write>(out: &mut W, job: &[u8], sizing: &[u8], place: usize) -> io::Result<()> {
    match operations::refine(job, sizing, place) {
        Ok(best) => writeln!(
            out,
            "refine 0 {} {} {}",
            best.lowest, best.highest, best.delay.0
        ),
        Err(refusal) => writeln!(out, "refine {} 0 0 0", refusal.number()),
    }
}

fn choose_line<'a, W: Write>(out: &mut W, job: &[u8], x: &'a [u8], y: &'a [u8]) -> io::Result<()> {
    let chosen = operations::choose(job, x, y);
    write!(out, "choose {}", chosen.len())?;
    end_in_hex(out, chosen)
}

fn size_line<W: Write>(out: &mut W, job: &[u8], buffer: &mut [u8]) -> io::Result<()> {
    let number = match size::size(job, buffer) {
        Ok(reply) => reply.number(),
        Err(unwritten) => unwritten.number(),
    };
    write!(out, "size {number}")?;
    end_in_hex(out, buffer)
}

// One call: a job, a second slice, and what else the operation takes.
fn call<R: Read, W: Write>(
    input: &mut R,
    out: &mut W,
    operation: Operation,
    buffers: &mut Buffers,
) -> io::Result<()> {
    let Buffers { job, second, third } = buffers;
    let n = read_slice(input, job)?;
    let m = read_slice(input, second)?;
    let job = &job[..n];
    match operation {
        Operation::Measure => measure_line(out, job, &second[..m]),
        Operation::Refine => {
            let place = usize::from(read_byte(input)?);
            refine_line(out, job, &second[..m], place)
        }
        Operation::Choose => {
            let k = read_slice(input, third)?;
            choose_line(out, job, &second[..m], &third[..k])
        }
        Operation::Size => size_line(out, job, &mut second[..m]),
    }
}

// Reads and answers calls up to the end of the input.
fn calls<R: Read, W: Write>(input: &mut R, out: &mut W, buffers: &mut Buffers) -> io::Result<()> {
    for _ in 0..10000u32 {
        match Operation::named(read_byte(input)?) {
            Some(operation) => call(input, out, operation, buffers)?,
            None => return Ok(()),
        }
    }
    Ok(())
}

fn main(rt: HostRuntime) -> io::Result<()> {
    let mut buffers = Buffers {
        job: [0u8; 2048],
        second: [0u8; 1024],
        third: [0u8; 1024],
    };
    calls(&mut rt.stdin(), &mut rt.stdout(), &mut buffers)
}
