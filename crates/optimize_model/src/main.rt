// The program: a model's text on standard input, the answer's text on standard output. Here bytes are moved, in pieces and through arrays, as
// nothing is to be allocated; all else is in the libraries.
#![tactic(auto)]

use std::io;
use std::io::Read;
use std::process::ExitCode;
use text::reader::{NUMBERS, ReadError, Reader};
use text_answer::answer::{ROOM, answer};

// Reads to the input's end: how many numbers there are, or why none. The turns are counted, as a loop must be known to end; no input has as many parts.
fn read_all<R: Read>(
    input: &mut R,
    numbers: &mut [u64; NUMBERS],
) -> io::Result<Result<usize, ReadError>> {
    let mut buffer = [0u8; 65536];
    let mut reader = Reader::new();
    for _ in 0..u64::MAX {
        let count = input.read(&mut buffer)?;
        if count == 0 {
            return Ok(reader.finish(numbers));
        }
        reader.feed(&buffer[..count], numbers);
    }
    Err(io::Error::other("too many reads"))
}

fn print_answer(
    rt: &impl Print,
    read: Result<usize, ReadError>,
    numbers: &[u64; NUMBERS],
) -> io::Result<()> {
    let mut out = [0; ROOM];
    let size = answer(read, numbers, &mut out);
    let Some(front) = out.get(..size) else {
        return Err(io::Error::other("no whole answer"));
    };
    rt.write_all(front)
}

// Says on standard error what failed and why.
fn fail(rt: &impl Eprint, what: &str, why: io::Error) -> ExitCode {
    let _ = eprintln!(rt; "{what}: {why}");
    ExitCode::FAILURE
}

fn main(rt: HostRuntime) -> ExitCode {
    let mut numbers = [0; NUMBERS];
    let read = match read_all(&mut rt.stdin(), &mut numbers) {
        Ok(read) => read,
        Err(why) => return fail(&rt, "standard input", why),
    };
    match print_answer(&rt, read, &numbers) {
        Ok(()) => ExitCode::SUCCESS,
        Err(why) => fail(&rt, "standard output", why),
    }
}
