// A list's bytes, read in parts of one size as they are needed: a list of any length takes no more memory than its longest case.
ghost use Rattle.std.specs.Prelude.{◌≡◌, ◌<◌, ◌≤◌, ◌+◌, ◌-◌, max, false, IsTrue, OnOk, length, slice_index, vec_len};
ghost use Rattle.std.specs.Char.{is_ascii_digit};

use crate::case::{Fault, ReadFault};
use memchr::memchr;
use std::alloc::Global;
use std::io;
use std::io::{BufRead, BufReader, Read};

// The bytes of one read.
const READ: usize = 65536;

// A list is far shorter than this many reads.
const READS: u64 = 65536;

// A file, how many more reads are taken of it, and whether one has told its end: then none is taken any more, as a terminal would wait again.
#[derive(Drop)]
struct Bounded<F> {
    file: F,
    reads: u64,
    has_ended: bool,
}

impl<F: Read> Read for Bounded<F> {
    fn read(&mut self, buf: &mut [u8]) -> io::Result<usize> {
        if self.has_ended {
            return Ok(0);
        }
        let left = self.reads.checked_sub(1);
        self.reads = left.ok_or(io::Error::other("too many reads"))?;
        let count = self.file.read(buf)?;
        self.has_ended = count == 0;
        Ok(count)
    }
}

// What has lines: of a line longer than it can be, a byte is left out that tells nothing after those before it.
pub trait Line {
    fn tells_nothing(line: &[u8], byte: u8) -> bool;
}

#[derive(Drop)]
pub struct List<F> {
    reader: BufReader<Bounded<F>>,
}

impl<F: Read + Drop> List<F> {
    pub(crate) fn new(alloc: Global, file: F) -> io::Result<List<F>> {
        let file = Bounded {
            file,
            reads: READS,
            has_ended: false,
        };
        let reader = BufReader::with_capacity(alloc, READ, file)?;
        Ok(List { reader })
    }

    fn next(&mut self) -> io::Result<Option<u8>> {
        let byte = self.reader.fill_buf()?.first().copied();
        if byte.is_some() {
            self.reader.consume(1);
        }
        Ok(byte)
    }

    // Puts a line and its end behind the bytes of a case, which has no more than the most; what is left of it at the list's end. Of a longer line
    // the bytes that tell nothing are left out.
    pub fn read_line<L: Line>(&mut self, case: &mut Vec<u8>, most: usize) -> Result<(), ReadFault>
        ensures few { OnOk result (vec_len case.new ≤ max most (vec_len case.old)) }
    {
        for _ in 0..u64::MAX {
            let piece = line_piece(self.reader.fill_buf()?);
            if piece.is_empty() {
                return Ok(());
            }
            if most - case.len().min(most) < piece.len() {
                return self.read_long_line::<L>(case, most);
            }
            case.extend_from_slice(piece).map_err(Fault::from)?;
            let (size, is_whole) = (piece.len(), piece.ends_with(b"\n"));
            self.reader.consume(size);
            if is_whole {
                return Ok(());
            }
        }
        Err(Fault::Malformed.into())
    }

    // The rest of a line whose front is a case's.
    fn read_long_line<L: Line>(&mut self, case: &mut Vec<u8>, most: usize) -> Result<(), ReadFault>
        ensures few { OnOk result (vec_len case.new ≤ max most (vec_len case.old)) }
    {
        let mut short = Vec::new(*case.allocator());
        for &byte in case.iter() {
            if !L::tells_nothing(short.as_slice(), byte) {
                short.push(byte).map_err(Fault::from)?;
            }
        }
        *case = short;
        for _ in 0..u64::MAX {
            let Some(byte) = self.next()? else {
                return Ok(());
            };
            if L::tells_nothing(case.as_slice(), byte) {
                continue;
            }
            if case.len() >= most {
                return Err(Fault::Malformed.into());
            }
            case.push(byte).map_err(Fault::from)?;
            if byte == b'\n' {
                return Ok(());
            }
        }
        Err(Fault::Malformed.into())
    }

    // Of so many bytes puts the first that are kept behind those of a case; what is left at the list's end.
    pub fn read_bytes(
        &mut self,
        case: &mut Vec<u8>,
        count: usize,
        kept: usize,
    ) -> Result<(), ReadFault>
        ensures few { OnOk result (vec_len case.new ≤ vec_len case.old + kept) }
    {
        self.put_bytes(case, kept.min(count))?;
        Ok(self.skip((count - kept.min(count)) as u64)?)
    }

    fn put_bytes(&mut self, case: &mut Vec<u8>, count: usize) -> Result<(), ReadFault>
        ensures few { OnOk result (vec_len case.new ≤ vec_len case.old + count) }
    {
        let mut left = count;
        for _ in 0..u64::MAX {
            let buffer = self.reader.fill_buf()?;
            let piece = &buffer[..left.min(buffer.len())];
            if piece.is_empty() {
                return Ok(());
            }
            case.extend_from_slice(piece).map_err(Fault::from)?;
            let size = piece.len();
            self.reader.consume(size);
            left -= size;
        }
        Err(Fault::Malformed.into())
    }

    // Passes over so many bytes, or to the list's end.
    pub(crate) fn skip(&mut self, count: u64) -> io::Result<()> {
        let mut left = count;
        for _ in 0..u64::MAX {
            let size = (self.reader.fill_buf()?.len() as u64).min(left);
            if size == 0 {
                return Ok(());
            }
            self.reader.consume(size as usize);
            left -= size;
        }
        Ok(())
    }
}

// The bytes up to the first line end, which is one of them; all where there is none.
fn line_piece(bytes: &[u8]) -> &[u8]
    ensures { length result.now ≤ length bytes.now }
{
    match memchr(b'\n', bytes) {
        Some(end) => &bytes[..end + 1],
        None => bytes,
    }
}

// Whether the text ends with a number that is 0 so far: one more 0 tells nothing.
pub fn ends_with_lone_zero(text: &[u8]) -> bool
    ensures zero { IsTrue result → (0 < length text.now) × (slice_index text.now (length text.now - 1) ≡ 48) }
    ensures lone { IsTrue result → 1 < length text.now → is_ascii_digit (slice_index text.now (length text.now - 2)) ≡ false }
{
    match text {
        [b'0'] => true,
        [.., before, b'0'] => !before.is_ascii_digit(),
        _ => false,
    }
}

#[cfg(test)]
mod tests {
    use super::*;
    use std::test::Fail;

    struct Zeros;

    impl Line for Zeros {
        fn tells_nothing(_line: &[u8], byte: u8) -> bool {
            byte == b'0'
        }
    }

    struct LoneZeros;

    impl Line for LoneZeros {
        fn tells_nothing(line: &[u8], byte: u8) -> bool {
            byte == b'0' && ends_with_lone_zero(line)
        }
    }

    // A line of four bytes at most, in which one more 0 tells nothing; then seven bytes, of which two are kept; then the list's end.
    #[test]
    fn a_list_is_read(rt: HostRuntime) -> Result<(), Fail> {
        let text: &[u8] = b"70000\nanother line\nab";
        let mut list = List::new(rt.alloc(), text)?;
        let mut case = Vec::new(rt.alloc());
        list.read_line::<Zeros>(&mut case, 4)?;
        assert!(rt; case.as_slice() == b"7\n".as_slice());
        list.read_bytes(&mut case, 7, 2)?;
        assert!(rt; case.as_slice() == b"7\nan".as_slice());
        list.read_line::<LoneZeros>(&mut case, 20)?;
        assert!(rt; case.as_slice() == b"7\nan line\n".as_slice());
        list.read_line::<LoneZeros>(&mut case, 20)?;
        assert!(rt; case.as_slice() == b"7\nan line\nab".as_slice());
        let more = list.read_line::<LoneZeros>(&mut case, 12);
        assert!(rt; matches!(more, Ok(())));
        Ok(())
    }

    #[test]
    fn a_long_line_is_none(rt: HostRuntime) -> Result<(), Fail> {
        let text: &[u8] = b"12345\n";
        let mut list = List::new(rt.alloc(), text)?;
        let mut case = Vec::new(rt.alloc());
        let read = list.read_line::<LoneZeros>(&mut case, 5);
        assert!(rt; matches!(read, Err(ReadFault::Case(Fault::Malformed))));
        Ok(())
    }
}
