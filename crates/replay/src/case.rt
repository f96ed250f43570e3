// A case is a line with two numbers, how many bytes its text and its answer have; then the text, the answer and a line end.
use kept_lists::case::{Fault, ReadFault};
use kept_lists::list::{Line, List, ends_with_lone_zero};
use kept_lists::parts::{cut_line, number};
use kept_lists::streamed::StreamedCase;
use std::alloc::Global;
use std::io::Read;
use std::str;
use text_answer::answer::{ROOM, answer_text};

// Two numbers of 20 digits with a 0 before them, a blank and the line's end.
const LONGEST_LINE: usize = 44;

// The longest text, and the longest answer that is kept.
const LONGEST_TEXT: usize = 131072;

const LONGEST_ANSWER: usize = 10000009;

// How many bytes the text and the answer have.
#[derive(Clone, Copy)]
struct Sizes {
    text: usize,
    answer: usize,
}

// No digits stand for 0.
fn read_size(digits: &str, most: usize) -> Result<usize, Fault> {
    if digits.is_empty() {
        return Ok(0);
    }
    let size = number(digits)? as usize;
    if size <= most {
        Ok(size)
    } else {
        Err(Fault::Malformed)
    }
}

impl Sizes {
    fn read(line: &[u8]) -> Result<Sizes, Fault> {
        let line = str::from_utf8(line)?;
        let (text, answer) = line.split_once(' ').ok_or(Fault::Malformed)?;
        Ok(Sizes {
            text: read_size(text, LONGEST_TEXT)?,
            answer: read_size(answer, LONGEST_ANSWER)?,
        })
    }

    // How many bytes of the answer are looked at: one at least, which a line end may be, and no more than one past the longest that is printed.
    fn looked_at(self) -> usize {
        self.answer.clamp(1, ROOM + 1)
    }
}

#[derive(Drop)]
pub struct TextCase {
    text: Vec<u8>,
    answer: Vec<u8>,
}

impl Line for TextCase {
    fn tells_nothing(line: &[u8], byte: u8) -> bool {
        byte == b'0' && ends_with_lone_zero(line)
    }
}

impl StreamedCase for TextCase {
    // An array, as an answer is printed into a lent one of this size.
    type Bench = [u8; ROOM];

    fn bench() -> [u8; ROOM] {
        [0; ROOM]
    }

    fn read<F: Read + Drop>(list: &mut List<F>, case: &mut Vec<u8>) -> Result<(), ReadFault> {
        list.read_line::<TextCase>(case, LONGEST_LINE)?;
        if case.is_empty() {
            return Ok(());
        }
        let (line, _) = cut_line(case.as_slice())?;
        let sizes = Sizes::read(line)?;
        list.read_bytes(case, sizes.text, sizes.text)?;
        list.read_bytes(case, sizes.answer.max(1), sizes.looked_at())?;
        list.read_bytes(case, 1, 1)
    }

    fn cut(alloc: Global, list: &[u8]) -> Result<(TextCase, &[u8]), Fault> {
        let (line, rest) = cut_line(list)?;
        let sizes = Sizes::read(line)?;
        let (text, rest) = rest.split_at_checked(sizes.text).ok_or(Fault::Malformed)?;
        let answer = rest.split_at_checked(sizes.looked_at());
        let (answer, rest) = answer.ok_or(Fault::Malformed)?;
        let rest = rest.strip_prefix(b"\n").ok_or(Fault::Malformed)?;
        let case = TextCase {
            text: Vec::from_slice(alloc, text)?,
            answer: Vec::from_slice(alloc, answer)?,
        };
        Ok((case, rest))
    }

    fn is_right(&self, _alloc: Global, out: &mut [u8; ROOM]) -> Result<bool, Fault> {
        let size = answer_text(self.text.as_slice(), out);
        let out: &[u8] = out;
        Ok(out.get(..size) == Some(self.answer.as_slice()))
    }
}
