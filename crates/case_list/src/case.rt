// A line is a case: its name, a blank, then numbers in parts, with `|` between the parts.
// Judged: mode, result room, scratch room | words | names bytes | number, section, position, all 0 where the call is accepted.
// Labelled: node | words | names bytes | the substitute's bytes | the label's bytes.
// Called: entry point, mode, result room, scratch room | words | names bytes | number, section, position | the words of the result.
// Entry point 0 is optimize_model_impl, 1 optimize_model_with_solver, 2 optimize_model_with_input. A call that is refused leaves no words.
use crate::asked::{Asked, Call, Judging, Labelling, Room};
use crate::model::Model;
use crate::part::Part;
use gemtweed::fold::GemtweedAnswer;
use kept_lists::case::{Case, Fault, ReadFault};
use kept_lists::list::{Line, List, ends_with_lone_zero};
use kept_lists::parts::cut_line;
use kept_lists::streamed::StreamedCase;
use std::alloc::Global;
use std::io::Read;

// The most bytes: 4,096 names of 64 bytes, and some over.
const MOST_BYTES: usize = 266300;

// For each of the most numbers at most a group of its own: three numbers of 20 digits with a 0 before them, two brackets, a plus sign and three blanks.
const LONGEST_LINE: usize = 23000000;

// A case of a list whose lines have so many numbers at most.
#[derive(Drop)]
pub struct LimitCase<const MOST: usize> {
    model: Model,
    asked: Asked,
}

fn bytes_of(alloc: Global, numbers: &[u64]) -> Result<Vec<u8>, Fault> {
    if numbers.len() > MOST_BYTES {
        return Err(Fault::Malformed);
    }
    numbers
        .iter()
        .map(|number| u8::try_from(*number).map_err(|_| Fault::Malformed))
        .try_collect(alloc)
}

// The three numbers of an answer, with how many words the result has.
fn read_answer(numbers: &[u64], words: usize) -> Result<GemtweedAnswer, Fault> {
    let [number, section, position] = numbers else {
        return Err(Fault::Malformed);
    };
    Ok(GemtweedAnswer {
        number: *number,
        section: *section,
        position: *position,
        words: words as u64,
    })
}

// Whether a number touches the bar after it: a blank must stand between them.
fn touches_a_bar(parts: &str) -> bool {
    parts
        .as_bytes()
        .windows(2)
        .any(|pair| matches!(pair, [b'0'..=b'9', b'|']))
}

fn read_asked(
    alloc: Global,
    head: &[u64],
    fourth: &[u64],
    fifth: Option<Part>,
) -> Result<Asked, Fault> {
    match (head, fifth) {
        ([mode, result, scratch], None) => Ok(Asked::Judged(Judging {
            mode: *mode,
            room: Room::new(*result, *scratch),
            answer: read_answer(fourth, 0)?,
        })),
        ([node], Some(label)) => Ok(Asked::Labelled(Labelling {
            node: *node,
            substitute: bytes_of(alloc, fourth)?,
            label: label.numbers,
        })),
        ([entry, mode, result, scratch], Some(words)) => Ok(Asked::Called(Call {
            entry: (*entry).into(),
            mode: *mode,
            room: Room::new(*result, *scratch).within_largest_need()?,
            answer: read_answer(fourth, words.numbers.len())?,
            result: words.numbers,
        })),
        _ => Err(Fault::Malformed),
    }
}

// The parts of a line, five at most, which have no more numbers in all than there is room for.
fn cut_parts(alloc: Global, text: &str, most: usize) -> Result<Vec<Part>, Fault> {
    let mut parts = Vec::new(alloc);
    let mut room = most;
    for text in text.split('|') {
        if parts.len() == 5 {
            return Err(Fault::Malformed);
        }
        let part = Part::read(alloc, text)?;
        room = room
            .checked_sub(part.numbers.len())
            .ok_or(Fault::Malformed)?;
        parts.push(part)?;
    }
    Ok(parts)
}

fn read_parts<const MOST: usize>(alloc: Global, text: &str) -> Result<LimitCase<MOST>, Fault> {
    if touches_a_bar(text) {
        return Err(Fault::Malformed);
    }
    let mut parts = cut_parts(alloc, text, MOST)?.into_iter();
    let mut part = || parts.next().ok_or(Fault::Malformed);
    let (head, words, names, fourth) = (part()?, part()?, part()?, part()?);
    let fifth = parts.next();
    if parts.next().is_some() {
        return Err(Fault::Malformed);
    }
    Ok(LimitCase {
        model: Model {
            words: words.numbers,
            names: bytes_of(alloc, names.numbers.as_slice())?,
        },
        asked: read_asked(
            alloc,
            head.numbers.as_slice(),
            fourth.numbers.as_slice(),
            fifth,
        )?,
    })
}

// The name ends at the first blank.
fn read_line<const MOST: usize>(alloc: Global, line: &[u8]) -> Result<LimitCase<MOST>, Fault> {
    let mut fields = line.splitn(2, |b| *b == b' ');
    let _name = fields.next();
    let parts = fields.next().ok_or(Fault::Malformed)?;
    read_parts(alloc, str::from_utf8(parts)?)
}

impl<const MOST: usize> Line for LimitCase<MOST> {
    // A byte of the name but its first, a blank after a blank, and a 0 after one that begins a number.
    fn tells_nothing(line: &[u8], byte: u8) -> bool {
        match line {
            [first] if *first != b' ' => byte != b' ' && byte != b'\n',
            [.., b' '] if byte == b' ' => true,
            _ => byte == b'0' && ends_with_lone_zero(line),
        }
    }
}

impl<const MOST: usize> StreamedCase for LimitCase<MOST> {
    type Bench = ();

    fn bench() {}

    fn read<F: Read + Drop>(list: &mut List<F>, case: &mut Vec<u8>) -> Result<(), ReadFault> {
        list.read_line::<LimitCase<MOST>>(case, LONGEST_LINE)
    }

    fn cut(alloc: Global, list: &[u8]) -> Result<(LimitCase<MOST>, &[u8]), Fault> {
        let (line, rest) = cut_line(list)?;
        Ok((read_line(alloc, line)?, rest))
    }

    fn is_right(&self, alloc: Global, _bench: &mut ()) -> Result<bool, Fault> {
        self.asked.is_right(alloc, &self.model)
    }
}

// The same of a list that is at hand whole.
impl<const MOST: usize> Case for LimitCase<MOST> {
    fn cut(alloc: Global, list: &[u8]) -> Result<(LimitCase<MOST>, &[u8]), Fault> {
        <LimitCase<MOST> as StreamedCase>::cut(alloc, list)
    }

    fn is_right(&self, alloc: Global) -> Result<bool, Fault> {
        StreamedCase::is_right(self, alloc, &mut ())
    }
}

#[cfg(test)]
mod tests {
    use super::*;
    use std::test::Fail;

    // Judged, labelled and called.
    const LINES: [&str; 5] = [
        "judged 0 22 22 | 0 0 0 0 0 0 | 0 0 | 0 0 0\n",
        " 1 | 2 3 | 255 | | 97\n",
        "labelled 1 ||| |\n",
        "called 2 0 105494 0 | | | 12 8 0 | 1 2\nand the next\n",
        "called_as_the_last 3 0 22 22 | | | 1 1 0 |\n",
    ];

    const MOST: usize = 320000;

    const MALFORMED: [&str; 13] = [
        "\n",
        "name\n",
        "no_line_end 0 22 22 | | | 0 0 0",
        "three_parts 0 22 22 | | 0 0 0\n",
        "six_parts 1 | | | | |\n",
        "judged_by_two_numbers 0 22 | | | 0 0 0\n",
        "answer_of_two_numbers 0 22 22 | | | 0 0\n",
        "no_byte 0 22 22 | | 256 | 0 0 0\n",
        "substitute_no_byte 1 | | | 256 |\n",
        "number_at_a_bar 0 22 22| | | 0 0 0\n",
        "bar_in_brackets 0 22 22 | (1 | 2) | | 0 0 0\n",
        "more_than_the_largest_need 0 0 105495 22 | | | 0 0 0 |\n",
        "line_end_of_two_bytes 0 22 22 | | | 0 0 0\r\n",
    ];

    // As the kept lists have them. The second answer is a wrong one.
    const ANSWERED: [(&str, bool); 2] = [
        (
            "name_1_byte 0 105494 105494 | 0 0 0 0 0 0 | 1 0 1 97 | 0 0 0\n",
            true,
        ),
        (
            "wrong_answer_accepted_as_refused 0 22 22 | 0 0 0 0 0 0 | 0 0 | 12 8 0\n",
            false,
        ),
    ];

    #[test]
    fn a_line_is_a_case(rt: HostRuntime) -> Result<(), Fail> {
        for line in LINES {
            let (_, rest) = <LimitCase<MOST> as StreamedCase>::cut(rt.alloc(), line.as_bytes())?;
            assert!(rt; rest.is_empty() == !line.ends_with("next\n"), "{line}");
        }
        Ok(())
    }

    #[test]
    fn malformed_lines(rt: HostRuntime) {
        for line in MALFORMED {
            let cut = <LimitCase<MOST> as StreamedCase>::cut(rt.alloc(), line.as_bytes());
            assert!(rt; matches!(cut, Err(Fault::Malformed)), "{line}");
        }
    }

    #[test]
    fn an_answer_is_held_to_the_kept_one(rt: HostRuntime) -> Result<(), Fail> {
        for (line, is_right) in ANSWERED {
            let (case, _) = <LimitCase<MOST> as Case>::cut(rt.alloc(), line.as_bytes())?;
            let held = Case::is_right(&case, rt.alloc())?;
            assert!(rt; held == is_right, "{line}");
        }
        Ok(())
    }
}
