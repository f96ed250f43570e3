// A line is a case: the code of a node kind, the left and the right operand and the answer, in decimal with single blanks.
// Not has the sort's code as its right operand, Ext 0.
use crate::operator::Operator;
use kept_lists::case::{Fault, ReadFault};
use kept_lists::list::{Line, List, ends_with_lone_zero};
use kept_lists::parts::{cut_line, number_in};
use kept_lists::streamed::StreamedCase;
use std::alloc::Global;
use std::io::Read;

// Four numbers of 20 digits with a 0 before them, a blank or the line's end after each.
const LONGEST_LINE: usize = 88;

#[derive(Clone, Copy)]
pub struct OperatorCase {
    operator: Operator,
    left: u64,
    right: u64,
    answer: u64,
}

fn read_line(line: &[u8]) -> Result<OperatorCase, Fault> {
    let mut words = line.split(|b| *b == b' ');
    let mut word = || words.next().ok_or(Fault::Malformed);
    let case = OperatorCase {
        operator: number_in(word()?)?.try_into()?,
        left: number_in(word()?)?,
        right: number_in(word()?)?,
        answer: number_in(word()?)?,
    };
    match words.next() {
        Some(_) => Err(Fault::Malformed),
        None => Ok(case),
    }
}

impl Line for OperatorCase {
    fn tells_nothing(line: &[u8], byte: u8) -> bool {
        byte == b'0' && ends_with_lone_zero(line)
    }
}

impl StreamedCase for OperatorCase {
    type Bench = ();

    fn bench() {}

    fn read<F: Read + Drop>(list: &mut List<F>, case: &mut Vec<u8>) -> Result<(), ReadFault> {
        list.read_line::<OperatorCase>(case, LONGEST_LINE)
    }

    fn cut(_alloc: Global, list: &[u8]) -> Result<(OperatorCase, &[u8]), Fault> {
        let (line, rest) = cut_line(list)?;
        Ok((read_line(line)?, rest))
    }

    fn is_right(&self, _alloc: Global, _bench: &mut ()) -> Result<bool, Fault> {
        Ok(self.operator.of(self.left, self.right)? == self.answer)
    }
}
