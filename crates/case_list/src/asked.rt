// What a case asks of the libraries, with the kept answer: a call that is judged, a label, or a whole call. Before a whole call every bit of both
// buffers is 1.
use crate::entry::EntryPoint;
use crate::model::Model;
use gemtweed::fold::GemtweedAnswer;
use kept_lists::case::Fault;
use std::alloc::Global;
use tables::judge::judge;
use tables::label::label;
use tables::limits::Limits;

// The largest need of a call, and so the most room that a case may lend it.
const LARGEST_NEED: usize = 105494;

// The room of result and scratch.
#[derive(Clone, Copy)]
pub struct Room {
    pub result: usize,
    pub scratch: usize,
}

impl Room {
    pub fn new(for_result: u64, for_scratch: u64) -> Room {
        Room {
            result: for_result as usize,
            scratch: for_scratch as usize,
        }
    }

    pub fn within_largest_need(self) -> Result<Room, Fault> {
        if self.result <= LARGEST_NEED && self.scratch <= LARGEST_NEED {
            Ok(self)
        } else {
            Err(Fault::Malformed)
        }
    }
}

// A call that is judged alone, whose answer has no words of a result. A mode is the number that a line has, here and of a whole call: one above the
// highest is a case too, which is to be refused.
#[derive(Clone, Copy)]
pub struct Judging {
    pub mode: u64,
    pub room: Room,
    pub answer: GemtweedAnswer,
}

// The label is in numbers: a kept one that no byte has is a wrong answer.
#[derive(Drop)]
pub struct Labelling {
    pub node: u64,
    pub substitute: Vec<u8>,
    pub label: Vec<u64>,
}

#[derive(Drop)]
pub struct Call {
    pub entry: EntryPoint,
    pub mode: u64,
    pub room: Room,
    pub answer: GemtweedAnswer,
    pub result: Vec<u64>,
}

#[derive(Drop)]
pub enum Asked {
    Judged(Judging),
    Labelled(Labelling),
    Called(Call),
}

// Whether a buffer holds the words, and zeros after them.
fn holds(buffer: &[u64], words: &[u64]) -> bool {
    buffer
        .strip_prefix(words)
        .is_some_and(|rest| rest.iter().all(|word| *word == 0))
}

impl Judging {
    fn is_right(&self, model: &Model) -> bool {
        let told = judge(
            self.mode,
            model.words.as_slice(),
            model.names.as_slice(),
            self.room.result,
            self.room.scratch,
            Limits::house(),
        );
        GemtweedAnswer::from(told.map(|_| 0)) == self.answer
    }
}

impl Labelling {
    fn is_right(&self, model: &Model) -> bool {
        let found = label(
            model.words.as_slice(),
            model.names.as_slice(),
            self.substitute.as_slice(),
            self.node,
            Limits::house(),
        );
        let numbers = found.iter().map(|b| u64::from(*b));
        numbers.eq(self.label.iter().copied())
    }
}

impl Call {
    fn is_right(&self, alloc: Global, model: &Model) -> Result<bool, Fault> {
        let mut result = vec![in alloc; u64::MAX; self.room.result]?;
        let mut scratch = vec![in alloc; u64::MAX; self.room.scratch]?;
        let told = self.entry.call(
            self.mode,
            model,
            result.as_mut_slice(),
            scratch.as_mut_slice(),
        );
        Ok(
            GemtweedAnswer::from(told) == self.answer
                && holds(result.as_slice(), self.result.as_slice())
                && holds(scratch.as_slice(), &[]),
        )
    }
}

impl Asked {
    pub fn is_right(&self, alloc: Global, model: &Model) -> Result<bool, Fault> {
        match self {
            Asked::Judged(judging) => Ok(judging.is_right(model)),
            Asked::Labelled(labelling) => Ok(labelling.is_right(model)),
            Asked::Called(call) => call.is_right(alloc, model),
        }
    }
}
