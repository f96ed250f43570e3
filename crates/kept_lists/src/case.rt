// What a kind of case has to say of itself, and the cases of a list of bytes tried and counted.
ghost use Rattle.std.specs.Prelude.{◌≡◌, ◌+◌, ◌^◌, ◌<◌, ◌≤◌, if◌then◌else◌, ◌++◌, length, codes, decimal, Some, IfOk};

use std::alloc::{AllocError, Global};
use std::str::Utf8Error;
use std::{fmt, io};
use thiserror::Error;

// Why a list's cases are not counted.
#[derive(Debug, Drop, Error)]
pub enum Fault {
    #[error("malformed list")]
    Malformed,
    #[error(transparent)]
    Memory(#[from(alloc)] AllocError),
}

// Why a list's cases are not read. It is a type of its own, as an io::Error is large, and a Fault goes up from each number.
#[derive(Debug, Drop, Error)]
pub enum ReadFault {
    #[error(transparent)]
    Case(#[from] Fault),
    #[error(transparent)]
    Read(#[from] io::Error),
}

impl From<Utf8Error> for Fault {
    fn from(_: Utf8Error) -> Fault {
        Fault::Malformed
    }
}

// A case with its answer, of a list that is at hand whole.
pub trait Case: Drop {
    // The case that a list begins with, and what comes after it.
    fn cut(alloc: Global, list: &[u8]) -> Result<(Self, &[u8]), Fault>
    where
        Self: Sized,
        ensures { IfOk result (λ p. length p.1.now < length list.now) };

    // Whether the answer is the kept one.
    fn is_right(&self, alloc: Global) -> Result<bool, Fault>;
}

// How many cases there are, and how many of them have another answer than the kept one.
#[derive(Clone, Copy)]
pub(crate) struct Tally {
    pub(crate) cases: usize,
    pub(crate) wrong: usize,
}

impl Tally {
    pub(crate) fn count(&mut self, is_right: bool)
        requires counted { self.old.wrong ≤ self.old.cases }
        requires room { self.old.cases + 1 < 2 ^ 64 }
        ensures cases { self.new.cases ≡ self.old.cases + 1 }
        ensures wrong { self.new.wrong ≡ self.old.wrong + (if is_right then 0 else 1) }
    {
        self.cases += 1;
        if !is_right {
            self.wrong += 1;
        }
    }
}

impl fmt::Display for Tally {
    ghost output = { λ tally. Some (decimal tally.cases ++ (codes " cases, " ++ (decimal tally.wrong ++ codes " wrong"))) };

    fn fmt<W: fmt::Write>(&self, f: &mut fmt::Formatter<W>) -> fmt::Result {
        let Tally { cases, wrong } = *self;
        write!(f, "{cases} cases, {wrong} wrong")
    }
}

pub(crate) fn count_cases<C: Case>(alloc: Global, list: &[u8]) -> Result<Tally, Fault>
    ensures { IfOk result (λ t. (t.wrong ≤ t.cases) × (t.cases ≤ length list.now)) }
{
    let mut tally = Tally { cases: 0, wrong: 0 };
    let mut rest = list;
    // No iterator of cases: each is cut with memory of its own, and the first fault ends the count.
    while !rest.is_empty() {
        let (case, after) = C::cut(alloc, rest)?;
        tally.count(case.is_right(alloc)?);
        rest = after;
    }
    Ok(tally)
}

#[cfg(test)]
pub(crate) mod tests {
    use super::*;
    use crate::parts::{cut_line, number_in};
    use std::test::Fail;

    // A line is a case, a number, which is right where it is 1.
    #[derive(Drop)]
    pub(crate) struct Row {
        number: u64,
    }

    impl Case for Row {
        fn cut(_alloc: Global, list: &[u8]) -> Result<(Row, &[u8]), Fault> {
            let (line, rest) = cut_line(list)?;
            let number = number_in(line)?;
            Ok((Row { number }, rest))
        }

        fn is_right(&self, _alloc: Global) -> Result<bool, Fault> {
            Ok(self.number == 1)
        }
    }

    #[test]
    fn cases_are_counted(rt: HostRuntime) -> Result<(), Fail> {
        for (list, cases, wrong) in [("", 0, 0), ("1\n", 1, 0), ("1\n0\n1\n", 3, 1)] {
            let tally = count_cases::<Row>(rt.alloc(), list.as_bytes())?;
            assert_eq!(rt; (tally.cases, tally.wrong), (cases, wrong), "{list}");
        }
        Ok(())
    }

    #[test]
    fn a_list_that_has_no_case_is_none(rt: HostRuntime) {
        for list in ["1\n0", "1\n\n", "1\nx\n"] {
            let counted = count_cases::<Row>(rt.alloc(), list.as_bytes());
            assert!(rt; matches!(counted, Err(Fault::Malformed)), "{list}");
        }
    }
}
