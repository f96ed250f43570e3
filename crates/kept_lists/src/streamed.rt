// What a kind of case has to say of itself where its list is read a case at a time, and the cases tried and counted.
ghost use Rattle.std.specs.Prelude.{◌<◌, ◌≤◌, length, IfOk};

use crate::case::{Fault, ReadFault, Tally};
use crate::list::List;
use std::alloc::Global;
use std::io::Read;

// A case with its answer, of a list that is read a case at a time.
pub trait StreamedCase: Drop {
    // What answers are worked out in: it is made once for a list.
    type Bench: Drop;

    fn bench() -> Self::Bench;

    // Puts the bytes of the next case into the vector; none at the list's end.
    fn read<F: Read + Drop>(list: &mut List<F>, case: &mut Vec<u8>) -> Result<(), ReadFault>;

    // The case that a list begins with, and what comes after it.
    fn cut(alloc: Global, list: &[u8]) -> Result<(Self, &[u8]), Fault>
    where
        Self: Sized,
        ensures { IfOk result (λ p. length p.1.now < length list.now) };

    // Whether the answer is the kept one.
    fn is_right(&self, alloc: Global, bench: &mut Self::Bench) -> Result<bool, Fault>;
}

// The case that a vector has the bytes of, no more and no fewer.
fn whole<C: StreamedCase>(alloc: Global, bytes: &[u8]) -> Result<C, Fault> {
    match C::cut(alloc, bytes)? {
        (case, []) => Ok(case),
        _ => Err(Fault::Malformed),
    }
}

pub(crate) fn count_streamed<C: StreamedCase, F: Read + Drop>(
    alloc: Global,
    list: &mut List<F>,
) -> Result<Tally, ReadFault>
    ensures { IfOk result (λ t. t.wrong ≤ t.cases) }
{
    let mut tally = Tally { cases: 0, wrong: 0 };
    let mut bench = C::bench();
    let mut bytes = Vec::new(alloc);
    for _ in 0..u64::MAX {
        bytes.clear();
        C::read(list, &mut bytes)?;
        if bytes.is_empty() {
            return Ok(tally);
        }
        let case = whole::<C>(alloc, bytes.as_slice())?;
        tally.count(case.is_right(alloc, &mut bench)?);
    }
    Err(Fault::Malformed.into())
}
