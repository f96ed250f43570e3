// A reader that holds the names bytes and its place, and name `k` by way of it.
// The functions over the reader are thin: each takes it apart and leaves the work to a function on the bytes and the place. `next` is that of
// no Iterator: as a public function it takes the reader by value, and may not change that.
ghost use Rattle.std.specs.Prelude.{◌≡◌};
ghost use Rattle.names.specs.Reading.{next_of, next_at, name_at, after_at, begins_at, name_in};

use crate::place::{after, begins_at, name_at, next_at};
use tables::names::NameSpan;
use tables::refusal::Refusal;

#[derive(Clone, Copy, Debug, PartialEq, Eq)]
pub struct NameReader<'a> {
    names: &'a [u8],
    at: usize,
}

impl<'a> NameReader<'a> {
    // A reader at the first name, past the two bytes of the count.
    pub fn new(names: &'a [u8]) -> NameReader<'a>
        ensures { (result.names ≡ names.entry) × (result.at ≡ 2) }
    {
        NameReader { names, at: 2 }
    }

    // A reader at name `k`; at the end of the bytes where there is no name `k`.
    pub fn at_name(names: &'a [u8], k: u64) -> NameReader<'a>
        ensures { (result.names ≡ names.entry) × (result.at ≡ begins_at names.now k) }
    {
        let at = begins_at(names, k);
        NameReader { names, at }
    }

    // The next name's place and length, or that there is none.
    pub fn next(self) -> Result<Option<NameSpan>, Refusal>
        ensures { next_of result ≡ next_at self.entry.names.now self.entry.at }
    {
        next_at(self.names, self.at)
    }

    // The next name, as a part of the lent bytes; no bytes where there is none.
    pub fn name(self) -> &'a [u8]
        ensures { result.now ≡ name_at self.entry.names.now self.entry.at }
    {
        name_at(self.names, self.at)
    }

    // The reader past the next name; where it stands if there is none.
    pub fn moved(self) -> NameReader<'a>
        ensures { (result.names ≡ self.entry.names) × (result.at ≡ after_at self.entry.names.now self.entry.at) }
    {
        let at = after(self.names, self.at);
        NameReader { at, ..self }
    }
}

// Name `k`, as a part of the names bytes: names count from 1. No bytes where there is no name `k`, or the bytes are refused.
#[tactic(auto, using(crate::proofs::PlaceLaws::name_begins))]
pub fn name<'a>(names: &'a [u8], k: u64) -> &'a [u8]
    ensures { result.now ≡ name_in names.now k }
{
    NameReader::at_name(names, k).name()
}
