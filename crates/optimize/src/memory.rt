// The walk down the Writes of a Read at a constant address: find_in_memory of optimize.rs.
ghost use Rattle.std.specs.Prelude.{◌≡◌, ◌≤◌};
ghost use Rattle.btor.specs.Readings.{reading_is};
ghost use Rattle.rules.specs.Memory.{find};
ghost use Rattle.optimize.specs.Folder.{FallsIn, count_in, rows_in};
ghost use Rattle.optimize.specs.Folding.{search_is, LooksAt};

use crate::buffers::{operand, word};
use crate::folder::ConstantFolder;
use btor::reading::Reading;
use tables::node::{NodeKind, Row};

// The value of the first Write that holds the address, how many Writes the search looked at, and how many unsettled ones it passed.
#[derive(Clone, Copy, Debug, PartialEq, Eq)]
pub(crate) struct Search {
    pub(crate) found: Option<usize>,
    pub(crate) looked: usize,
    pub(crate) passed: usize,
}

// One place of the chain: no Write; the Write that holds the address, with its value; a Write at which the walk gives up; another Write,
// with its memory.
#[derive(Clone, Copy, Debug, PartialEq, Eq)]
pub(crate) enum Look {
    End,
    Hit(usize),
    Stop,
    Settled(usize),
    Unsettled(usize),
}

impl ConstantFolder<'_> {
    // Looks at one place of the chain. A Write whose address is no constant is unsettled: the Rust passes it, the standard's reading gives up there.
    fn look_at(&self, at: usize, address: u64) -> Look
        requires { FallsIn self.now }
        ensures { LooksAt (reading_is self.now.call.mode.reading) (count_in self.now) self.now.walk.made self.now.res.now at address result }
    {
        let res = &*self.res;
        if self.call.node_count() <= at {
            return Look::End;
        }
        if word(res, at, Row::CODE) != NodeKind::WRITE {
            return Look::End;
        }
        let next = operand(res, at, Row::A);
        let Some(imm) = self.get_constant(operand(res, at, Row::B)) else {
            return match self.call.mode.reading {
                Reading::Rust => Look::Unsettled(next),
                Reading::Standard => Look::Stop,
            };
        };
        if imm == address {
            Look::Hit(operand(res, at, Row::C))
        } else {
            Look::Settled(next)
        }
    }

    // Walks down the Writes to the first that holds the address; any other Write is passed, in the Rust's reading also an unsettled one.
    pub(crate) fn find_in_memory(&self, memory: usize, address: u64) -> Search
        requires { FallsIn self.now }
        ensures result_value { search_is result ≡ find (reading_is self.now.call.mode.reading) (count_in self.now) (rows_in self.now) address memory }
        ensures looked_bound { (result.looked ≤ count_in self.now) × (result.passed ≤ result.looked) }
    {
        let mut at = memory;
        let mut looked = 0;
        let mut passed = 0;
        // A loop that breaks with what it found, not an iterator: where it breaks says whether the last Write is counted.
        let found = loop {
            match self.look_at(at, address) {
                Look::End => break None,
                Look::Hit(value) => {
                    looked += 1; // the hit is counted
                    break Some(value);
                }
                Look::Stop => {
                    looked += 1; // and so is this one
                    break None;
                }
                Look::Settled(next) => {
                    at = next;
                }
                Look::Unsettled(next) => {
                    passed += 1;
                    at = next;
                }
            }
            looked += 1;
        };
        Search {
            found,
            looked,
            passed,
        }
    }
}
