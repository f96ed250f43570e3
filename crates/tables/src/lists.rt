// Rules 6 and 7 over the three lists of a table, entry by entry.
ghost use Rattle.std.specs.Prelude.{◌≡◌, ℕ, ◌+◌, ◌^◌, ◌<◌, ◌≤◌, length, get_or, set, ltb, true, false};
ghost use Rattle.rules.specs.Lists.{all_true, member};
ghost use Rattle.rules.specs.Check.{sequential_entry, bad_entry, check_bads};
ghost use Rattle.tables.specs.SectionAnswers.{words_in};
ghost use Rattle.tables.specs.Judging.{judged_of, nodes_of, states_of, Marks, sequentials_in};

use crate::node::NodeKind;
use crate::refusal::Refusal;
use crate::sections::Part;
use crate::table::Table;

// How many nodes have a mark: in a table with at most FEW nodes, and in a larger one. Only as many as needed are cleared.
const FEW: usize = 4096;

const MANY: usize = 65536;

// Marks a state, if it has a mark. By index: of what `get_mut` lends, std does not say that the slice ends with it.
fn mark(seen: &mut [bool], state: u64)
    ensures { seen.new ≡ set seen.old state true }
{
    let place = state as usize;
    if place < seen.len() {
        seen[place] = true;
    }
}

impl<'a> Table<'a> {
    // The entries of a list.
    pub(crate) fn list(self, part: Part) -> &'a [u64]
        requires { part.start + part.count ≤ length self.words.now }
        ensures { result.now ≡ words_in self.entry.words.now 1 part }
    {
        &self.words[part.start..part.start + part.count]
    }

    #[tactic(auto, using(crate::proofs::ListLaws::table_count))]
    fn has_node(self, number: u64) -> bool
        ensures { result ≡ ltb number (length (nodes_of self.entry)) }
    {
        number < self.sections.nodes.count as u64
    }

    // Whether an entry of section 2 is a Next of the table whose state has an init.
    fn is_sequential(self, entry: u64) -> bool
        ensures { result ≡ all_true (sequential_entry (nodes_of self.entry) entry) }
    {
        let next = self.row(entry);
        self.has_node(entry) && next.code == NodeKind::NEXT && self.row(next.a).b == 1
    }

    // Whether an entry of section 3 or 4 is a Bad of the table.
    fn is_bad(self, entry: u64) -> bool
        ensures { result ≡ all_true (bad_entry (nodes_of self.entry) entry) }
    {
        self.has_node(entry) && self.row(entry).code == NodeKind::BAD
    }

    // The section is the number that a refusal tells.
    pub(crate) fn judge_bads(self, bads: &[u64], section: u64) -> Result<(), Refusal>
        ensures { judged_of result ≡ check_bads (nodes_of self.entry) section 0 bads.now }
    {
        match bads.iter().position(|bad| !self.is_bad(*bad)) {
            Some(place) => Err(Refusal::Entry(section, place)),
            None => Ok(()),
        }
    }

    // Whether one of some sequentials is of a state.
    fn is_listed(self, before: &[u64], state: u64) -> bool
        ensures { result ≡ member state (states_of (nodes_of self.entry) before.now) }
    {
        before.iter().any(|entry| state == self.row(*entry).a)
    }

    // The same by the state's mark, where it has one.
    fn was_listed(self, seen: &[bool], before: &[u64], state: u64) -> bool
        requires { Marks (states_of (nodes_of self) before.now) seen.now }
        ensures { result ≡ member state (states_of (nodes_of self.entry) before.now) }
    {
        match seen.get(state as usize) {
            Some(mark) => *mark,
            None => self.is_listed(before, state),
        }
    }

    // Section 2 over lent marks that are not set. A state without a mark is looked for among the entries.
    fn judge_marked(self, seen: &mut [bool]) -> Result<(), Refusal>
        requires { (k : ℕ) → get_or seen.old k false ≡ false }
        ensures { judged_of result ≡ sequentials_in self.entry.words.now self.entry.sections }
    {
        let sequentials = self.list(self.sections.sequentials);
        for (place, entry) in sequentials.iter().enumerate() {
            if !self.is_sequential(*entry) {
                return Err(Refusal::Entry(2, place));
            }
            let state = self.row(*entry).a;
            if self.was_listed(seen, &sequentials[..place], state) {
                return Err(Refusal::SecondSequential(place));
            }
            mark(seen, state);
        }
        Ok(())
    }

    // So many marks are lent, in a function of their own, so that a small table does not clear those of a large one.
    #[inline(never)]
    fn judge_by_marks<const MARKS: usize>(self) -> Result<(), Refusal>
        requires { MARKS < 2 ^ 32 }
        ensures { judged_of result ≡ sequentials_in self.entry.words.now self.entry.sections }
    {
        let mut seen = [false; MARKS];
        self.judge_marked(&mut seen)
    }

    pub(crate) fn judge_sequentials(self) -> Result<(), Refusal>
        ensures { judged_of result ≡ sequentials_in self.entry.words.now self.entry.sections }
    {
        if FEW < self.sections.nodes.count {
            self.judge_by_marks::<MANY>()
        } else {
            self.judge_by_marks::<FEW>()
        }
    }
}
