// The result's nine sections, written into the lent buffer one behind the other.
ghost use Rattle.std.specs.Prelude.{◌≡◌, [], ◌∷◌, ◌+◌, ◌*◌, ◌≤◌, length};
ghost use Rattle.rules.specs.Lists.{sum};
ghost use Rattle.rules.specs.Lent.{was};
ghost use Rattle.rules.specs.Result.{is_replaced, listed};
ghost use Rattle.optimize.specs.Bounds.{constants_at, most_nodes, room_of};
ghost use Rattle.optimize.specs.View.{mark_of};
ghost use Rattle.optimize.specs.ResultView.{entries_in, front_words, kept_words, pair_words};
ghost use Rattle.optimize.specs.LastQuestion.{verdict_is};
ghost use Rattle.optimize.specs.Ending.{Ended};
ghost use Rattle.optimize.specs.Clauses.{HandsOver, HasSpace, Writes};

use crate::folder::ConstantFolder;
use crate::last_question::Verdict;
use crate::lists::Lists;
use crate::mark::Mark;
use crate::walk::Walk;
use tables::node::Row;

// How many of the `n` nodes have a replacement.
fn count_replaced(scratch: &[u64], n: usize) -> usize
    requires { n + n ≤ length scratch.now }
    ensures { result ≡ sum n (λ k. is_replaced (mark_of n scratch.now k)) }
{
    let (marks, after) = scratch.split_at(n);
    marks
        .iter()
        .zip(after)
        .filter(|(word, by)| matches!(Mark::from((**word, *by)), Mark::Replaced(_)))
        .count()
}

// A result's words: the lent buffer, and the place where the next word goes.
#[derive(Drop)]
pub(crate) struct ResultWords<'a> {
    pub(crate) res: &'a mut [u64],
    pub(crate) at: usize,
}

// Each asks for the room of what it writes (HasSpace): that is no invariant, as each word written leaves room for one less.
impl ResultWords<'_> {
    // A count and the words of a section: it counts entries, of which some have two words or four.
    fn section(&mut self, count: u64, words: &[u64])
        requires { HasSpace self.old (1 + length words.now) }
        ensures { Writes self.old self.new (count ∷ was words) }
    {
        let end = self.at + 1 + words.len();
        self.res[self.at] = count;
        self.res[self.at + 1..end].copy_from_slice(words);
        self.at = end;
    }

    // A list, after its count.
    fn list(&mut self, list: &[u64])
        requires { HasSpace self.old (1 + length list.now) }
        ensures { Writes self.old self.new (listed (was list)) }
    {
        self.section(list.len() as u64, list);
    }

    // The counts before the rows and before the constants, which stand in place.
    fn counts(&mut self, n: usize, made: usize)
        requires { (self.old.at ≡ 0) × (made ≤ n) × (n ≤ most_nodes) × (room_of n ≤ length self.old.res.now) }
        ensures writes { Writes self.old self.new (front_words n made self.old.res.now) }
        ensures place { self.new.at ≡ constants_at n + 2 * (2 + made) }
    {
        self.res[0] = n as u64;
        self.res[1 + Row::WIDTH * n] = (2 + made) as u64;
        self.at = 2 + Row::WIDTH * n + 2 * (2 + made);
    }

    // A node and its replacement.
    fn pair(&mut self, node: usize, by: usize)
        requires { HasSpace self.old 2 }
        ensures { Writes self.old self.new (node ∷ by ∷ []) }
    {
        self.res[self.at] = node as u64;
        self.res[self.at + 1] = by as u64;
        self.at += 2;
    }

    // Each replaced node and its replacement, by rising node, after their count.
    fn replacements(&mut self, scratch: &[u64], n: usize)
        requires { (n + n ≤ length scratch.now) × HasSpace self.old (1 + 2 * n) }
        ensures writes { Writes self.old self.new (pair_words n (was scratch)) }
        ensures upper_bound { self.new.at ≤ self.old.at + 1 + 2 * n }
    {
        self.section(count_replaced(scratch, n) as u64, &[]);
        let (marks, after) = scratch.split_at(n);
        for (node, (&word, by)) in marks.iter().zip(after).enumerate() {
            if let Mark::Replaced(by) = Mark::from((word, by)) {
                self.pair(node, by);
            }
        }
    }

    // The three kept lists.
    fn lists(&mut self, kept: Lists)
        requires { HasSpace self.old (3 + entries_in kept) }
        ensures writes { Writes self.old self.new (kept_words kept.entry) }
        ensures place { self.new.at ≡ self.old.at + 3 + entries_in kept.entry }
    {
        self.list(kept.sequentials);
        self.list(kept.initial);
        self.list(kept.later);
    }

    // The tally of five, after its count.
    fn tally(&mut self, walk: Walk, verdict: Verdict)
        requires { HasSpace self.old 6 }
        ensures { Writes self.old self.new (listed (walk.taken ∷ walk.used ∷ walk.looked ∷ walk.passed ∷ verdict_is verdict ∷ [])) }
    {
        let tally = [
            walk.taken as u64,
            walk.used as u64,
            walk.looked as u64,
            walk.passed as u64,
            u64::from(verdict),
        ];
        self.list(&tally);
    }
}

impl ConstantFolder<'_> {
    // Writes the nine sections of the result, and zeros after them. Answers how many words the sections are.
    pub(crate) fn write_result(self, kept: Lists, verdict: Verdict) -> usize
        requires { Ended self kept }
        ensures { HandsOver self.entry kept.entry verdict self.exit.1.0.now result }
    {
        let ConstantFolder {
            call,
            res,
            scratch,
            walk,
        } = self;
        let walk = walk.within(call);
        let n = call.node_count();
        let scratch = &*scratch;
        let questions = &scratch[2 * n..2 * n + 4 * walk.asked];
        let mut words = ResultWords {
            res: &mut *res,
            at: 0,
        };
        words.counts(n, walk.made);
        words.replacements(scratch, n);
        words.lists(kept);
        words.list(&call.inputs[walk.taken..]);
        words.section(walk.asked as u64, questions);
        words.tally(walk, verdict);
        let end = words.at;
        res[end..].fill(0);
        end
    }
}
