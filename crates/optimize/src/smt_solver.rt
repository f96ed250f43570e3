// The questions of SMTSolver; the replies of the call stand in place of a solver.
ghost use Rattle.std.specs.Prelude.{◌<◌, ◌≡◌, [], length, drop};
ghost use Rattle.rules.specs.Questions.{ask, ask_or, ask_bit, quiet, first_reply, other_replies, most};
ghost use Rattle.optimize.specs.View.{fold_is};
ghost use Rattle.optimize.specs.Folder.{Keeps, AsksIn};
ghost use Rattle.optimize.specs.Process.{question_is, first_is, second_is, then_ask_at};
ghost use Rattle.optimize.specs.Clauses.{Asks, AtMost, Solves};

use crate::fold::Folded;
use crate::folder::ConstantFolder;
use crate::reply::Reply;
use tables::refusal::Refusal;

// What the solver is asked: of a node, of a node and another, of the condition of a bad, or of so many bads that are left.
#[derive(Clone, Copy)]
pub(crate) enum Question {
    AlwaysTrue(usize),
    AlwaysFalse(usize),
    Equal(usize, usize),
    Satisfiable(usize),
    Several(usize),
}

impl Question {
    // The three words by which the result names it: its number, and what it is about, whose second is 0 where that is one thing.
    fn words(self) -> (u64, usize, usize)
        ensures { (result.0 ≡ question_is self) × (result.1 ≡ first_is self) × (result.2 ≡ second_is self) }
    {
        match self {
            Question::AlwaysTrue(node) => (1, node, 0),
            Question::AlwaysFalse(node) => (2, node, 0),
            Question::Equal(node, other) => (3, node, other),
            Question::Satisfiable(condition) => (4, condition, 0),
            Question::Several(count) => (5, count, 0),
        }
    }

    // The greatest reply that it can have.
    fn most(self) -> u64
        ensures { result ≡ most (question_is self) }
    {
        match self {
            Question::Satisfiable(_) => 2,
            _ => 1,
        }
    }
}

// The first reply left, and how many are used once it is; a missing one counts as 0. The replies are lent words, without a heap, and how many are
// used is what the tally reports: it stands in the walk, not beside them.
fn next_reply(replies: &[u64], used: usize) -> (u64, usize)
    ensures value { result.0 ≡ first_reply (drop used replies.now) }
    ensures used_after { drop result.1 replies.now ≡ other_replies (drop used replies.now) }
    ensures used_in_bounds { 0 < result.0 → used < length replies.now }
{
    match replies.get(used) {
        Some(reply) => (*reply, used + 1),
        None => (0, used),
    }
}

// Each asks for room for the questions that it puts (AsksIn). That is no invariant of the folder: there is room for as many as are still due, and
// each question put leaves room for one less.
impl ConstantFolder<'_> {
    // Puts a question, and answers the reply that it took.
    pub(crate) fn ask(&mut self, question: Question) -> Result<Reply, Refusal>
        requires { AsksIn self.old 1 }
        ensures keeps { Keeps self.old self.new }
        ensures result_stays { self.new.res.now ≡ self.old.res.now }
        ensures asks { Asks self.old self.new result (λ count σ. ask count σ (question_is question) (first_is question) (second_is question) []) }
        ensures at_most { AtMost self.old self.new 1 }
    {
        let (number, used) = next_reply(self.call.replies, self.walk.used);
        let reply = match Reply::try_from(number) {
            Ok(reply) if number <= question.most() => reply,
            _ => return Err(Refusal::Reply(self.walk.used)),
        };
        let at = 2 * self.call.node_count() + 4 * self.walk.asked;
        let (kind, first, second) = question.words();
        self.scratch[at] = kind;
        self.scratch[at + 1] = first as u64;
        self.scratch[at + 2] = second as u64;
        self.scratch[at + 3] = number;
        self.walk.used = used;
        self.walk.asked += 1;
        Ok(reply)
    }

    // A question about a node that stays, where a yes gives the fold.
    pub(crate) fn ask_or(&mut self, question: Question, fold: Folded) -> Result<Folded, Refusal>
        requires { AsksIn self.old 1 }
        ensures keeps { Keeps self.old self.new }
        ensures result_stays { self.new.res.now ≡ self.old.res.now }
        ensures solves { Solves self.old self.new result (λ count n. ask_or count (question_is question) (first_is question) (second_is question) (fold_is n fold) quiet) }
        ensures at_most { AtMost self.old self.new 1 }
    {
        let reply = self.ask(question)?;
        match reply {
            Reply::Yes => Ok(fold),
            _ => Ok(Folded::Stays),
        }
    }

    // One more question, where those before it had no yes.
    pub(crate) fn then_ask(
        &mut self,
        before: Folded,
        next: Question,
        fold: Folded,
    ) -> Result<Folded, Refusal>
        requires { AsksIn self.old 1 }
        ensures keeps { Keeps self.old self.new }
        ensures result_stays { self.new.res.now ≡ self.old.res.now }
        ensures solves { Solves self.old self.new result (λ count n. then_ask_at count (question_is next) (first_is next) (second_is next) (fold_is n fold) (fold_is n before)) }
        ensures at_most { AtMost self.old self.new 1 }
    {
        if before != Folded::Stays {
            return Ok(before);
        }
        self.ask_or(next, fold)
    }

    // Asks whether a node is always true, then whether it is always false.
    pub(crate) fn ask_bit(&mut self, node: usize) -> Result<Folded, Refusal>
        requires { AsksIn self.old 2 }
        ensures keeps { Keeps self.old self.new }
        ensures result_stays { self.new.res.now ≡ self.old.res.now }
        ensures solves { Solves self.old self.new result (λ count n. ask_bit count n node quiet) }
        ensures at_most { AtMost self.old self.new 2 }
    {
        let first = self.ask_or(Question::AlwaysTrue(node), Folded::Shared(true))?;
        self.then_ask(first, Question::AlwaysFalse(node), Folded::Shared(false))
    }
}
