// Which bads are kept: should_retain_bad_state of optimize.rs over a list.
ghost use Rattle.std.specs.Prelude.{ℕ, ◌+◌, ◌≤◌, ◌≡◌, length, IfOk, OnOk};
ghost use Rattle.rules.specs.Lists.{All};
ghost use Rattle.rules.specs.Legal.{BadEntry};
ghost use Rattle.rules.specs.Sections.{word_of};
ghost use Rattle.rules.specs.Lent.{was, ends};
ghost use Rattle.optimize.specs.Bounds.{HasWord};
ghost use Rattle.optimize.specs.View.{table_of};
ghost use Rattle.optimize.specs.Folder.{Keeps, AsksIn, LaidIn, given_in};
ghost use Rattle.optimize.specs.Bads.{SpareIn};
ghost use Rattle.optimize.specs.Process.{reply_is};
ghost use Rattle.optimize.specs.Clauses.{JudgesBad, JudgesBads, RepliesBy, RetainsBad};

use crate::buffers::operand;
use crate::folder::ConstantFolder;
use crate::reply::Reply;
use crate::smt_solver::Question;
use tables::node::Row;
use tables::refusal::Refusal;

// How a list of bads is judged: whether the solver is asked, whether a reachable bad is refused, and the list's section. That is a number, the one
// that docs/FORMAT.md gives the list: a refusal hands it out, to C too. The place of a bad stands beside this, as it is another for each bad.
#[derive(Clone, Copy, Debug, PartialEq, Eq)]
pub(crate) struct Judging {
    pub(crate) solver: bool,
    pub(crate) terminate: bool,
    pub(crate) section: u64,
}

// Whether a bad stays, by the reply to its question: unsatisfiable drops it; satisfiable keeps it, or refuses under terminate.
fn by_reply(how: Judging, place: usize, reply: Reply) -> Result<bool, Refusal>
    ensures { RepliesBy how place (reply_is reply) result }
{
    match reply {
        Reply::No => Ok(true),
        Reply::Yes => Ok(false),
        Reply::Satisfiable => {
            if how.terminate {
                return Err(Refusal::Satisfiable(how.section, place));
            }
            Ok(true)
        }
    }
}

impl ConstantFolder<'_> {
    // Whether a bad stays, by its rewritten condition; an open one is asked about.
    fn judge_bad(&mut self, how: Judging, place: usize, condition: usize) -> Result<bool, Refusal>
        requires { AsksIn self.old 1 }
        ensures keeps { Keeps self.old self.new }
        ensures result_stays { self.new.res.now ≡ self.old.res.now }
        ensures judges_bad { JudgesBad self.old self.new how place condition result }
    {
        let value = self.get_constant(condition);
        if value == Some(0) {
            return Ok(false);
        }
        if value == Some(1) {
            if how.terminate {
                return Err(Refusal::AlwaysTrue(how.section, place));
            }
            return Ok(true);
        }
        if !how.solver {
            return Ok(true);
        }
        let reply = self.ask(Question::Satisfiable(condition))?;
        by_reply(how, place, reply)
    }

    // The condition of a bad, as it was rewritten.
    fn condition_of(&self, bad: usize) -> usize
        requires { HasWord self.now.res.now bad 2 }
        ensures { result ≡ word_of self.now.res.now bad 2 }
    {
        let res = &*self.res;
        operand(res, bad, Row::A)
    }

    // Visits a bad and judges it.
    fn should_retain_bad_state(
        &mut self,
        how: Judging,
        place: usize,
        bad: usize,
    ) -> Result<bool, Refusal>
        requires laid { LaidIn self.old }
        requires entry { BadEntry (table_of (given_in self.old)) bad }
        requires spare { SpareIn self.old 1 }
        ensures keeps { Keeps self.old self.new }
        ensures retains_bad { RetainsBad self.old self.new how place bad result }
        ensures laid { OnOk result (LaidIn self.new) }
        ensures spare { OnOk result ((c : ℕ) → SpareIn self.old (c + 1) → SpareIn self.new c) }
    {
        self.visit(bad)?;
        let condition = self.condition_of(bad);
        self.judge_bad(how, place, condition)
    }

    // Judges the bads of a list in order; those that stay stand at the start of `kept`. Answers how many they are.
    pub(crate) fn judge_bads(
        &mut self,
        how: Judging,
        bads: &[u64],
        kept: &mut [u64],
    ) -> Result<usize, Refusal>
        requires laid { LaidIn self.old }
        requires entries { All (BadEntry (table_of (given_in self.old))) bads.now }
        requires spare { SpareIn self.old (length bads.now) }
        requires room { length bads.now ≤ length kept.old }
        ensures keeps { Keeps self.old self.new }
        ensures judges_bads { JudgesBads self.old self.new how (was bads) (ends kept) result }
        ensures laid { OnOk result (LaidIn self.new) }
        ensures spare { OnOk result ((c : ℕ) → SpareIn self.old (length bads.now + c) → SpareIn self.new c) }
        ensures few { IfOk result (λ count. count ≤ length bads.now) }
    {
        let mut count = 0; // counted by hand: the bads that stay go into lent words, without a heap
        for (place, &bad) in bads.iter().enumerate() {
            let stays = self.should_retain_bad_state(how, place, bad as usize)?;
            if stays {
                kept[count] = bad;
                count += 1;
            }
        }
        Ok(count)
    }
}
