// The last question of one-query: whether the initial bads left are always false.
ghost use Rattle.std.specs.Prelude.{◌≡◌};
ghost use Rattle.rules.specs.Lent.{was};
ghost use Rattle.optimize.specs.Folder.{AsksIn, Keeps};
ghost use Rattle.optimize.specs.Process.{reply_is};
ghost use Rattle.optimize.specs.LastQuestion.{verdict_is, verdict_of};
ghost use Rattle.optimize.specs.Clauses.{AnswersLast, AtMost};

use crate::folder::ConstantFolder;
use crate::reply::Reply;
use crate::smt_solver::Question;
use tables::refusal::Refusal;

// What is known of the bads left: no last question was put, one can be true, none can, or folding removed all.
#[derive(Clone, Copy, Debug, PartialEq, Eq)]
pub(crate) enum Verdict {
    Unasked,
    Found,
    NotFound,
    NoneLeft,
}

// The number by which the tally names it: its place in the order above, from 0.
impl From<Verdict> for u64 {
    ghost from_gives = { λ verdict number. number ≡ verdict_is verdict };

    fn from(verdict: Verdict) -> u64 {
        verdict as u64
    }
}

// Yes means not found, any other reply found.
impl From<Reply> for Verdict {
    ghost from_gives = { λ reply verdict. verdict_is verdict ≡ verdict_of (reply_is reply) };

    fn from(reply: Reply) -> Verdict {
        match reply {
            Reply::Yes => Verdict::NotFound,
            Reply::No | Reply::Satisfiable => Verdict::Found,
        }
    }
}

impl ConstantFolder<'_> {
    // One always-false question covers the bads left: about the only one, or with their count about several.
    pub(crate) fn put_last_question(&mut self, bads: &[u64]) -> Result<Verdict, Refusal>
        requires { AsksIn self.old 1 }
        ensures keeps { Keeps self.old self.new }
        ensures result_stays { self.new.res.now ≡ self.old.res.now }
        ensures answers_last { AnswersLast self.old self.new (was bads) result }
        ensures at_most { AtMost self.old self.new 1 }
    {
        match bads {
            [] => Ok(Verdict::NoneLeft),
            [bad] => Ok(Verdict::from(self.ask(Question::AlwaysFalse(*bad as usize))?)),
            _ => Ok(Verdict::from(self.ask(Question::Several(bads.len()))?)),
        }
    }
}
