// Which sequentials are kept: should_retain_sequential of optimize.rs.
ghost use Rattle.std.specs.Prelude.{◌≤◌, ◌≡◌, not, length};
ghost use Rattle.rules.specs.Lists.{All};
ghost use Rattle.rules.specs.Table.{node_at};
ghost use Rattle.rules.specs.Legal.{Sequential};
ghost use Rattle.rules.specs.Whole.{trivial};
ghost use Rattle.rules.specs.Lent.{was};
ghost use Rattle.optimize.specs.Folder.{Keeps, given_in};
ghost use Rattle.optimize.specs.View.{table_of};
ghost use Rattle.optimize.specs.Clauses.{JudgesNext, JudgesNexts};

use crate::buffers::{operand, row_constant};
use crate::call::Call;
use crate::folder::ConstantFolder;
use crate::mark::Mark;
use tables::node::Row;

// Whether a Next is kept: not where next is the state itself, nor where init and next are constants of equal number.
fn should_retain_sequential(call: Call, sequential: usize) -> bool
    requires { Sequential (table_of call.given.now) sequential }
    ensures { result ≡ not (trivial (table_of call.entry.given.now) (node_at (table_of call.entry.given.now) sequential)) }
{
    let given = call.given;
    let state = operand(given, sequential, Row::A);
    let next = operand(given, sequential, Row::B);
    if state == next {
        return false;
    }
    let Some(init_imm) = row_constant(given, operand(given, state, Row::A)) else {
        return true;
    };
    let Some(next_imm) = row_constant(given, next) else {
        return true;
    };
    next_imm != init_imm
}

impl ConstantFolder<'_> {
    // Whether a sequential is kept; where it is not, its init replaces its state from then on.
    fn judge_sequential(&mut self, sequential: usize) -> bool
        requires { Sequential (table_of (given_in self.old)) sequential }
        ensures keeps { Keeps self.old self.new }
        ensures walk { self.new.walk ≡ self.old.walk }
        ensures judges_next { JudgesNext self.old self.new sequential result }
    {
        if should_retain_sequential(self.call, sequential) {
            return true;
        }
        let given = self.call.given;
        let state = operand(given, sequential, Row::A);
        let init = operand(given, state, Row::A);
        self.put_mark(state, Mark::Replaced(init));
        false
    }

    // Judges all sequentials on the table as given; those kept stand at the start of `kept`. Answers how many they are.
    pub(crate) fn judge_sequentials(&mut self, sequentials: &[u64], kept: &mut [u64]) -> usize
        requires listed { All (Sequential (table_of (given_in self.old))) sequentials.now }
        requires room { length sequentials.now ≤ length kept.old }
        ensures keeps { Keeps self.old self.new }
        ensures walk { self.new.walk ≡ self.old.walk }
        ensures judges_nexts { JudgesNexts self.old self.new kept (was sequentials) result }
        ensures upper_bound { result ≤ length sequentials.now }
    {
        let mut count = 0; // counted by hand: those that stay go into lent words, without a heap; no loop for bads too, as none is refused here
        for &sequential in sequentials {
            let stays = self.judge_sequential(sequential as usize);
            if stays {
                kept[count] = sequential;
                count += 1;
            }
        }
        count
    }
}
