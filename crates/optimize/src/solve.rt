// Under minimise: the questions about a node that stays, and what is recorded of it then; solve_boolean_binary, solve_ite_bit and
// solve_ite_word of optimize.rs.
ghost use Rattle.rules.specs.Fold.{swap};
ghost use Rattle.rules.specs.Questions.{ask_bit, ask_or, equal, quiet};
ghost use Rattle.optimize.specs.Process.{then_ask};
ghost use Rattle.optimize.specs.Folder.{Keeps, RoomIn};
ghost use Rattle.optimize.specs.Clauses.{SettlesAsked};

use crate::fold::Folded;
use crate::folder::ConstantFolder;
use crate::smt_solver::Question;
use tables::refusal::Refusal;

impl ConstantFolder<'_> {
    // A node that is asked about as a bit: whether it is always true, then whether it is always false.
    pub(crate) fn solve_boolean_binary(&mut self, node: usize) -> Result<usize, Refusal>
        requires { RoomIn self.old node }
        ensures keeps { Keeps self.old self.new }
        ensures settles { SettlesAsked self.old self.new result node (λ count n. ask_bit count n node quiet) }
    {
        let solved = self.ask_bit(node)?;
        Ok(self.settle(node, solved))
    }

    // An Ite of sort 1: as a bit, then whether it equals its condition `x`.
    pub(crate) fn solve_ite_bit(&mut self, node: usize, x: usize) -> Result<usize, Refusal>
        requires { RoomIn self.old node }
        ensures keeps { Keeps self.old self.new }
        ensures settles { SettlesAsked self.old self.new result node (λ count n σ. then_ask count equal node x (swap x) (ask_bit count n node quiet σ)) }
    {
        let bit = self.ask_bit(node)?;
        let solved = self.then_ask(bit, Question::Equal(node, x), Folded::Swap(x))?;
        Ok(self.settle(node, solved))
    }

    // An Ite of sort 2: whether it equals its left branch `y`, then its right branch `z`.
    pub(crate) fn solve_ite_word(
        &mut self,
        node: usize,
        y: usize,
        z: usize,
    ) -> Result<usize, Refusal>
        requires { RoomIn self.old node }
        ensures keeps { Keeps self.old self.new }
        ensures settles { SettlesAsked self.old self.new result node (λ count n σ. then_ask count equal node z (swap z) (ask_or count equal node y (swap y) quiet σ)) }
    {
        let left = self.ask_or(Question::Equal(node, y), Folded::Swap(y))?;
        let solved = self.then_ask(left, Question::Equal(node, z), Folded::Swap(z))?;
        Ok(self.settle(node, solved))
    }
}
