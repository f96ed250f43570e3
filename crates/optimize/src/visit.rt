// Visiting a node and rewriting it: visit, process_fold and process_solve of optimize.rs.
// The two call one another; a node's operands stand before it, so the node number falls.
ghost use Rattle.std.specs.Prelude.{◌+◌, ◌<◌, ◌≡◌, cond, OnOk};
ghost use Rattle.rules.specs.Sections.{word_of};
ghost use Rattle.rules.specs.Table.{row_width};
ghost use Rattle.rules.specs.Visit.{left, right};
ghost use Rattle.optimize.specs.Process.{process_of, one_of, two_of, three_of, both_of, chosen_of, ite_of, step_of};
ghost use Rattle.optimize.specs.Folder.{Keeps, LaidIn, FreshIn, FreshAs, count_in, given_in};
ghost use Rattle.optimize.specs.declared.form.Form.{Form};
ghost use Rattle.optimize.specs.Clauses.{Walks};

use crate::buffers::operand;
use crate::fold::{Folded, Single};
use crate::folder::ConstantFolder;
use crate::form::{Form, Pair, form_at};
use crate::mark::Mark;
use tables::node::Row;
use tables::refusal::Refusal;

// The operand of the branch that a condition chooses. The condition is a bool: an open one chooses no branch and has a function of its own.
fn choose(condition: bool, left: usize, right: usize) -> usize
    ensures { result ≡ cond condition left right }
{
    if condition { left } else { right }
}

impl ConstantFolder<'_> {
    // Visits a node: processes it the first time, and later gives what was recorded. It is compiled into its callers: apart, a chain of nodes takes 14
    // more instructions a node, and 175 to 271 bytes of stack where it takes 111 (docs/DECISIONS.md).
    #[cycle(visit)]
    #[inline(always)]
    pub(crate) fn visit(&mut self, node: usize) -> Result<usize, Refusal>
        requires laid { LaidIn self.old }
        requires node_bound { node < count_in self.old }
        ensures keeps { Keeps self.old self.new }
        ensures walks { Walks self.old self.new result (node + 1) (λ g ways vis σ. vis σ node) }
        ensures laid { OnOk result (LaidIn self.new) }
    {
        match self.mark_of(node) {
            Mark::Fresh => self.process(node),
            Mark::Kept => Ok(node),
            Mark::Replaced(by) => Ok(by),
        }
    }

    // Visits the operand of a node that stands in word `k` of it.
    #[cycle(visit)]
    #[inline(always)]
    fn visit_operand(&mut self, node: usize, k: usize) -> Result<usize, Refusal>
        requires ready { FreshIn self.old node }
        requires k_bound { k < row_width }
        requires before { word_of (given_in self.old) node k < node }
        ensures keeps { Keeps self.old self.new }
        ensures walks { Walks self.old self.new result node (λ g ways vis σ. vis σ (word_of g node k)) }
        ensures ready { OnOk result (FreshIn self.new node) }
    {
        let at = operand(self.call.given, node, k);
        self.visit(at)
    }

    // Rewrites a node, by its form.
    #[cycle(visit)]
    fn process(&mut self, node: usize) -> Result<usize, Refusal>
        requires { FreshIn self.old node }
        ensures keeps { Keeps self.old self.new }
        ensures walks { Walks self.old self.new result node (λ g ways vis σ. process_of g ways vis σ node) }
    {
        match form_at(self.call.given, node) {
            Form::Constant => Ok(self.settle_const(node)),
            Form::Given => Ok(self.settle(node, Folded::Stays)),
            Form::Free => self.take_input(node),
            Form::One(rule) => self.process_one(node, rule),
            Form::Two(pair) => self.process_two(node, pair),
            Form::Three => self.process_three(node),
            Form::Choice => self.process_ite(node),
            Form::Step => self.process_next(node),
        }
    }

    // A node of one operand: Ext, Not, Bad, a State with an init.
    #[cycle(visit)]
    fn process_one(&mut self, node: usize, rule: Single) -> Result<usize, Refusal>
        requires { FreshAs self.old node (Form.One rule) }
        ensures keeps { Keeps self.old self.new }
        ensures walks { Walks self.old self.new result node (λ g ways vis σ. one_of g ways vis rule σ node) }
    {
        let x = self.visit_operand(node, Row::A)?;
        let given = self.call.given;
        let b = operand(given, node, Row::B);
        let c = operand(given, node, Row::C);
        self.put_row(node, x, b, c);
        Ok(self.after_one(node, rule, x))
    }

    // A node of two operands: the operators on words, Ult, Eq, And, Or, and a Read.
    #[cycle(visit)]
    fn process_two(&mut self, node: usize, pair: Pair) -> Result<usize, Refusal>
        requires { FreshAs self.old node (Form.Two pair) }
        ensures keeps { Keeps self.old self.new }
        ensures walks { Walks self.old self.new result node (λ g ways vis σ. two_of g ways vis pair σ node) }
    {
        let x = self.visit_operand(node, Row::A)?;
        let y = self.visit_operand(node, Row::B)?;
        let c = operand(self.call.given, node, Row::C);
        self.put_row(node, x, y, c);
        self.after_two(node, pair, x, y)
    }

    // A Write.
    #[cycle(visit)]
    fn process_three(&mut self, node: usize) -> Result<usize, Refusal>
        requires { FreshAs self.old node Form.Three }
        ensures keeps { Keeps self.old self.new }
        ensures walks { Walks self.old self.new result node (λ g ways vis σ. three_of g ways vis σ node) }
    {
        let x = self.visit_operand(node, Row::A)?;
        let y = self.visit_operand(node, Row::B)?;
        let z = self.visit_operand(node, Row::C)?;
        self.put_row(node, x, y, z);
        Ok(self.settle(node, Folded::Stays))
    }

    // An Ite: its condition first, then only the chosen branch where that is constant.
    #[cycle(visit)]
    fn process_ite(&mut self, node: usize) -> Result<usize, Refusal>
        requires { FreshAs self.old node Form.Choice }
        ensures keeps { Keeps self.old self.new }
        ensures walks { Walks self.old self.new result node (λ g ways vis σ. ite_of g ways vis σ node) }
    {
        let x = self.visit_operand(node, Row::A)?;
        match self.get_constant(x) {
            Some(1) => self.process_chosen(node, x, true),
            Some(0) => self.process_chosen(node, x, false),
            _ => self.process_both(node, x),
        }
    }

    // An Ite whose condition became the constant `x`: the branch that it chooses replaces it.
    #[cycle(visit)]
    #[inline(always)]
    fn process_chosen(&mut self, node: usize, x: usize, condition: bool) -> Result<usize, Refusal>
        requires { FreshAs self.old node Form.Choice }
        ensures keeps { Keeps self.old self.new }
        ensures walks { Walks self.old self.new result node (λ g ways vis σ. chosen_of g ways vis (cond condition left right) x σ node) }
    {
        let chosen = self.visit_operand(node, choose(condition, Row::B, Row::C))?;
        let given = self.call.given;
        let b = operand(given, node, Row::B);
        let c = operand(given, node, Row::C);
        self.put_row(
            node,
            x,
            choose(condition, chosen, b),
            choose(condition, c, chosen),
        );
        Ok(self.settle(node, Folded::Swap(chosen)))
    }

    // An Ite whose condition `x` is open.
    #[cycle(visit)]
    #[inline(always)]
    fn process_both(&mut self, node: usize, x: usize) -> Result<usize, Refusal>
        requires { FreshAs self.old node Form.Choice }
        ensures keeps { Keeps self.old self.new }
        ensures walks { Walks self.old self.new result node (λ g ways vis σ. both_of g ways vis x σ node) }
    {
        let y = self.visit_operand(node, Row::B)?;
        let z = self.visit_operand(node, Row::C)?;
        self.put_row(node, x, y, z);
        self.after_ite(node, x, y, z)
    }

    // A Next: its state first, for which no other node stands where the Next is kept (rules/specs/KeptState.antt), then the next value. Its first
    // operand is never rewritten.
    #[cycle(visit)]
    fn process_next(&mut self, node: usize) -> Result<usize, Refusal>
        requires { FreshAs self.old node Form.Step }
        ensures keeps { Keeps self.old self.new }
        ensures walks { Walks self.old self.new result node (λ g ways vis σ. step_of g ways vis σ node) }
    {
        self.visit_operand(node, Row::A)?;
        let y = self.visit_operand(node, Row::B)?;
        let given = self.call.given;
        let state = operand(given, node, Row::A);
        let c = operand(given, node, Row::C);
        self.put_row(node, state, y, c);
        Ok(self.settle(node, Folded::Stays))
    }
}
