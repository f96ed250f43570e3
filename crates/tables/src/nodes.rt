// The nodes of a table, and rules 3, 4 and 5 over them, node by node, rising.
ghost use Rattle.std.specs.Prelude.{◌≡◌, ◌<◌, ltb, get_or};
ghost use Rattle.rules.specs.Table.{decode, node_at, operands};
ghost use Rattle.rules.specs.Check.{check_node, check_nodes};
ghost use Rattle.rules.specs.Lists.{every};
ghost use Rattle.tables.specs.NodeAnswers.{row_is, node_is, row_unknown};
ghost use Rattle.tables.specs.FormAnswers.{operands_judged, first_broken};
ghost use Rattle.tables.specs.Judging.{judged_of, rows_of, nodes_of};

use crate::node::{Node, NodeKind, Row};
use crate::refusal::Refusal;
use crate::rows::row_at;
use crate::table::Table;

// Whether each of some operands is before a node.
fn are_before<const N: usize>(operands: [u64; N], node: usize) -> bool
    ensures { result ≡ every (λ x. ltb x node) operands.entry }
{
    operands.iter().all(|operand| *operand < node as u64)
}

impl<'a> Table<'a> {
    // The row with a number; past the table stands an Input of no sort.
    #[tactic(auto, using(crate::proofs::JudgeLaws::node_in, crate::proofs::JudgeLaws::node_past))]
    pub(crate) fn row(self, number: u64) -> Row
        ensures { decode (row_is result) ≡ node_at (nodes_of self.entry) number }
    {
        if number < self.sections.nodes.count as u64 {
            return row_at(self.words, number as usize);
        }
        Row {
            code: NodeKind::INPUT,
            ..Row::default()
        }
    }

    // Each of a node's operands is before it, and may be one.
    fn judge_operands<const N: usize>(self, node: usize, operands: [u64; N]) -> Result<(), Refusal>
        ensures { judged_of result ≡ operands_judged (nodes_of self.entry) node operands.entry }
    {
        if !are_before(operands, node) {
            return Err(Refusal::OperandNotBefore(node));
        }
        if !self.all_serve(operands) {
            return Err(Refusal::Sorts(node));
        }
        Ok(())
    }

    // The operands by the kind of the node.
    fn judge_operands_of(self, known: Node, node: usize) -> Result<(), Refusal>
        ensures { judged_of result ≡ operands_judged (nodes_of self.entry) node (operands (node_is known)) }
    {
        let Row { a, b, c, .. } = known.row;
        match known.kind {
            NodeKind::Const | NodeKind::Input => Ok(()),
            NodeKind::State if b != 1 => Ok(()),
            NodeKind::State | NodeKind::Ext | NodeKind::Not | NodeKind::Bad => {
                self.judge_operands(node, [a])
            }
            NodeKind::Write | NodeKind::Ite => self.judge_operands(node, [a, b, c]),
            NodeKind::Read | NodeKind::Ult | NodeKind::Eq | NodeKind::And | NodeKind::Or => {
                self.judge_operands(node, [a, b])
            }
            NodeKind::Add | NodeKind::Sub | NodeKind::Mul | NodeKind::Divu | NodeKind::Div => {
                self.judge_operands(node, [a, b])
            }
            NodeKind::Rem | NodeKind::Sll | NodeKind::Srl | NodeKind::Next => {
                self.judge_operands(node, [a, b])
            }
        }
    }

    // Rule 3, the operands, and the sorts of a node whose kind is known.
    fn judge_known(self, known: Node, names: u64, node: usize) -> Result<(), Refusal>
        ensures { judged_of result ≡ first_broken names (nodes_of self.entry) node (node_is known) }
    {
        if !known.is_formed(names) {
            return Err(Refusal::Malformed(node));
        }
        self.judge_operands_of(known, node)?;
        if !self.is_sorted(known) {
            return Err(Refusal::Sorts(node));
        }
        Ok(())
    }

    fn judge_node(self, names: u64, node: usize) -> Result<(), Refusal>
        requires { node < self.sections.nodes.count }
        ensures { judged_of result ≡ check_node names (nodes_of self.entry) node (get_or (rows_of self.entry) node row_unknown) }
    {
        match Node::try_from(row_at(self.words, node)) {
            Ok(known) => self.judge_known(known, names, node),
            Err(_) => Err(Refusal::Malformed(node)),
        }
    }

    pub(crate) fn judge_nodes(self, names: u64) -> Result<(), Refusal>
        ensures { judged_of result ≡ check_nodes names (nodes_of self.entry) 0 (rows_of self.entry) }
    {
        for node in 0..self.sections.nodes.count {
            self.judge_node(names, node)?;
        }
        Ok(())
    }
}
