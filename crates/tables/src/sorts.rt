// Rule 5: what the operands of a node may be, and their sorts. Past the table stands an Input of no sort, so that each operand may be looked at.
ghost use Rattle.std.specs.Prelude.{◌≡◌};
ghost use Rattle.rules.specs.Lists.{all_true, every};
ghost use Rattle.rules.specs.Table.{State, is, node_at};
ghost use Rattle.rules.specs.Check.{may_serve, sorted};
ghost use Rattle.tables.specs.NodeAnswers.{node_is};
ghost use Rattle.tables.specs.Judging.{nodes_of};

use crate::node::{Node, NodeKind, Row, fits_sort};
use crate::table::Table;
use btor::node_type::NodeType;

impl<'a> Table<'a> {
    // Whether a node may be an operand: neither a Next nor a Bad.
    fn serves(self, number: u64) -> bool
        ensures { result ≡ may_serve (node_at (nodes_of self.entry) number) }
    {
        let code = self.row(number).code;
        code != NodeKind::NEXT && code != NodeKind::BAD
    }

    // Whether each of some operands may be one.
    pub(crate) fn all_serve<const N: usize>(self, operands: [u64; N]) -> bool
        ensures { result ≡ every (λ x. may_serve (node_at (nodes_of self.entry) x)) operands.entry }
    {
        operands.iter().all(|operand| self.serves(*operand))
    }

    fn is_state(self, number: u64) -> bool
        ensures { result ≡ is State (node_at (nodes_of self.entry) number) }
    {
        self.row(number).code == NodeKind::STATE
    }

    fn sort_of(self, number: u64) -> u64
        ensures { result ≡ (node_at (nodes_of self.entry) number).sort }
    {
        self.row(number).sort
    }

    // The table of kinds: an arm for each row of it, so it is longer than other functions.
    pub(crate) fn is_sorted(self, node: Node) -> bool
        ensures { result ≡ all_true (sorted (nodes_of self.entry) (node_is node)) }
    {
        let Row { sort, a, b, c, .. } = node.row;
        match node.kind {
            NodeKind::Const => sort != NodeType::MEMORY && fits_sort(sort, a),
            NodeKind::Read => {
                [sort, self.sort_of(a), self.sort_of(b)]
                    == [NodeType::WORD, NodeType::MEMORY, NodeType::WORD]
            }
            NodeKind::Write => {
                let stored = [self.sort_of(b), self.sort_of(c)];
                [sort, self.sort_of(a)] == [NodeType::MEMORY, NodeType::MEMORY]
                    && stored == [NodeType::WORD, NodeType::WORD]
            }
            NodeKind::Add | NodeKind::Sub | NodeKind::Mul | NodeKind::Divu => {
                [sort, self.sort_of(a), self.sort_of(b)] == [NodeType::WORD; 3]
            }
            NodeKind::Div | NodeKind::Rem | NodeKind::Sll | NodeKind::Srl => {
                [sort, self.sort_of(a), self.sort_of(b)] == [NodeType::WORD; 3]
            }
            NodeKind::Ult | NodeKind::Eq => {
                let first = self.sort_of(a);
                [sort, first] == [NodeType::BIT, self.sort_of(b)] && first != NodeType::MEMORY
            }
            NodeKind::Ext => {
                let first = self.sort_of(a);
                [sort, first] == [NodeType::WORD, b] && first != NodeType::MEMORY
            }
            NodeKind::Ite => {
                let chosen = [self.sort_of(b), self.sort_of(c)];
                self.sort_of(a) == NodeType::BIT && chosen == [sort, sort]
            }
            NodeKind::And | NodeKind::Or => {
                let sorts = [self.sort_of(a), self.sort_of(b)];
                sort != NodeType::MEMORY && sorts == [sort, sort]
            }
            NodeKind::Not => sort != NodeType::MEMORY && self.sort_of(a) == sort,
            NodeKind::State => b != 1 || self.sort_of(a) == sort,
            NodeKind::Next => {
                let sorts = [self.sort_of(a), self.sort_of(b)];
                self.is_state(a) && sorts == [sort, sort]
            }
            NodeKind::Input => true,
            NodeKind::Bad => [sort, self.sort_of(a)] == [NodeType::BIT, NodeType::BIT],
        }
    }
}
