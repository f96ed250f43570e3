// Rule 3 of a node whose kind is known: its sorts, the words in no use and its name.
ghost use Rattle.std.specs.Prelude.{◌≡◌};
ghost use Rattle.tables.specs.NodeAnswers.{node_is};
ghost use Rattle.tables.specs.FormAnswers.{formed_by_kind, formed};

use crate::node::{Node, NodeKind, Row, known_sort};

impl Node {
    // An Input has a name, a State and a Bad may have one, and no other node has.
    fn is_formed_by_kind(self, names: u64) -> bool
        ensures { result ≡ formed_by_kind names (node_is self) }
    {
        let Row { a, b, c, name, .. } = self.row;
        match self.kind {
            NodeKind::Const | NodeKind::Not => [b, c, name] == [0, 0, 0],
            NodeKind::Read | NodeKind::Ult | NodeKind::Eq | NodeKind::And | NodeKind::Or => {
                [c, name] == [0, 0]
            }
            NodeKind::Add | NodeKind::Sub | NodeKind::Mul | NodeKind::Divu | NodeKind::Div => {
                [c, name] == [0, 0]
            }
            NodeKind::Rem | NodeKind::Sll | NodeKind::Srl | NodeKind::Next => {
                [c, name] == [0, 0]
            }
            NodeKind::Write | NodeKind::Ite => name == 0,
            NodeKind::Ext => [c, name] == [0, 0] && known_sort(b),
            NodeKind::State if b == 1 => c == 0 && name <= names,
            NodeKind::State => [a, b, c] == [0, 0, 0] && name <= names,
            NodeKind::Input => { [a, b, c] == [0, 0, 0] && name != 0 && name <= names }
            NodeKind::Bad => [b, c] == [0, 0] && name <= names,
        }
    }

    pub(crate) fn is_formed(self, names: u64) -> bool
        ensures { result ≡ formed names (node_is self) }
    {
        known_sort(self.row.sort) && self.is_formed_by_kind(names)
    }
}
