// The rows of a table, read word by word: of the table as given, and of the result buffer, which begins as one. Both are lent as words with the layout
// of docs/FORMAT.md, and a row is no struct here: each function reads one to three words of it, and its operands are written in place.
ghost use Rattle.std.specs.Prelude.{◌≡◌};
ghost use Rattle.rules.specs.Table.{kind_of};
ghost use Rattle.rules.specs.Sections.{word_of};
ghost use Rattle.rules.specs.Fold.{const_of};
ghost use Rattle.tables.specs.NodeAnswers.{kind_is};
ghost use Rattle.optimize.specs.Bounds.{HasWord};
ghost use Rattle.optimize.specs.View.{constant_is, node_of};

use tables::node::{NodeKind, Row};

// Word `k` of a node, from 0. The function of tables that does so, `row_word`, asks for the row to be there, and what asks for something is not
// visible outside its crate.
pub(crate) fn word(table: &[u64], node: usize, k: usize) -> u64
    requires { HasWord table.now node k }
    ensures { result ≡ word_of table.now node k }
{
    table[1 + Row::WIDTH * node + k]
}

// Word `k` of a node as the number of a node.
pub(crate) fn operand(table: &[u64], node: usize, k: usize) -> usize
    requires { HasWord table.now node k }
    ensures { result ≡ word_of table.now node k }
{
    word(table, node, k) as usize
}

// A node's kind; a code that names none reads as Input.
pub(crate) fn kind_at(given: &[u64], node: usize) -> NodeKind
    requires { HasWord given.now node 0 }
    ensures { kind_is result ≡ kind_of (word_of given.now node 0) }
{
    NodeKind::try_from(word(given, node, Row::CODE)).unwrap_or(NodeKind::Input)
}

// The number of the constant that a row is, if it is one.
pub(crate) fn row_constant(table: &[u64], node: usize) -> Option<u64>
    requires { HasWord table.now node 2 }
    ensures { constant_is result ≡ const_of (node_of table.now) node }
{
    (word(table, node, Row::CODE) == NodeKind::CONST).then(|| word(table, node, Row::A))
}
