// The kinds of nodes, in the order of mod.rs's Node; the six words of a node; the sorts that words name.
ghost use Rattle.std.specs.Prelude.{◌≡◌, true, false, IfErr, MatchResult};
ghost use Rattle.rules.specs.Table.{fits, decode};
ghost use Rattle.rules.specs.Check.{known_kind, known_sort};
ghost use Rattle.tables.specs.NodeAnswers.{coded_kind_of, kind_in, row_is, node_is};

use btor::node_type::NodeType;

#[derive(Clone, Copy, Debug, PartialEq, Eq)]
pub enum NodeKind {
    Const = 1,
    Read = 2,
    Write = 3,
    Add = 4,
    Sub = 5,
    Mul = 6,
    Divu = 7,
    Div = 8,
    Rem = 9,
    Sll = 10,
    Srl = 11,
    Ult = 12,
    Ext = 13,
    Ite = 14,
    Eq = 15,
    And = 16,
    Or = 17,
    Not = 18,
    State = 19,
    Next = 20,
    Input = 21,
    Bad = 22,
}

// A word that is the code of no kind.
#[derive(Clone, Copy, Debug, PartialEq, Eq)]
pub struct UnknownKind(pub u64);

// The codes are associated constants, as those of sorts are: words are compared with them before their kind is known.
impl NodeKind {
    pub const CONST: u64 = NodeKind::Const as u64;

    pub const READ: u64 = NodeKind::Read as u64;

    pub const WRITE: u64 = NodeKind::Write as u64;

    pub const ADD: u64 = NodeKind::Add as u64;

    pub const SUB: u64 = NodeKind::Sub as u64;

    pub const MUL: u64 = NodeKind::Mul as u64;

    pub const DIVU: u64 = NodeKind::Divu as u64;

    pub const DIV: u64 = NodeKind::Div as u64;

    pub const REM: u64 = NodeKind::Rem as u64;

    pub const SLL: u64 = NodeKind::Sll as u64;

    pub const SRL: u64 = NodeKind::Srl as u64;

    pub const ULT: u64 = NodeKind::Ult as u64;

    pub const EXT: u64 = NodeKind::Ext as u64;

    pub const ITE: u64 = NodeKind::Ite as u64;

    pub const EQ: u64 = NodeKind::Eq as u64;

    pub const AND: u64 = NodeKind::And as u64;

    pub const OR: u64 = NodeKind::Or as u64;

    pub const NOT: u64 = NodeKind::Not as u64;

    pub const STATE: u64 = NodeKind::State as u64;

    pub const NEXT: u64 = NodeKind::Next as u64;

    pub const INPUT: u64 = NodeKind::Input as u64;

    pub const BAD: u64 = NodeKind::Bad as u64;
}

// The kind that a code names.
impl TryFrom<u64> for NodeKind {
    type Error = UnknownKind;

    ghost try_from_gives = { λ code named. (coded_kind_of named ≡ kind_in code) × IfErr named (λ e. e.0 ≡ code) };

    fn try_from(code: u64) -> Result<NodeKind, UnknownKind> {
        match code {
            NodeKind::CONST => Ok(NodeKind::Const),
            NodeKind::READ => Ok(NodeKind::Read),
            NodeKind::WRITE => Ok(NodeKind::Write),
            NodeKind::ADD => Ok(NodeKind::Add),
            NodeKind::SUB => Ok(NodeKind::Sub),
            NodeKind::MUL => Ok(NodeKind::Mul),
            NodeKind::DIVU => Ok(NodeKind::Divu),
            NodeKind::DIV => Ok(NodeKind::Div),
            NodeKind::REM => Ok(NodeKind::Rem),
            NodeKind::SLL => Ok(NodeKind::Sll),
            NodeKind::SRL => Ok(NodeKind::Srl),
            NodeKind::ULT => Ok(NodeKind::Ult),
            NodeKind::EXT => Ok(NodeKind::Ext),
            NodeKind::ITE => Ok(NodeKind::Ite),
            NodeKind::EQ => Ok(NodeKind::Eq),
            NodeKind::AND => Ok(NodeKind::And),
            NodeKind::OR => Ok(NodeKind::Or),
            NodeKind::NOT => Ok(NodeKind::Not),
            NodeKind::STATE => Ok(NodeKind::State),
            NodeKind::NEXT => Ok(NodeKind::Next),
            NodeKind::INPUT => Ok(NodeKind::Input),
            NodeKind::BAD => Ok(NodeKind::Bad),
            _ => Err(UnknownKind(code)),
        }
    }
}

// The six words of a node.
#[derive(Clone, Copy, Debug, Default, PartialEq, Eq)]
pub struct Row {
    pub code: u64,
    pub sort: u64,
    pub a: u64,
    pub b: u64,
    pub c: u64,
    pub name: u64,
}

impl Row {
    // How many words a row has.
    pub const WIDTH: usize = 6;

    // The places of its words: numbers, as each is added to the place of the row.
    pub const CODE: usize = 0;

    pub const SORT: usize = 1;

    pub const A: usize = 2;

    pub const B: usize = 3;

    pub const C: usize = 4;

    pub const NAME: usize = 5;
}

// A row whose kind is known.
#[derive(Clone, Copy)]
pub(crate) struct Node {
    pub(crate) kind: NodeKind,
    pub(crate) row: Row,
}

impl TryFrom<Row> for Node {
    type Error = UnknownKind;

    ghost try_from_gives = { λ row named. MatchResult named (λ n. (known_kind row.code ≡ true) × (node_is n ≡ decode (row_is row))) (λ _. known_kind row.code ≡ false) };

    fn try_from(row: Row) -> Result<Node, UnknownKind> {
        let kind = NodeKind::try_from(row.code)?;
        Ok(Node { kind, row })
    }
}

// Whether a word is the code of a sort.
pub(crate) fn known_sort(code: u64) -> bool
    ensures { result ≡ known_sort code }
{
    NodeType::try_from(code).is_ok()
}

// Whether a number fits the width of a sort.
#[tactic(auto, using(crate::proofs::NodeLaws::fits_known, crate::proofs::NodeLaws::fits_unknown))]
pub fn fits_sort(sort: u64, number: u64) -> bool
    ensures { result ≡ fits sort number }
{
    match NodeType::try_from(sort) {
        Ok(known) => number <= known.ones(),
        Err(_) => number == 0,
    }
}
