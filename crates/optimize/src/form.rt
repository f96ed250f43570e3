// What a visit does with a node, by its kind.
ghost use Rattle.std.specs.Prelude.{◌≡◌};
ghost use Rattle.tables.specs.NodeAnswers.{kind_is};
ghost use Rattle.optimize.specs.Bounds.{HasWord};
ghost use Rattle.optimize.specs.Process.{form_of, form_at};

use crate::buffers::{kind_at, word};
use crate::fold::{Operator, Rule, Single};
use tables::node::{NodeKind, Row};

// What a node of two operands does with them: it folds by its rule, or reads a memory at an address. It is no Option of a rule: that would not
// say that the other kind is a Read. Nor are there two forms in its place: both visit their operands alike.
#[derive(Clone, Copy, Debug, PartialEq, Eq)]
pub(crate) enum Pair {
    Folds(Rule),
    Reads,
}

// What a visit does with a node: it is a constant, an input, a state without init, or has one operand or two and what it does with them,
// the three operands of a Write, the condition and branches of an Ite, or the state and the next value of a Next. It is an enum, not a function
// for each kind: it is handed out, and a function may not be.
#[derive(Clone, Copy, Debug, PartialEq, Eq)]
pub(crate) enum Form {
    Constant,
    Given,
    Free,
    One(Single),
    Two(Pair),
    Three,
    Choice,
    Step,
}

#[tactic(auto, unfolding(crate::specs::Process::form_of))]
fn form_of(kind: NodeKind, b: u64) -> Form
    ensures { result ≡ form_of (kind_is kind) b }
{
    match kind {
        NodeKind::Const => Form::Constant,
        NodeKind::Read => Form::Two(Pair::Reads),
        NodeKind::Write => Form::Three,
        NodeKind::Add => Form::Two(Pair::Folds(Rule::Word(Operator::Add))),
        NodeKind::Sub => Form::Two(Pair::Folds(Rule::Word(Operator::Sub))),
        NodeKind::Mul => Form::Two(Pair::Folds(Rule::Word(Operator::Mul))),
        NodeKind::Divu => Form::Two(Pair::Folds(Rule::Word(Operator::Divu))),
        NodeKind::Div => Form::Two(Pair::Folds(Rule::Word(Operator::Div))),
        NodeKind::Rem => Form::Two(Pair::Folds(Rule::Word(Operator::Rem))),
        NodeKind::Sll => Form::Two(Pair::Folds(Rule::Word(Operator::Sll))),
        NodeKind::Srl => Form::Two(Pair::Folds(Rule::Word(Operator::Srl))),
        NodeKind::Ult => Form::Two(Pair::Folds(Rule::Ult)),
        NodeKind::Ext => Form::One(Single::Ext),
        NodeKind::Ite => Form::Choice,
        NodeKind::Eq => Form::Two(Pair::Folds(Rule::Eq)),
        NodeKind::And => Form::Two(Pair::Folds(Rule::And)),
        NodeKind::Or => Form::Two(Pair::Folds(Rule::Or)),
        NodeKind::Not => Form::One(Single::Not),
        NodeKind::State => {
            if b == 1 {
                Form::One(Single::Stays)
            } else {
                Form::Free
            }
        }
        NodeKind::Next => Form::Step,
        NodeKind::Input => Form::Given,
        NodeKind::Bad => Form::One(Single::Stays),
    }
}

// The form of a node of the table.
pub(crate) fn form_at(given: &[u64], node: usize) -> Form
    requires { HasWord given.now node 3 }
    ensures { result ≡ form_at given.now node }
{
    form_of(kind_at(given, node), word(given, node, Row::B))
}
