// What a node folds to, from its rewritten operands: the fold functions of optimize.rs. Nothing here touches a buffer.
ghost use Rattle.std.specs.Prelude.{◌≡◌, ℕ, Bool, true, false, refl};
ghost use Rattle.std.proofs.Math.Option.{Option};
ghost use Rattle.btor.specs.Operators.{compute, complement, less, both, either};
ghost use Rattle.btor.specs.Readings.{reading_is};
ghost use Rattle.btor.specs.Sorts.{width, ones};
ghost use Rattle.rules.specs.Fold.{Fold, fold_const, fold_words, fold_test, fold_eq, fold_not, fold_ext, fold_and, fold_or};
ghost use Rattle.optimize.specs.View.{constant_is, fold_is};
ghost use Rattle.optimize.specs.Folding.{op_is, fold_constants, fold_junction, fold_two, fold_one, asks_bit};

use btor::node_type::NodeType;
use btor::operators;
use btor::reading::Reading;

// A constant: the code of its sort, and its number. Here and below a sort is the word that the row has and that the result gets back, and no NodeType: the
// rules fold whatever number stands there.
#[derive(Clone, Copy, Debug, PartialEq, Eq)]
pub(crate) struct Constant {
    pub(crate) sort: u64,
    pub(crate) value: u64,
}

// A node stays, or another node, the shared false or true, or a new constant takes its place.
#[derive(Clone, Copy, Debug, PartialEq, Eq)]
pub(crate) enum Folded {
    Stays,
    Swap(usize),
    Shared(bool),
    Make(Constant),
}

// What two words are folded by. It stays an enum: the form of a node, which holds it, is handed out, and a function may not be.
#[derive(Clone, Copy, Debug, PartialEq, Eq)]
pub(crate) enum Operator {
    Add,
    Sub,
    Mul,
    Divu,
    Div,
    Rem,
    Sll,
    Srl,
}

// The rule of a node of two operands that folds. It stays an enum for the reason of Operator, and so does Single.
#[derive(Clone, Copy, Debug, PartialEq, Eq)]
pub(crate) enum Rule {
    Word(Operator),
    Ult,
    Eq,
    And,
    Or,
}

// The rule of a node of one operand. A Bad and a State with an init stay.
#[derive(Clone, Copy, Debug, PartialEq, Eq)]
pub(crate) enum Single {
    Ext,
    Not,
    Stays,
}

impl Operator {
    #[tactic(auto, unfolding(btor::specs::Operators::compute))]
    fn apply(self, how: Reading, left: u64, right: u64) -> u64
        ensures { result ≡ compute (reading_is how) (op_is self) left right }
    {
        match self {
            Operator::Add => operators::wrapping_add(left, right),
            Operator::Sub => operators::wrapping_sub(left, right),
            Operator::Mul => operators::wrapping_mul(left, right),
            Operator::Divu => operators::btor_u64_divu(left, right),
            Operator::Div => operators::div(how, left, right),
            Operator::Rem => operators::rem(how, left, right),
            Operator::Sll => operators::btor_u64_sll(left, right),
            Operator::Srl => operators::btor_u64_srl(left, right),
        }
    }
}

// And and Or: of zeros and ones on a side one wins and the other yields the other side.
trait Junction {
    ghost ZEROS_WIN: { Bool };

    ghost joined: { ℕ → ℕ → ℕ };

    // What the rules fold it to.
    ghost rule: { ℕ → ℕ → ℕ → Option ℕ → Option ℕ → Fold };

    const ZEROS_WIN: bool;

    fn join(left: u64, right: u64) -> u64
        ensures { result ≡ joined left right };

    ghost by_rule: { (s x y : ℕ) (cx cy : Option ℕ) → fold_junction ZEROS_WIN joined s x y cx cy ≡ rule s x y cx cy };
}

struct And;

impl Junction for And {
    ghost ZEROS_WIN = { true };

    ghost joined = { both };

    ghost rule = { fold_and };

    ghost by_rule = { λ s x y cx cy. refl };

    const ZEROS_WIN: bool = true;

    fn join(left: u64, right: u64) -> u64 {
        operators::and(left, right)
    }
}

struct Or;

impl Junction for Or {
    ghost ZEROS_WIN = { false };

    ghost joined = { either };

    ghost rule = { fold_or };

    ghost by_rule = { λ s x y cx cy. refl };

    const ZEROS_WIN: bool = false;

    fn join(left: u64, right: u64) -> u64 {
        operators::or(left, right)
    }
}

// All ones of the sort with a code; 0 where the code names none.
fn all_ones(sort: u64) -> u64
    ensures { result ≡ ones sort }
{
    NodeType::try_from(sort).map_or(0, |known| known.ones())
}

// The complement within the width of the sort with a code; 0 where the code names none.
fn complement_in(sort: u64, value: u64) -> u64
    ensures { result ≡ complement (width sort) value }
{
    NodeType::try_from(sort).map_or(0, |known| operators::not(value, known))
}

// A constant of one bit becomes the shared one.
pub(crate) fn fold_const(constant: Constant) -> Folded
    ensures { (n : ℕ) → fold_is n result ≡ fold_const n constant.sort constant.value }
{
    if constant.sort == NodeType::BIT {
        if constant.value == 0 {
            return Folded::Shared(false);
        }
        if constant.value == 1 {
            return Folded::Shared(true);
        }
    }
    Folded::Stays
}

// Two constants fold to what f makes of their numbers.
fn fold_constants<F: Fn(u64, u64) -> Folded>(left: Option<u64>, right: Option<u64>, f: F) -> Folded
    requires { F.IsAlwaysCallable f }
    ensures { (n : ℕ) (g : ℕ → ℕ → Fold) → ((x y : ℕ) (r : Folded) → F.post f x y r → fold_is n r ≡ g x y) → fold_is n result ≡ fold_constants g (constant_is left) (constant_is right) }
{
    let Some(left_imm) = left else {
        return Folded::Stays;
    };
    let Some(right_imm) = right else {
        return Folded::Stays;
    };
    f(left_imm, right_imm)
}

// Two constant words make a new constant, of the node's own sort.
fn fold_any_binary<F: Fn(u64, u64) -> u64>(
    sort: u64,
    left: Option<u64>,
    right: Option<u64>,
    f: F,
) -> Folded
    requires { F.IsAlwaysCallable f }
    ensures { (n : ℕ) (g : ℕ → ℕ → ℕ) → ((x y z : ℕ) → F.post f x y z → z ≡ g x y) → fold_is n result ≡ fold_words sort g (constant_is left) (constant_is right) }
{
    fold_constants(left, right, |x, y| {
        let value = f(x, y);
        Folded::Make(Constant { sort, value })
    })
}

fn fold_ult(left: Option<u64>, right: Option<u64>) -> Folded
    ensures { (n : ℕ) → fold_is n result ≡ fold_test n less (constant_is left) (constant_is right) }
{
    fold_constants(left, right, |x, y| Folded::Shared(operators::ult(x, y)))
}

// A node x equals itself; else two constants are compared.
fn fold_eq(x: usize, y: usize, left: Option<u64>, right: Option<u64>) -> Folded
    ensures { (n : ℕ) → fold_is n result ≡ fold_eq n x y (constant_is left) (constant_is right) }
{
    if x == y {
        return Folded::Shared(true);
    }
    fold_constants(left, right, |x, y| Folded::Shared(operators::eq(x, y)))
}

// Zeros win or yield the other side, then ones the other way; two other constants make one of the node's own sort, also where that is a byte's.
fn fold_junction<J: Junction>(
    sort: u64,
    x: usize,
    y: usize,
    left: Option<u64>,
    right: Option<u64>,
) -> Folded
    ensures { (n : ℕ) → fold_is n result ≡ J.rule sort x y (constant_is left) (constant_is right) }
{
    let ones = all_ones(sort);
    let (kept, other) = if J::ZEROS_WIN { (x, y) } else { (y, x) };
    if left == Some(0) { // AND(zeroes, _) -> zeroes, OR(zeroes, y) -> y
        return Folded::Swap(kept);
    }
    if right == Some(0) { // AND(_, zeroes) -> zeroes, OR(x, zeroes) -> x
        return Folded::Swap(other);
    }
    if left == Some(ones) { // AND(ones, y) -> y, OR(ones, _) -> ones
        return Folded::Swap(other);
    }
    if right == Some(ones) { // AND(x, ones) -> x, OR(_, ones) -> ones
        return Folded::Swap(kept);
    }
    fold_any_binary(sort, left, right, |x, y| J::join(x, y))
}

// Zeros win, then ones yield the other side.
fn fold_and(sort: u64, x: usize, y: usize, left: Option<u64>, right: Option<u64>) -> Folded
    ensures { (n : ℕ) → fold_is n result ≡ fold_and sort x y (constant_is left) (constant_is right) }
{
    fold_junction::<And>(sort, x, y, left, right)
}

// Zeros yield the other side, then ones win.
fn fold_or(sort: u64, x: usize, y: usize, left: Option<u64>, right: Option<u64>) -> Folded
    ensures { (n : ℕ) → fold_is n result ≡ fold_or sort x y (constant_is left) (constant_is right) }
{
    fold_junction::<Or>(sort, x, y, left, right)
}

// A bit becomes the shared one; another constant keeps the Not's sort. Here and below the sort is the node's own and the number its operand's: they are
// no Constant.
fn fold_not(sort: u64, value: Option<u64>) -> Folded
    ensures { (n : ℕ) → fold_is n result ≡ fold_not n sort (constant_is value) }
{
    let Some(imm) = value else {
        return Folded::Stays;
    };
    if sort == NodeType::BIT {
        if imm == 0 {
            return Folded::Shared(true);
        }
        if imm == 1 {
            return Folded::Shared(false);
        }
    }
    let value = complement_in(sort, imm);
    Folded::Make(Constant { sort, value })
}

fn fold_ext(sort: u64, value: Option<u64>) -> Folded
    ensures { (n : ℕ) → fold_is n result ≡ fold_ext sort (constant_is value) }
{
    let Some(imm) = value else {
        return Folded::Stays;
    };
    let value = operators::ext(imm);
    Folded::Make(Constant { sort, value })
}

// What a node of two operands x and y folds to; left and right are their numbers. The four are no struct: words and Ult fold by two of them,
// and it would be made at one place to be taken apart at the next.
pub(crate) fn fold_two(
    how: Reading,
    rule: Rule,
    sort: u64,
    x: usize,
    y: usize,
    left: Option<u64>,
    right: Option<u64>,
) -> Folded
    ensures { (n : ℕ) → fold_is n result ≡ fold_two (reading_is how) rule n sort x y (constant_is left) (constant_is right) }
{
    match rule {
        Rule::Word(f) => fold_any_binary(sort, left, right, |x, y| f.apply(how, x, y)),
        Rule::Ult => fold_ult(left, right),
        Rule::Eq => fold_eq(x, y, left, right),
        Rule::And => fold_and(sort, x, y, left, right),
        Rule::Or => fold_or(sort, x, y, left, right),
    }
}

// What a node of one operand folds to; value is the operand's number.
pub(crate) fn fold_one(rule: Single, sort: u64, value: Option<u64>) -> Folded
    ensures { (n : ℕ) → fold_is n result ≡ fold_one rule n sort (constant_is value) }
{
    match rule {
        Single::Ext => fold_ext(sort, value),
        Single::Not => fold_not(sort, value),
        Single::Stays => Folded::Stays,
    }
}

// Whether minimise asks about an unfolded node of two operands as about a bit.
pub(crate) fn asks_bit(rule: Rule, sort: u64) -> bool
    ensures { result ≡ asks_bit rule sort }
{
    match rule {
        Rule::Ult | Rule::Eq => true,
        Rule::And => sort == NodeType::BIT,
        Rule::Word(_) | Rule::Or => false,
    }
}
