// What comes after the visits of a node's operands: it folds, is forwarded or asked about, and what stands for it is recorded.
ghost use Rattle.std.specs.Prelude.{◌<◌, Ok};
ghost use Rattle.rules.specs.Visit.{settle, finish};
ghost use Rattle.optimize.specs.Bounds.{count_of};
ghost use Rattle.optimize.specs.View.{fold_is, table_of};
ghost use Rattle.optimize.specs.Process.{bit_of, after_one, after_rule, after_read, after_two, after_ite, const_out};
ghost use Rattle.optimize.specs.Folder.{FallsIn, Keeps, RoomIn, count_in};
ghost use Rattle.optimize.specs.Clauses.{Settles};

use crate::buffers::word;
use crate::fold::{Constant, Folded, Rule, Single, asks_bit, fold_const, fold_one, fold_two};
use crate::folder::ConstantFolder;
use crate::form::Pair;
use crate::mark::Mark;
use btor::node_type::NodeType;
use tables::node::Row;
use tables::refusal::Refusal;

// What a step needs is no invariant of the folder: RoomIn names the node, and the step spends it; FallsIn is what a whole visit keeps, and `put_row`, which
// puts any operands, does not. A node and its rewritten operands x, y, z are no struct: a step takes those that its kind has, each from the visit before it.
impl ConstantFolder<'_> {
    // Records what a node folds to; the answer is what stands for it from then on.
    #[inline(always)]
    pub(crate) fn settle(&mut self, node: usize, fold: Folded) -> usize
        requires node_bound { node < count_in self.old }
        requires made_bound { self.old.walk.made < count_in self.old }
        ensures keeps { Keeps self.old self.new }
        ensures settles { Settles self.old self.new (Ok result) (λ g ways σ. settle (table_of g) ways node σ (fold_is (count_of g) fold)) }
    {
        match fold {
            Folded::Stays => {
                self.put_mark(node, Mark::Kept);
                node
            }
            Folded::Swap(by) => {
                self.put_mark(node, Mark::Replaced(by));
                by
            }
            Folded::Shared(truth) => {
                let shared = self.call.node_count() + usize::from(truth);
                self.put_mark(node, Mark::Replaced(shared));
                shared
            }
            Folded::Make(constant) => {
                let at = self.call.node_count() + 2 + self.walk.made;
                self.push(constant);
                self.put_mark(node, Mark::Replaced(at));
                at
            }
        }
    }

    // Records what a node folds to; one that stays is asked about under minimise, if it is asked about as a bit.
    fn finish(&mut self, node: usize, bit: bool, fold: Folded) -> Result<usize, Refusal>
        requires { RoomIn self.old node }
        ensures keeps { Keeps self.old self.new }
        ensures settles { Settles self.old self.new result (λ g ways σ. finish (table_of g) ways node σ (fold_is (count_of g) fold) (bit_of g ways node bit)) }
    {
        if fold == Folded::Stays && self.call.mode.minimise && bit {
            return self.solve_boolean_binary(node);
        }
        Ok(self.settle(node, fold))
    }

    // A constant of the table: one of sort 1 becomes the shared false or true.
    pub(crate) fn settle_const(&mut self, node: usize) -> usize
        requires { RoomIn self.old node }
        ensures keeps { Keeps self.old self.new }
        ensures settles { Settles self.old self.new (Ok result) (λ g ways σ. const_out g ways σ node) }
    {
        let given = self.call.given;
        let constant = Constant {
            sort: word(given, node, Row::SORT),
            value: word(given, node, Row::A),
        };
        self.settle(node, fold_const(constant))
    }

    // Folds a node whose only operand was visited.
    pub(crate) fn after_one(&mut self, node: usize, rule: Single, x: usize) -> usize
        requires { RoomIn self.old node }
        ensures keeps { Keeps self.old self.new }
        ensures settles { Settles self.old self.new (Ok result) (λ g ways σ. after_one g ways rule σ node x) }
    {
        let given = self.call.given;
        let sort = word(given, node, Row::SORT);
        let fold = fold_one(rule, sort, self.get_constant(x));
        self.settle(node, fold)
    }

    // Forwards a Read of the memory x, where its address y is a constant: what the write holds that is found replaces it.
    fn read(&mut self, node: usize, x: usize, y: usize) -> usize
        requires room { RoomIn self.old node }
        requires falls { FallsIn self.old }
        ensures keeps { Keeps self.old self.new }
        ensures settles { Settles self.old self.new (Ok result) (λ g ways σ. after_read g ways σ node x y) }
    {
        let Some(address) = self.get_constant(y) else {
            return self.settle(node, Folded::Stays);
        };
        let search = self.find_in_memory(x, address);
        self.walk.looked += search.looked;
        match search.found {
            Some(value) => {
                self.walk.passed += search.passed;
                self.settle(node, Folded::Swap(value))
            }
            None => self.settle(node, Folded::Stays),
        }
    }

    // Folds a node whose two operands were visited, by its rule.
    fn after_rule(&mut self, node: usize, rule: Rule, x: usize, y: usize) -> Result<usize, Refusal>
        requires { RoomIn self.old node }
        ensures keeps { Keeps self.old self.new }
        ensures settles { Settles self.old self.new result (λ g ways σ. after_rule g ways rule σ node x y) }
    {
        let given = self.call.given;
        let sort = word(given, node, Row::SORT);
        let left = self.get_constant(x);
        let right = self.get_constant(y);
        let fold = fold_two(self.call.mode.reading, rule, sort, x, y, left, right);
        self.finish(node, asks_bit(rule, sort), fold)
    }

    // What a node does with its two operands, which were visited: it folds, or is a Read and forwarded.
    pub(crate) fn after_two(
        &mut self,
        node: usize,
        pair: Pair,
        x: usize,
        y: usize,
    ) -> Result<usize, Refusal>
        requires room { RoomIn self.old node }
        requires falls { FallsIn self.old }
        ensures keeps { Keeps self.old self.new }
        ensures settles { Settles self.old self.new result (λ g ways σ. after_two g ways pair σ node x y) }
    {
        match pair {
            Pair::Folds(rule) => self.after_rule(node, rule, x, y),
            Pair::Reads => Ok(self.read(node, x, y)),
        }
    }

    // Asks about an Ite whose condition and branches were visited, under minimise.
    pub(crate) fn after_ite(
        &mut self,
        node: usize,
        x: usize,
        y: usize,
        z: usize,
    ) -> Result<usize, Refusal>
        requires { RoomIn self.old node }
        ensures keeps { Keeps self.old self.new }
        ensures settles { Settles self.old self.new result (λ g ways σ. after_ite g ways σ node x y z) }
    {
        if !self.call.mode.minimise {
            return Ok(self.settle(node, Folded::Stays));
        }
        match word(self.call.given, node, Row::SORT) {
            NodeType::BIT => self.solve_ite_bit(node, x),
            NodeType::WORD => self.solve_ite_word(node, y, z),
            _ => Ok(self.settle(node, Folded::Stays)),
        }
    }
}
