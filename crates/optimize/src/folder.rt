// The fold under way: its call, the two lent buffers and the counters, and what is read and put there.
ghost use Rattle.std.specs.Prelude.{◌+◌, ◌*◌, ◌<◌, ◌≤◌, ◌≡◌, length};
ghost use Rattle.rules.specs.Fold.{const_of};
ghost use Rattle.optimize.specs.Bounds.{count_of, room_of};
ghost use Rattle.optimize.specs.View.{constant_is};

use crate::buffers::row_constant;
use crate::call::Call;
use crate::fold::Constant;
use crate::walk::Walk;
use tables::node::Row;

// Its ghost fields hold at every write. What else its methods ask or promise cannot stand here: Keeps, and that the result stays, are of two values;
// LaidIn fails from a constant made or a question put until the mark of its node; FreshIn and FreshAs name the node, and its mark spends them; a node's bound
// is a fact of the number; why AsksIn, RoomIn and FallsIn cannot, smt_solver.rt and settle.rt say.
#[derive(Drop)]
pub(crate) struct ConstantFolder<'a> {
    pub(crate) call: Call<'a>,
    pub(crate) res: &'a mut [u64],
    pub(crate) scratch: &'a mut [u64],
    pub(crate) walk: Walk,
    ghost room: { room_of (count_of call.given.now) ≤ length res.now },
    ghost asks: { 2 * count_of call.given.now + 4 * walk.asked ≤ length scratch.now },
    ghost made: { walk.made ≤ count_of call.given.now },
}

impl ConstantFolder<'_> {
    ghost use Rattle.optimize.specs.Folder.{Keeps, FreshIn, RoomIn, count_in, rows_in};
    ghost use Rattle.optimize.specs.Clauses.{Pushes, PutsRow};

    // The number of the constant that stands at `at`, if one does.
    pub(crate) fn get_constant(&self, at: usize) -> Option<u64>
        ensures { constant_is result ≡ const_of (rows_in self.now) at }
    {
        let res = &*self.res;
        let n = self.call.node_count();
        if at < n {
            return row_constant(res, at);
        }
        let j = at - n;
        if j < 2 + self.walk.made {
            return Some(res[2 + Row::WIDTH * n + 2 * j + 1]);
        }
        None
    }

    // A new constant after those made.
    pub(crate) fn push(&mut self, constant: Constant)
        requires { self.old.walk.made < count_in self.old }
        ensures keeps { Keeps self.old self.new }
        ensures pushes { Pushes self.old self.new constant.sort constant.value }
    {
        let n = self.call.node_count();
        let at = 2 + Row::WIDTH * n + 2 * (2 + self.walk.made);
        self.res[at] = constant.sort;
        self.res[at + 1] = constant.value;
        self.walk.made += 1;
    }

    // A node's row, with the operands that it is left with; its kind, sort and name stand there as they were given.
    pub(crate) fn put_row(&mut self, node: usize, a: usize, b: usize, c: usize)
        requires { FreshIn self.old node }
        ensures keeps { Keeps self.old self.new }
        ensures walk { self.new.walk ≡ self.old.walk }
        ensures puts_row { PutsRow self.old self.new node a b c }
        ensures room { RoomIn self.new node }
    {
        let at = 1 + Row::WIDTH * node;
        self.res[at + Row::A] = a as u64;
        self.res[at + Row::B] = b as u64;
        self.res[at + Row::C] = c as u64;
    }
}
