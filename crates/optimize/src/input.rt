// A State without init takes an input: the concrete times, in visiting order.
ghost use Rattle.std.specs.Prelude.{◌≡◌, get_or, eqb};
ghost use Rattle.optimize.specs.Folder.{Keeps, RoomIn};
ghost use Rattle.optimize.specs.Clauses.{Takes};

use crate::buffers::{operand, word};
use crate::call::Dumps;
use crate::fold::{Constant, Folded};
use crate::folder::ConstantFolder;
use btor::node_type::NodeType;
use tables::node::{Row, fits_sort};
use tables::refusal::Refusal;

// Whether a name starts with "memory-dump".
fn is_dump(dumps: &Dumps, name: usize) -> bool
    ensures { result ≡ eqb (get_or dumps.now name 0) 1 }
{
    dumps.get(name).is_some_and(|mark| *mark == 1)
}

impl ConstantFolder<'_> {
    // A State without init takes the first of the inputs that is left.
    pub(crate) fn take_input(&mut self, node: usize) -> Result<usize, Refusal>
        requires { RoomIn self.old node }
        ensures keeps { Keeps self.old self.new }
        ensures takes { Takes self.old self.new result node }
    {
        let given = self.call.given;
        let Some(&value) = self.call.inputs.get(self.walk.taken) else {
            return Ok(self.settle(node, Folded::Stays));
        };
        if is_dump(self.call.dumps, operand(given, node, Row::NAME)) {
            return Ok(self.settle(node, Folded::Stays));
        }
        let sort = word(given, node, Row::SORT);
        if sort == NodeType::MEMORY {
            return Err(Refusal::MemoryInput(node));
        }
        if !fits_sort(sort, value) {
            return Err(Refusal::InputTooWide(node));
        }
        self.walk.taken += 1;
        Ok(self.settle(node, Folded::Make(Constant { sort, value })))
    }
}
