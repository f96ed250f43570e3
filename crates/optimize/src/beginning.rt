// The beginning of a fold: the buffers are set up.
ghost use Rattle.std.specs.Prelude.{length};
ghost use Rattle.optimize.specs.ResultView.{Ready};
ghost use Rattle.optimize.specs.Clauses.{SetsUp};

use crate::call::Call;
use btor::node_type::NodeType;
use tables::node::Row;

// The given count and rows, and the shared false and true after them; no node is visited yet.
pub(crate) fn set_up(call: Call, res: &mut [u64], scratch: &mut [u64])
    requires { Ready call.given.now (length res.old) (length scratch.old) }
    ensures { SetsUp call.entry res scratch }
{
    let n = call.node_count();
    let end = 1 + Row::WIDTH * n;
    res[..end].copy_from_slice(&call.given[..end]);
    res[end + 1..end + 5].copy_from_slice(&[NodeType::BIT, 0, NodeType::BIT, 1]);
    scratch[..n].fill(0);
}
