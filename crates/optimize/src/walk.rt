// What a walk counts.
ghost use Rattle.std.specs.Prelude.{◌≡◌, ◌≤◌, length};
ghost use Rattle.optimize.specs.Call.{SameState};

use crate::call::Call;

// Constants made, inputs and replies taken, questions asked, writes looked at, unsettled writes passed. Those taken are places in lists of the call, which
// are lent: the tally reports both.
#[derive(Clone, Copy, Default)]
pub(crate) struct Walk {
    pub(crate) made: usize,
    pub(crate) taken: usize,
    pub(crate) used: usize,
    pub(crate) asked: usize,
    pub(crate) looked: usize,
    pub(crate) passed: usize,
}

impl Walk {
    // With no more taken and used than there are inputs and replies: past the end of a list nothing is left of it.
    pub(crate) fn within(self, call: Call) -> Walk
        ensures state { SameState call.entry self result }
        ensures taken_in_bounds { (result.taken ≤ length call.entry.inputs.now) × (result.used ≤ length call.entry.replies.now) }
        ensures others { (result.made ≡ self.made) × (result.asked ≡ self.asked) }
    {
        Walk {
            taken: self.taken.min(call.inputs.len()),
            used: self.used.min(call.replies.len()),
            ..self
        }
    }
}
