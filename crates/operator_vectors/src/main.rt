// Replays the kept operator cases, data/operators.list, and prints how many there are and how many answers differ.
#![tactic(auto)]

mod case; // case.rt: a line of the list
mod operator; // operator.rt: the operators by the codes of their node kinds

use case::OperatorCase;
use kept_lists::replay::replay_streamed;
use std::process::ExitCode;

fn main(rt: HostRuntime) -> ExitCode {
    replay_streamed::<OperatorCase, _>(&rt, "operators.list")
}
