// Replays the kept cases, data/cases.list: each text is answered, the answer is held to the kept one, and the differences are counted.
#![tactic(auto)]

mod case; // case.rt: a case of the list

use case::TextCase;
use kept_lists::replay::replay_streamed;
use std::process::ExitCode;

fn main(rt: HostRuntime) -> ExitCode {
    replay_streamed::<TextCase, _>(&rt, "cases.list")
}
