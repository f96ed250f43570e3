// Replays the kept whole calls, data/calls.list, and prints how many there are and how many answers differ.
#![tactic(auto)]

use case_list::case::LimitCase;
use kept_lists::replay::replay_streamed;
use std::process::ExitCode;

// The most numbers of a line: 4,096 nodes as given and as they are left, 16,384 replies and 8,189 questions.
const MOST: usize = 100000;

fn main(rt: HostRuntime) -> ExitCode {
    replay_streamed::<LimitCase<MOST>, _>(&rt, "calls.list")
}
