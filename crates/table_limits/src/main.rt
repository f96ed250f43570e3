// Replays the kept cases of calls and labels, data/limits.list, and prints how many there are and how many answers differ.
#![tactic(auto)]

use case_list::case::LimitCase;
use kept_lists::replay::replay_streamed;
use std::process::ExitCode;

// The most numbers of a line: a table with every count at its limit, and 4,096 names of 64 bytes.
const MOST: usize = 320000;

fn main(rt: HostRuntime) -> ExitCode {
    replay_streamed::<LimitCase<MOST>, _>(&rt, "limits.list")
}
