// A list's file is read, its cases are tried, and what came of them is printed.
ghost use Rattle.std.specs.Prelude.{◌≡◌, OnOk, OnErr};
ghost use Rattle.std.specs.Process.{exit_status};

use crate::case::{Case, Fault, ReadFault, count_cases};
use crate::list::List;
use crate::streamed::{StreamedCase, count_streamed};
use anyhow::{Context, Result};
use std::fs;
use std::process::ExitCode;
use std::rt::Files;

// Replays the list of that name, which is read whole before its cases are tried. What failed and why is said on standard error.
pub fn replay<C: Case, R: Files + Print + Eprint + AllocGlobal>(rt: &R, name: &str) -> ExitCode {
    told(rt, try_replay::<C, R>(rt, name))
}

// The same of a list that is read a case at a time.
pub fn replay_streamed<C: StreamedCase, R: Files + Print + Eprint + AllocGlobal>(
    rt: &R,
    name: &str,
) -> ExitCode {
    told(rt, try_replay_streamed::<C, R>(rt, name))
}

fn told(rt: &impl Eprint, replayed: Result<()>) -> ExitCode
    ensures done { OnOk replayed (exit_status result ≡ 0) }
    ensures failed { OnErr replayed (exit_status result ≡ 1) }
{
    match replayed {
        Ok(()) => ExitCode::SUCCESS,
        Err(why) => {
            let _ = eprintln!(rt; "{why:#}");
            ExitCode::FAILURE
        }
    }
}

fn try_replay<C: Case, R: Files + Print + AllocGlobal>(rt: &R, name: &str) -> Result<()> {
    let list = fs::read(rt, name).context(name)?;
    match count_cases::<C>(rt.alloc(), list.as_slice()) {
        Ok(tally) => rt.println(tally).context("standard output"),
        Err(Fault::Malformed) => rt.println("malformed list").context("standard output"),
        Err(Fault::Memory(why)) => Err(why).context(name),
    }
}

fn try_replay_streamed<C: StreamedCase, R: Files + Print + AllocGlobal>(
    rt: &R,
    name: &str,
) -> Result<()> {
    let file = fs::open(rt, name).context(name)?;
    let mut list = List::new(rt.alloc(), file).context(name)?;
    match count_streamed::<C, _>(rt.alloc(), &mut list) {
        Ok(tally) => rt.println(tally).context("standard output"),
        Err(ReadFault::Case(Fault::Malformed)) => {
            list.skip(u64::MAX).context(name)?;
            rt.println("malformed list").context("standard output")
        }
        Err(ReadFault::Case(Fault::Memory(why))) => Err(why).context(name),
        Err(ReadFault::Read(why)) => Err(why).context(name),
    }
}

#[cfg(test)]
mod tests {
    use super::*;
    use crate::case::tests::Row;
    use std::test::Fail;
    use std::{env, process};

    // A list that is counted, one that is malformed, and none: only that is a failure.
    #[test]
    fn a_list_is_replayed(rt: HostRuntime) -> Result<(), Fail> {
        let folder = env::temp_dir(&rt)?;
        let id = process::id(rt.process());
        let name = format!(in rt.alloc(); "{}/kept_lists.{id}", folder.as_str())?;
        for list in ["1\n0\n", "1\n0"] {
            fs::write(&rt, name.as_str(), list)?;
            let code = replay::<Row, _>(&rt, name.as_str());
            fs::remove_file(&rt, name.as_str())?;
            assert!(rt; code == ExitCode::SUCCESS, "{list}");
        }
        assert!(rt; replay::<Row, _>(&rt, name.as_str()) == ExitCode::FAILURE);
        Ok(())
    }
}
