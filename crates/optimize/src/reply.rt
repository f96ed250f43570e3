// What a solver replies to a question.
ghost use Rattle.std.specs.Prelude.{◌≡◌, ◌<◌, MatchResult};
ghost use Rattle.optimize.specs.Process.{reply_is};

// No, or a timeout; yes, or unsatisfiable; or satisfiable.
#[derive(Clone, Copy, Debug, PartialEq, Eq)]
pub(crate) enum Reply {
    No,
    Yes,
    Satisfiable,
}

// A number that names no reply.
#[derive(Clone, Copy, Debug, PartialEq, Eq)]
pub(crate) struct UnknownReply(pub(crate) u64);

// The reply that a number names.
impl TryFrom<u64> for Reply {
    type Error = UnknownReply;

    ghost try_from_gives = { λ number named. MatchResult named (λ reply. reply_is reply ≡ number) (λ _. 2 < number) };

    fn try_from(number: u64) -> Result<Reply, UnknownReply> {
        match number {
            0 => Ok(Reply::No),
            1 => Ok(Reply::Yes),
            2 => Ok(Reply::Satisfiable),
            _ => Err(UnknownReply(number)),
        }
    }
}
