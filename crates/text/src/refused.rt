// A refusal as it is printed: the call's own, or that of reading a text.
ghost use Rattle.std.specs.Prelude.{◌≡◌};
ghost use Rattle.tables.specs.Refusals.{refusal_of};
ghost use Rattle.text.specs.Refused.{refused_is};

use tables::refusal::Refusal;

// Its number, section and position (docs/FORMAT.md, "Refusals"), as words. `GemtweedAnswer` is no such: a call's outcome in four words, as C lays it out.
#[derive(Clone, Copy, Debug, PartialEq, Eq)]
pub struct Refused {
    pub number: u64,
    pub section: u64,
    pub position: u64,
}

impl From<Refusal> for Refused {
    ghost from_gives = { λ why line. refused_is line ≡ refusal_of why };

    fn from(why: Refusal) -> Refused {
        Refused {
            number: why.number(),
            section: why.section(),
            position: why.position() as u64,
        }
    }
}
