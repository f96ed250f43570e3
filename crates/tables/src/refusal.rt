// Why a call is refused, with its place. `refusal_of` of specs/Refusals.antt gives each case its number, section and position.
ghost use Rattle.std.specs.Prelude.{◌≡◌};
ghost use Rattle.tables.specs.Refusals.{refusal_of};

// Sections are numbers, as in docs/FORMAT.md: whoever makes a refusal may give any word.
#[derive(Clone, Copy, Debug, PartialEq, Eq)]
pub enum Refusal {
    // 1: a mode above the highest.
    Mode,
    // 1: a section that is short, or something left over after it.
    Short(u64),
    // 2: a count, or a name's length, over its limit.
    OverLimit(u64),
    // 3: a node with an unknown kind or sort code, a word that must be 0, or a name rule broken.
    Malformed(usize),
    // 4: a node with an operand that is not before it.
    OperandNotBefore(usize),
    // 5: a node whose sorts do not fit.
    Sorts(usize),
    // 6: a list entry, by section and place, past the table or of the wrong kind, or a Next whose state has no init.
    Entry(u64, usize),
    // 7: a second sequential for one state.
    SecondSequential(usize),
    // 8: a memory State that would take an input.
    MemoryInput(usize),
    // 10: a State whose input is too wide.
    InputTooWide(usize),
    // 11: a reply that its question cannot have.
    Reply(usize),
    // 12: no room in the result, or in scratch.
    ResultRoom,
    ScratchRoom,
    // 13: a bad always true, by section and place.
    AlwaysTrue(u64, usize),
    // 14: a bad satisfiable, by section and place.
    Satisfiable(u64, usize),
}

impl Refusal {
    // The refusal's number (docs/FORMAT.md, "Refusals").
    pub fn number(self) -> u64
        ensures { result ≡ (refusal_of self).reason }
    {
        match self {
            Refusal::Mode => 1,
            Refusal::Short(_) => 1,
            Refusal::OverLimit(_) => 2,
            Refusal::Malformed(_) => 3,
            Refusal::OperandNotBefore(_) => 4,
            Refusal::Sorts(_) => 5,
            Refusal::Entry(_, _) => 6,
            Refusal::SecondSequential(_) => 7,
            Refusal::MemoryInput(_) => 8,
            Refusal::InputTooWide(_) => 10,
            Refusal::Reply(_) => 11,
            Refusal::ResultRoom => 12,
            Refusal::ScratchRoom => 12,
            Refusal::AlwaysTrue(_, _) => 13,
            Refusal::Satisfiable(_, _) => 14,
        }
    }

    // The section where it happens: 0 for the mode, 8 for room.
    pub fn section(self) -> u64
        ensures { result ≡ (refusal_of self).section }
    {
        match self {
            Refusal::Mode => 0,
            Refusal::Short(section) => section,
            Refusal::OverLimit(section) => section,
            Refusal::Malformed(_) => 1,
            Refusal::OperandNotBefore(_) => 1,
            Refusal::Sorts(_) => 1,
            Refusal::Entry(section, _) => section,
            Refusal::SecondSequential(_) => 2,
            Refusal::MemoryInput(_) => 1,
            Refusal::InputTooWide(_) => 1,
            Refusal::Reply(_) => 6,
            Refusal::ResultRoom => 8,
            Refusal::ScratchRoom => 8,
            Refusal::AlwaysTrue(section, _) => section,
            Refusal::Satisfiable(section, _) => section,
        }
    }

    // The place within the section; for room, 0 is the result and 1 scratch.
    pub fn position(self) -> usize
        ensures { result ≡ (refusal_of self).position }
    {
        match self {
            Refusal::Mode => 0,
            Refusal::Short(_) => 0,
            Refusal::OverLimit(_) => 0,
            Refusal::Malformed(node) => node,
            Refusal::OperandNotBefore(node) => node,
            Refusal::Sorts(node) => node,
            Refusal::Entry(_, place) => place,
            Refusal::SecondSequential(place) => place,
            Refusal::MemoryInput(node) => node,
            Refusal::InputTooWide(node) => node,
            Refusal::Reply(place) => place,
            Refusal::ResultRoom => 0,
            Refusal::ScratchRoom => 1,
            Refusal::AlwaysTrue(_, place) => place,
            Refusal::Satisfiable(_, place) => place,
        }
    }
}
