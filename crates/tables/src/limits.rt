// The numbers of a call, each in one place: the most of everything, the room that a table needs, and the highest mode.
ghost use Rattle.std.specs.Prelude.{◌≡◌};
ghost use Rattle.rules.specs.Limits.{house};
ghost use Rattle.tables.specs.LimitAnswers.{limits_is};

pub const HIGHEST_MODE: u64 = 7;

// The words of room for each node, for each bad entry, and for a table that has none.
pub const NODE_ROOM: usize = 22;

pub const BAD_ROOM: usize = 5;

pub const LEAST_ROOM: usize = 22;

// The most nodes, entries in each of sections 2, 3 and 4, inputs, replies, names, and bytes of a name.
// They go beside words or names bytes and are in no struct with them: of a call some public functions look at the words alone, and some at the names.
// They are of 32 bits, so that the words and the room of whatever they allow can be counted.
#[derive(Clone, Copy, Debug, PartialEq, Eq)]
pub struct Limits {
    pub nodes: u32,
    pub entries: u32,
    pub inputs: u32,
    pub replies: u32,
    pub names: u32,
    pub name_length: u32,
}

// The house's own.
pub const NODES: u32 = 4096;

pub const ENTRIES: u32 = 1024;

pub const INPUTS: u32 = 4096;

pub const REPLIES: u32 = 16384;

pub const NAMES: u32 = 4096;

pub const NAME_LENGTH: u32 = 64;

// A mark for each name that they allow, and one for none.
pub const NAME_MARKS: usize = 4097;

impl Limits {
    pub fn house() -> Limits
        ensures { limits_is result ≡ house }
    {
        Limits {
            nodes: NODES,
            entries: ENTRIES,
            inputs: INPUTS,
            replies: REPLIES,
            names: NAMES,
            name_length: NAME_LENGTH,
        }
    }
}
