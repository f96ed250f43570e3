// What a call fixes for all of its fold: the table, what it brings, and what its mode asks for.
ghost use Rattle.std.specs.Prelude.{◌<◌, ◌≤◌, ◌≡◌};
ghost use Rattle.rules.specs.Limits.{adds, mode_of};
ghost use Rattle.optimize.specs.Bounds.{count_of, most_nodes};
ghost use Rattle.optimize.specs.Lists.{Table, Table-prop};

use btor::reading::Reading;
use tables::limits::NAME_MARKS;

// A 1 for each name that begins with `memory-dump`; none has number 0. They are bytes, not bools, as those that `mark_memory_dumps` fills: it is a
// public function of tables, whose signature and promise may not change.
pub(crate) type Dumps = [u8; NAME_MARKS];

// What a mode asks for, and whose operators and reads it folds by: the Rust's in every mode.
#[derive(Clone, Copy)]
pub(crate) struct Mode {
    pub(crate) minimise: bool,
    pub(crate) terminate: bool,
    pub(crate) one_query: bool,
    pub(crate) reading: Reading,
}

// Whether a mode has added a part: 1, 2 or 4. Both are numbers, as C hands a mode over and docs/FORMAT.md names its parts.
fn adds(mode: u64, part: u64) -> bool
    requires { 0 < part }
    ensures { result ≡ adds mode part }
{
    mode / part % 2 == 1
}

// What the number of a mode adds up.
impl From<u64> for Mode {
    ghost use Rattle.optimize.specs.Call.{mode_is};

    ghost from_gives = { λ number mode. mode_is mode ≡ mode_of number };

    fn from(mode: u64) -> Mode {
        Mode {
            minimise: adds(mode, 1),
            terminate: adds(mode, 2),
            one_query: adds(mode, 4),
            reading: Reading::Rust,
        }
    }
}

// A legal table and the sections after it, the inputs and replies that count, the marks of the names, and the mode.
#[derive(Clone, Copy)]
pub(crate) struct Call<'a> {
    pub(crate) given: &'a [u64],
    pub(crate) inputs: &'a [u64],
    pub(crate) replies: &'a [u64],
    pub(crate) dumps: &'a Dumps,
    pub(crate) mode: Mode,
    ghost table: { Table given.now } by { Table-prop given.now },
}

impl Call<'_> {
    // How many nodes the table has.
    pub(crate) fn node_count(self) -> usize
        ensures value { result ≡ count_of self.entry.given.now }
        ensures upper_bound { result ≤ most_nodes }
    {
        self.given[0] as usize
    }
}
