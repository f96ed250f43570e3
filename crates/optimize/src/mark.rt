// What is recorded of a node in scratch: one word for its mark, and one for what stands for it. They stand in two runs of words, all marks before all
// replacements, as both buffers have a fixed layout: before a walk the marks alone are cleared.
ghost use Rattle.std.specs.Prelude.{◌<◌, ◌≡◌};
ghost use Rattle.optimize.specs.View.{mark_by, mark_is, mark_of};
ghost use Rattle.optimize.specs.Folder.{Keeps, count_in};
ghost use Rattle.optimize.specs.Clauses.{PutsMark};

use crate::folder::ConstantFolder;

// A node that is not visited yet, one that stays, and one that another node or a constant stands for.
#[derive(Clone, Copy, Debug, PartialEq, Eq)]
pub(crate) enum Mark {
    Fresh,
    Kept,
    Replaced(usize),
}

// The mark that the two words say. The second is lent, and read only where the first says that there is a replacement: before a walk the marks alone
// are cleared.
impl From<(u64, &u64)> for Mark {
    ghost from_gives = { λ words mark. mark_is mark ≡ mark_by words.0 words.1.now };

    fn from(words: (u64, &u64)) -> Mark {
        let (word, by) = words;
        match word {
            0 => Mark::Fresh,
            1 => Mark::Kept,
            _ => Mark::Replaced(*by as usize),
        }
    }
}

// The two words that say a mark.
impl From<Mark> for (u64, u64) {
    ghost from_gives = { λ mark words. mark_by words.0 words.1 ≡ mark_is mark };

    fn from(mark: Mark) -> (u64, u64) {
        match mark {
            Mark::Fresh => (0, 0),
            Mark::Kept => (1, 0),
            Mark::Replaced(by) => (2, by as u64),
        }
    }
}

impl ConstantFolder<'_> {
    // The mark of a node.
    pub(crate) fn mark_of(&self, node: usize) -> Mark
        requires { node < count_in self.now }
        ensures { mark_is result ≡ mark_of (count_in self.now) self.now.scratch.now node }
    {
        let n = self.call.node_count();
        let scratch = &*self.scratch;
        Mark::from((scratch[node], &scratch[n + node]))
    }

    // Puts the mark of a node.
    pub(crate) fn put_mark(&mut self, node: usize, mark: Mark)
        requires { node < count_in self.old }
        ensures keeps { Keeps self.old self.new }
        ensures walk { self.new.walk ≡ self.old.walk }
        ensures result_stays { self.new.res.now ≡ self.old.res.now }
        ensures puts_mark { PutsMark self.old self.new node mark }
    {
        let n = self.call.node_count();
        let (word, by) = <(u64, u64)>::from(mark);
        self.scratch[node] = word;
        self.scratch[n + node] = by;
    }
}
