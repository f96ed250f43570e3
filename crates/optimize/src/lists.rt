// The lists of a model, and the visits of a list of nodes.
ghost use Rattle.std.specs.Prelude.{◌<◌, OnOk};
ghost use Rattle.rules.specs.Lists.{All};
ghost use Rattle.rules.specs.Lent.{was};
ghost use Rattle.tables.specs.SectionAnswers.{Inside};
ghost use Rattle.optimize.specs.Lists.{ListsCut};
ghost use Rattle.optimize.specs.Folder.{Keeps, LaidIn, count_in};
ghost use Rattle.optimize.specs.Clauses.{WalksAll};

use crate::folder::ConstantFolder;
use tables::refusal::Refusal;
use tables::sections::Sections;

// The sequentials, the initial bads and the sequential bads of a model: those given, or those kept.
#[derive(Clone, Copy)]
pub(crate) struct Lists<'a> {
    pub(crate) sequentials: &'a [u64],
    pub(crate) initial: &'a [u64],
    pub(crate) later: &'a [u64],
}

impl<'a> Lists<'a> {
    // Those that stand in the cut words of a call.
    pub(crate) fn cut(words: &'a [u64], sections: Sections) -> Lists<'a>
        requires { Inside words.now sections }
        ensures { ListsCut result words.now sections }
    {
        let Sections {
            sequentials,
            initial,
            later,
            ..
        } = sections;
        Lists {
            sequentials: &words[sequentials.start..sequentials.end],
            initial: &words[initial.start..initial.end],
            later: &words[later.start..later.end],
        }
    }
}

impl ConstantFolder<'_> {
    // Visits the nodes of a list, in order.
    pub(crate) fn visit_all(&mut self, nodes: &[u64]) -> Result<(), Refusal>
        requires laid { LaidIn self.old }
        requires inside { All (λ k. k < count_in self.old) nodes.now }
        ensures keeps { Keeps self.old self.new }
        ensures walks_all { WalksAll self.old self.new (was nodes) result }
        ensures laid { OnOk result (LaidIn self.new) }
    {
        for &node in nodes {
            self.visit(node as usize)?;
        }
        Ok(())
    }
}
