// The words of a call, with the six sections that stand in them.
ghost use Rattle.tables.specs.SectionAnswers.{Inside};

use crate::sections::Sections;

#[derive(Clone, Copy)]
pub(crate) struct Table<'a> {
    pub(crate) words: &'a [u64],
    pub(crate) sections: Sections,
    ghost inside: { Inside words.now sections },
}
