// A call judged before the walk, in parts: mode, sections 1 to 7, room, nodes and lists. Only `judge` says in which order.
ghost use Rattle.std.specs.Prelude.{◌<◌, ◌^◌, ◌≡◌, IfOk};
ghost use Rattle.rules.specs.Check.{check};
ghost use Rattle.rules.specs.Call.{judge_mode, judge_room};
ghost use Rattle.tables.specs.LimitAnswers.{limits_is};
ghost use Rattle.tables.specs.SectionAnswers.{cut_of, Inside};
ghost use Rattle.tables.specs.Judging.{judged_of, rows_of, model_in, refusal_in, Counted, room_of, table_judged, IsCut, verdict_of, judged_count};

use crate::limits::{BAD_ROOM, HIGHEST_MODE, LEAST_ROOM, Limits, NODE_ROOM};
use crate::names::cut_names;
use crate::refusal::Refusal;
use crate::sections::{Sections, cut_sections};
use crate::table::Table;

// The largest count that a limit allows.
const MOST: usize = u32::MAX as usize;

// A call whose words and names are in order: where its sections stand, and how many names there are.
#[derive(Clone, Copy, Debug, PartialEq, Eq)]
pub struct Accepted {
    pub sections: Sections,
    pub names: usize,
}

// The mode is a number until it is judged here, as C hands it over.
#[tactic(auto, unfolding(rules::specs::Call::judge_mode))]
pub fn judge_mode(mode: u64) -> Result<(), Refusal>
    ensures { judged_of result ≡ refusal_in (judge_mode mode) }
{
    if HIGHEST_MODE < mode {
        return Err(Refusal::Mode);
    }
    Ok(())
}

// A count, where a limit allows it.
fn counted(count: usize) -> usize
    ensures { (result < 2 ^ 32) × (count < 2 ^ 32 → result ≡ count) }
{
    count.min(MOST)
}

// The words that result and scratch each need, for sections that some limits allow.
pub fn room_needed(sections: Sections) -> usize
    ensures { Counted sections → result ≡ room_of sections }
{
    let bads = counted(sections.initial.count) + counted(sections.later.count);
    let listed = counted(sections.sequentials.count) + counted(sections.inputs.count);
    NODE_ROOM * counted(sections.nodes.count) + BAD_ROOM * bads + listed + LEAST_ROOM
}

#[tactic(auto, unfolding(rules::specs::Call::judge_room))]
pub fn judge_room(needed: usize, result_room: usize, scratch_room: usize) -> Result<(), Refusal>
    ensures { judged_of result ≡ refusal_in (judge_room needed result_room scratch_room) }
{
    if result_room < needed {
        return Err(Refusal::ResultRoom);
    }
    if scratch_room < needed {
        return Err(Refusal::ScratchRoom);
    }
    Ok(())
}

impl<'a> Table<'a> {
    // Nodes rising, then the lists in order.
    #[tactic(auto, unfolding(rules::specs::Check::check))]
    fn judge(self, names: u64) -> Result<(), Refusal>
        ensures { judged_of result ≡ check names (rows_of self.entry) (model_in self.entry.words.now self.entry.sections) }
    {
        self.judge_nodes(names)?;
        self.judge_sequentials()?;
        self.judge_bads(self.list(self.sections.initial), 3)?;
        self.judge_bads(self.list(self.sections.later), 4)
    }
}

// A table alone, with so many names: it is cut here, so that nothing is asked of the caller, and needs no room.
#[tactic(auto, unfolding(rules::specs::Check::check), using(crate::proofs::JudgedLaws::table_stops, crate::proofs::JudgedLaws::table_passes))]
pub fn judge_table(words: &[u64], names: u64, limits: Limits) -> Result<Sections, Refusal>
    ensures result_value { cut_of words.now result ≡ table_judged (limits_is limits) names words.now }
    ensures inside { IfOk result (Inside words.now) }
{
    let sections = cut_sections(words, limits)?;
    Table { words, sections }.judge(names)?;
    Ok(sections)
}

// The stages of a call up to its walk, in the order of the rules.
pub fn judge(
    mode: u64,
    words: &[u64],
    names: &[u8],
    result_room: usize,
    scratch_room: usize,
    limits: Limits,
) -> Result<Accepted, Refusal>
    ensures result_value { verdict_of words.now result ≡ judged_count (limits_is limits) mode words.now names.now result_room scratch_room }
    ensures cut { IfOk result (λ a. IsCut (limits_is limits) words.now a.sections) }
{
    judge_mode(mode)?;
    let sections = cut_sections(words, limits)?;
    let known = cut_names(names, limits)?;
    judge_room(room_needed(sections), result_room, scratch_room)?;
    Table { words, sections }.judge(known as u64)?;
    Ok(Accepted {
        sections,
        names: known,
    })
}
