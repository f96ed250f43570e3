// Sections 1 to 6 of the words of a call, each after its count.
ghost use Rattle.std.specs.Prelude.{◌≡◌, ◌≤◌, drop, IfOk};
ghost use Rattle.rules.specs.Table.{row_width};
ghost use Rattle.rules.specs.Sections.{cut_section, cut_six, cut};
ghost use Rattle.tables.specs.LimitAnswers.{limits_is};
ghost use Rattle.tables.specs.SectionAnswers.{found_of, six_of, cut_of, Lies, Inside};

use crate::limits::Limits;
use crate::node::Row;
use crate::refusal::Refusal;

// A section: how many it counts, and where its words start and end.
// Places and not slices: what the sections are kept beside holds the words, and room is counted by the counts alone.
#[derive(Clone, Copy, Debug, PartialEq, Eq)]
pub struct Part {
    pub count: usize,
    pub start: usize,
    pub end: usize,
}

#[derive(Clone, Copy, Debug, PartialEq, Eq)]
pub struct Sections {
    pub nodes: Part,
    pub sequentials: Part,
    pub initial: Part,
    pub later: Part,
    pub inputs: Part,
    pub replies: Part,
}

// The section whose count stands at a place, with `width` words for each that is counted. Its own number is the one that a refusal tells, and docs/FORMAT.md names.
#[tactic(auto, using(rules::proofs::Sections::one_section))]
pub(crate) fn section_at(
    words: &[u64],
    at: usize,
    section: u64,
    limit: u32,
    width: usize,
) -> Result<Part, Refusal>
    requires { width ≤ row_width }
    ensures result_value { found_of words.now width result ≡ cut_section section limit width (drop at words.now) }
    ensures lies { IfOk result (Lies words.now at width) }
{
    let Some(&counted) = words.get(at) else {
        return Err(Refusal::Short(section));
    };
    if u64::from(limit) < counted {
        return Err(Refusal::OverLimit(section));
    }
    let count = counted as usize;
    let start = at + 1;
    if words.len() - start < width * count {
        return Err(Refusal::Short(section));
    }
    let end = start + width * count;
    Ok(Part { count, start, end })
}

// The six sections, whatever follows them.
#[tactic(auto, unfolding(rules::specs::Sections::cut_six))]
pub fn cut_six(words: &[u64], limits: Limits) -> Result<Sections, Refusal>
    ensures result_value { six_of words.now result ≡ cut_six (limits_is limits) words.now }
    ensures inside { IfOk result (Inside words.now) }
{
    let nodes = section_at(words, 0, 1, limits.nodes, Row::WIDTH)?;
    let sequentials = section_at(words, nodes.end, 2, limits.entries, 1)?;
    let initial = section_at(words, sequentials.end, 3, limits.entries, 1)?;
    let later = section_at(words, initial.end, 4, limits.entries, 1)?;
    let inputs = section_at(words, later.end, 5, limits.inputs, 1)?;
    let replies = section_at(words, inputs.end, 6, limits.replies, 1)?;
    Ok(Sections {
        nodes,
        sequentials,
        initial,
        later,
        inputs,
        replies,
    })
}

// The six sections, with nothing left over after them.
#[tactic(auto, unfolding(rules::specs::Sections::cut), using(crate::proofs::SectionLaws::left_over, crate::proofs::SectionLaws::none_over))]
pub fn cut_sections(words: &[u64], limits: Limits) -> Result<Sections, Refusal>
    ensures result_value { cut_of words.now result ≡ cut (limits_is limits) words.now }
    ensures inside { IfOk result (Inside words.now) }
{
    let sections = cut_six(words, limits)?;
    if sections.replies.end < words.len() {
        return Err(Refusal::Short(6));
    }
    Ok(sections)
}
