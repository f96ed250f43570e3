// The label of a node: a part of the names bytes, or the caller's substitute. Sections 1 and 7 alone are looked at.
ghost use Rattle.std.specs.Prelude.{◌≡◌};
ghost use Rattle.rules.specs.Label.{label_of};
ghost use Rattle.tables.specs.LimitAnswers.{limits_is};
ghost use Rattle.tables.specs.NameAnswers.{nodes_in, name_word_of};

use crate::limits::Limits;
use crate::names::name_place;
use crate::node::Row;
use crate::rows::row_word;
use crate::sections::section_at;

// How many nodes section 1 holds: none where it is refused.
#[tactic(auto, unfolding(crate::specs::NameAnswers::nodes_cut))]
fn nodes_in(words: &[u64], limits: Limits) -> u64
    ensures { result ≡ nodes_in (limits_is limits) words.now }
{
    section_at(words, 0, 1, limits.nodes, Row::WIDTH).map_or(0, |nodes| nodes.count as u64)
}

// The name word of a node: 0, which is no name, where section 1 has no such node.
fn name_word(words: &[u64], node: u64, limits: Limits) -> u64
    ensures { result ≡ name_word_of (limits_is limits) words.now node }
{
    if nodes_in(words, limits) <= node {
        return 0;
    }
    row_word(words, node as usize, Row::NAME)
}

// The name of a node, or the substitute: for a node past the table, with name 0 or past the last, or where section 1 or 7 is refused.
pub fn label<'a>(
    words: &[u64],
    names: &'a [u8],
    substitute: &'a [u8],
    node: u64,
    limits: Limits,
) -> &'a [u8]
    ensures { result.now ≡ label_of (limits_is limits) node words.now names.now substitute.now }
{
    match name_place(names, name_word(words, node, limits), limits) {
        Some(name) => &names[name.start..name.start + name.len],
        None => substitute,
    }
}
