// The words of the rows in words that start with section 1.
ghost use Rattle.std.specs.Prelude.{◌≡◌, ◌<◌};
ghost use Rattle.rules.specs.Table.{row_width};
ghost use Rattle.rules.specs.Sections.{word_of};
ghost use Rattle.tables.specs.NodeAnswers.{row_is, row_at, HasRow};

use crate::node::Row;

// One word of a row. The words are lent, with the layout of docs/FORMAT.md, so a node and a place in its row stand beside them.
pub(crate) fn row_word(words: &[u64], node: usize, place: usize) -> u64
    requires has_row { HasRow words.now node }
    requires place_lt_row_width { place < row_width }
    ensures { result ≡ word_of words.now node place }
{
    words[1 + Row::WIDTH * node + place]
}

pub(crate) fn row_at(words: &[u64], node: usize) -> Row
    requires { HasRow words.now node }
    ensures { row_is result ≡ row_at words.now node }
{
    Row {
        code: row_word(words, node, Row::CODE),
        sort: row_word(words, node, Row::SORT),
        a: row_word(words, node, Row::A),
        b: row_word(words, node, Row::B),
        c: row_word(words, node, Row::C),
        name: row_word(words, node, Row::NAME),
    }
}
