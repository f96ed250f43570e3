// A label by the C calling convention, which cannot return a part of a slice: it is copied out.
ghost use Rattle.std.specs.Prelude.{◌≡◌, length};
ghost use Rattle.rules.specs.Limits.{house};
ghost use Rattle.rules.specs.Label.{label_of};
ghost use Rattle.gemtweed.specs.Answers.{laid_in};

use tables::label::label;
use tables::limits::Limits;

// Copies the text to the front of `out`, if it has room for all of it; the other bytes stay. Answers the text's length.
#[tactic(auto, unfolding(crate::specs::Answers::laid_in))]
pub fn lay(text: &[u8], out: &mut [u8]) -> u64
    ensures value { result ≡ length text.now }
    ensures out_after { out.new ≡ laid_in text.now out.old }
{
    if text.len() <= out.len() {
        out[..text.len()].copy_from_slice(text);
    }
    text.len() as u64
}

// The label's length. The label is copied to the front of `out`, if it has room for all of it; else `out` stays as it is.
pub fn gemtweed_label<'a>(
    words: &[u64],
    names: &'a [u8],
    substitute: &'a [u8],
    node: u64,
    out: &mut [u8],
) -> u64
    ensures value { result ≡ length (label_of house node words.now names.now substitute.now) }
    ensures out_after { out.new ≡ laid_in (label_of house node words.now names.now substitute.now) out.old }
{
    lay(label(words, names, substitute, node, Limits::house()), out)
}
