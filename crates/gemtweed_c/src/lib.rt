// For C and Rust: the three entry points and the label of a node, as a static library: each calls the function of its name in `gemtweed` and promises
// the same. include/gemtweed.h says how they are called: mode, words, names and buffers stand beside one another, and the mode is a number, as that is the
// C interface.
#![tactic(auto)]

ghost use Rattle.std.specs.Prelude.{◌≡◌, length};
ghost use Rattle.rules.specs.Call.{optimize_model_impl, optimize_model_with_solver, optimize_model_with_input};
ghost use Rattle.rules.specs.Limits.{house};
ghost use Rattle.rules.specs.Label.{label_of};
ghost use Rattle.gemtweed.specs.Answers.{answer_is, laid_in};

use gemtweed::fold::GemtweedAnswer;

// The reference: inputs and replies both count.
#[unsafe(no_mangle)]
pub extern "C" fn gemtweed_optimize_model_impl(
    mode: u64,
    words: &[u64],
    names: &[u8],
    res: &mut [u64],
    scratch: &mut [u64],
) -> GemtweedAnswer
    ensures result_value { answer_is result ≡ (optimize_model_impl mode words.now names.now (length res.old) (length scratch.old)).answer }
    ensures res_after { res.new ≡ (optimize_model_impl mode words.now names.now (length res.old) (length scratch.old)).result }
    ensures scratch_after { scratch.new ≡ (optimize_model_impl mode words.now names.now (length res.old) (length scratch.old)).scratch }
{
    gemtweed::fold::gemtweed_optimize_model_impl(mode, words, names, res, scratch)
}

// The inputs do not count.
#[unsafe(no_mangle)]
pub extern "C" fn gemtweed_optimize_model_with_solver(
    mode: u64,
    words: &[u64],
    names: &[u8],
    res: &mut [u64],
    scratch: &mut [u64],
) -> GemtweedAnswer
    ensures result_value { answer_is result ≡ (optimize_model_with_solver mode words.now names.now (length res.old) (length scratch.old)).answer }
    ensures res_after { res.new ≡ (optimize_model_with_solver mode words.now names.now (length res.old) (length scratch.old)).result }
    ensures scratch_after { scratch.new ≡ (optimize_model_with_solver mode words.now names.now (length res.old) (length scratch.old)).scratch }
{
    gemtweed::fold::gemtweed_optimize_model_with_solver(mode, words, names, res, scratch)
}

// Mode 0, and the replies do not count.
#[unsafe(no_mangle)]
pub extern "C" fn gemtweed_optimize_model_with_input(
    words: &[u64],
    names: &[u8],
    res: &mut [u64],
    scratch: &mut [u64],
) -> GemtweedAnswer
    ensures result_value { answer_is result ≡ (optimize_model_with_input words.now names.now (length res.old) (length scratch.old)).answer }
    ensures res_after { res.new ≡ (optimize_model_with_input words.now names.now (length res.old) (length scratch.old)).result }
    ensures scratch_after { scratch.new ≡ (optimize_model_with_input words.now names.now (length res.old) (length scratch.old)).scratch }
{
    gemtweed::fold::gemtweed_optimize_model_with_input(words, names, res, scratch)
}

// The label's length. The label is copied to the front of `out`, if it has room for all of it; else `out` stays as it is.
#[unsafe(no_mangle)]
pub extern "C" fn gemtweed_label<'a>(
    words: &[u64],
    names: &'a [u8],
    substitute: &'a [u8],
    node: u64,
    out: &mut [u8],
) -> u64
    ensures value { result ≡ length (label_of house node words.now names.now substitute.now) }
    ensures out_after { out.new ≡ laid_in (label_of house node words.now names.now substitute.now) out.old }
{
    gemtweed::label::gemtweed_label(words, names, substitute, node, out)
}
