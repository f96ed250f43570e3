// The three entry points by the C calling convention. The answer is a struct of words; both lent buffers are left as the rules say.
ghost use Rattle.std.specs.Prelude.{◌≡◌, length};
ghost use Rattle.rules.specs.Call.{optimize_model_impl, optimize_model_with_solver, optimize_model_with_input};
ghost use Rattle.optimize.specs.Entries.{answered};
ghost use Rattle.gemtweed.specs.Answers.{answer_is};

use optimize::optimize::{
    optimize_model_impl, optimize_model_with_input, optimize_model_with_solver,
};
use tables::refusal::Refusal;

// Words one after the other, as C reads them.
// Number 0 is acceptance, with how many words the result has; else a refusal's number, section and position.
#[repr(C)]
#[derive(Clone, Copy, Debug, PartialEq, Eq)]
pub struct GemtweedAnswer {
    pub number: u64,
    pub section: u64,
    pub position: u64,
    pub words: u64,
}

impl From<Result<usize, Refusal>> for GemtweedAnswer {
    ghost from_gives = { λ outcome answer. answer_is answer ≡ answered outcome };

    fn from(outcome: Result<usize, Refusal>) -> GemtweedAnswer {
        match outcome {
            Ok(words) => GemtweedAnswer {
                number: 0,
                section: 0,
                position: 0,
                words: words as u64,
            },
            Err(why) => GemtweedAnswer {
                number: why.number(),
                section: why.section(),
                position: why.position() as u64,
                words: 0,
            },
        }
    }
}

// The reference: inputs and replies both count.
pub fn gemtweed_optimize_model_impl(
    mode: u64,
    words: &[u64],
    names: &[u8],
    res: &mut [u64],
    scratch: &mut [u64],
) -> GemtweedAnswer
    ensures result_value { answer_is result ≡ (optimize_model_impl mode words.now names.now (length res.old) (length scratch.old)).answer }
    ensures res_after { res.new ≡ (optimize_model_impl mode words.now names.now (length res.old) (length scratch.old)).result }
    ensures scratch_after { scratch.new ≡ (optimize_model_impl mode words.now names.now (length res.old) (length scratch.old)).scratch }
{
    GemtweedAnswer::from(optimize_model_impl(mode, words, names, res, scratch))
}

// The inputs do not count.
pub fn gemtweed_optimize_model_with_solver(
    mode: u64,
    words: &[u64],
    names: &[u8],
    res: &mut [u64],
    scratch: &mut [u64],
) -> GemtweedAnswer
    ensures result_value { answer_is result ≡ (optimize_model_with_solver mode words.now names.now (length res.old) (length scratch.old)).answer }
    ensures res_after { res.new ≡ (optimize_model_with_solver mode words.now names.now (length res.old) (length scratch.old)).result }
    ensures scratch_after { scratch.new ≡ (optimize_model_with_solver mode words.now names.now (length res.old) (length scratch.old)).scratch }
{
    GemtweedAnswer::from(optimize_model_with_solver(mode, words, names, res, scratch))
}

// Mode 0, and the replies do not count.
pub fn gemtweed_optimize_model_with_input(
    words: &[u64],
    names: &[u8],
    res: &mut [u64],
    scratch: &mut [u64],
) -> GemtweedAnswer
    ensures result_value { answer_is result ≡ (optimize_model_with_input words.now names.now (length res.old) (length scratch.old)).answer }
    ensures res_after { res.new ≡ (optimize_model_with_input words.now names.now (length res.old) (length scratch.old)).result }
    ensures scratch_after { scratch.new ≡ (optimize_model_with_input words.now names.now (length res.old) (length scratch.old)).scratch }
{
    GemtweedAnswer::from(optimize_model_with_input(words, names, res, scratch))
}
