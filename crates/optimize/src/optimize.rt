// The three entry points: a call is judged, folded, and both lent buffers are left as the rules say. Mode, words, names and the buffers stand beside one
// another in `optimize` and `fold_judged` as in these public functions, whose parameters are those by which C hands a call over and may not change.
ghost use Rattle.std.specs.Prelude.{◌≡◌, ◌≤◌, length, replicate};
ghost use Rattle.rules.specs.Limits.{house};
ghost use Rattle.rules.specs.Call.{left, optimize_model_impl, optimize_model_with_solver, optimize_model_with_input};
ghost use Rattle.tables.specs.Judging.{call_with};
ghost use Rattle.optimize.specs.Entries.{entry_is, answered, brings_inputs, brings_replies, brought_of, result_left, InOrder, call_lent};

use crate::call::{Call, Dumps, Mode};
use crate::lists::Lists;
use crate::run::run;
use tables::judge::judge;
use tables::limits::{Limits, NAME_MARKS};
use tables::names::mark_memory_dumps;
use tables::refusal::Refusal;
use tables::sections::{Part, Sections};

// Which of the three functions is called.
#[derive(Clone, Copy)]
pub(crate) enum Entry {
    Impl,
    WithSolver,
    WithInput,
}

impl Entry {
    // Whether the inputs of a call count.
    fn brings_inputs(self) -> bool
        ensures { result ≡ brings_inputs (entry_is self) }
    {
        !matches!(self, Entry::WithSolver)
    }

    // Whether its replies do.
    fn brings_replies(self) -> bool
        ensures { result ≡ brings_replies (entry_is self) }
    {
        !matches!(self, Entry::WithInput)
    }
}

// The words of a part that an entry point brings; of one that it does not bring, none.
fn brought(brings: bool, words: &[u64], part: Part) -> &[u64]
    requires { (part.start ≤ part.end) × (part.end ≤ length words.now) }
    ensures { result.now ≡ brought_of brings words.now part }
{
    let end = if brings { part.end } else { part.start };
    &words[part.start..end]
}

// Scratch is 0 after each call, and result after a refusal.
fn finish_call(
    outcome: Result<usize, Refusal>,
    res: &mut [u64],
    scratch: &mut [u64],
) -> Result<usize, Refusal>
    ensures value { result ≡ outcome }
    ensures res_after { res.new ≡ result_left outcome res.old }
    ensures scratch_after { scratch.new ≡ replicate (length scratch.old) 0 }
{
    scratch.fill(0);
    if outcome.is_err() {
        res.fill(0);
    }
    outcome
}

// Folds what an entry point brings of a call that is in order.
fn fold_judged(
    entry: Entry,
    mode: u64,
    words: &[u64],
    names: &[u8],
    sections: Sections,
    res: &mut [u64],
    scratch: &mut [u64],
) -> Result<usize, Refusal>
    requires { InOrder (call_with mode words.now names.now (length res.old) (length scratch.old)) sections }
    ensures result_value { answered result ≡ (left house (entry_is entry) (call_lent mode words names res scratch)).answer }
    ensures res_after { res.new ≡ (left house (entry_is entry) (call_lent mode words names res scratch)).result }
    ensures scratch_after { scratch.new ≡ (left house (entry_is entry) (call_lent mode words names res scratch)).scratch }
{
    let mut dumps: Dumps = [0; NAME_MARKS];
    mark_memory_dumps(names, &mut dumps);
    let call = Call {
        given: words,
        inputs: brought(entry.brings_inputs(), words, sections.inputs),
        replies: brought(entry.brings_replies(), words, sections.replies),
        dumps: &dumps,
        mode: Mode::from(mode),
    };
    let outcome = run(call, Lists::cut(words, sections), res, scratch);
    finish_call(outcome, res, scratch)
}

// A whole call of an entry point: judged, then folded.
fn optimize(
    entry: Entry,
    mode: u64,
    words: &[u64],
    names: &[u8],
    res: &mut [u64],
    scratch: &mut [u64],
) -> Result<usize, Refusal>
    ensures result_value { answered result ≡ (left house (entry_is entry) (call_lent mode words names res scratch)).answer }
    ensures res_after { res.new ≡ (left house (entry_is entry) (call_lent mode words names res scratch)).result }
    ensures scratch_after { scratch.new ≡ (left house (entry_is entry) (call_lent mode words names res scratch)).scratch }
{
    match judge(
        mode,
        words,
        names,
        res.len(),
        scratch.len(),
        Limits::house(),
    ) {
        Ok(accepted) => fold_judged(entry, mode, words, names, accepted.sections, res, scratch),
        Err(refusal) => finish_call(Err(refusal), res, scratch),
    }
}

// The reference: inputs and replies both count.
pub fn optimize_model_impl(
    mode: u64,
    words: &[u64],
    names: &[u8],
    res: &mut [u64],
    scratch: &mut [u64],
) -> Result<usize, Refusal>
    ensures result_value { answered result ≡ (optimize_model_impl mode words.now names.now (length res.old) (length scratch.old)).answer }
    ensures res_after { res.new ≡ (optimize_model_impl mode words.now names.now (length res.old) (length scratch.old)).result }
    ensures scratch_after { scratch.new ≡ (optimize_model_impl mode words.now names.now (length res.old) (length scratch.old)).scratch }
{
    optimize(Entry::Impl, mode, words, names, res, scratch)
}

// The inputs do not count.
pub fn optimize_model_with_solver(
    mode: u64,
    words: &[u64],
    names: &[u8],
    res: &mut [u64],
    scratch: &mut [u64],
) -> Result<usize, Refusal>
    ensures result_value { answered result ≡ (optimize_model_with_solver mode words.now names.now (length res.old) (length scratch.old)).answer }
    ensures res_after { res.new ≡ (optimize_model_with_solver mode words.now names.now (length res.old) (length scratch.old)).result }
    ensures scratch_after { scratch.new ≡ (optimize_model_with_solver mode words.now names.now (length res.old) (length scratch.old)).scratch }
{
    optimize(Entry::WithSolver, mode, words, names, res, scratch)
}

// Mode 0, and the replies do not count.
pub fn optimize_model_with_input(
    words: &[u64],
    names: &[u8],
    res: &mut [u64],
    scratch: &mut [u64],
) -> Result<usize, Refusal>
    ensures result_value { answered result ≡ (optimize_model_with_input words.now names.now (length res.old) (length scratch.old)).answer }
    ensures res_after { res.new ≡ (optimize_model_with_input words.now names.now (length res.old) (length scratch.old)).result }
    ensures scratch_after { scratch.new ≡ (optimize_model_with_input words.now names.now (length res.old) (length scratch.old)).scratch }
{
    optimize(Entry::WithInput, 0, words, names, res, scratch)
}
