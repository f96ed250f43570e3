// The fold of a judged call, in the two lent buffers: optimize_model_impl of optimize.rs from its first visit on.
ghost use Rattle.std.specs.Prelude.{[], ◌+◌, ◌≤◌, ◌*◌, ◌≡◌, length, IfOk, OnOk};
ghost use Rattle.rules.specs.Limits.{house};
ghost use Rattle.rules.specs.Lent.{was};
ghost use Rattle.optimize.specs.Bounds.{count_of};
ghost use Rattle.optimize.specs.Call.{mode_is};
ghost use Rattle.optimize.specs.ResultView.{lists_at};
ghost use Rattle.optimize.specs.Folder.{Keeps};
ghost use Rattle.optimize.specs.Runs.{Begun, Over, Folds, FoldsBads, FoldsOnce, RunnableOn, Runs, Underway, model_of};
ghost use Rattle.optimize.specs.Ending.{Ended};

use crate::bads::Judging;
use crate::beginning::set_up;
use crate::call::Call;
use crate::folder::ConstantFolder;
use crate::last_question::Verdict;
use crate::lists::Lists;
use crate::walk::Walk;
use tables::refusal::Refusal;

impl ConstantFolder<'_> {
    // Judges the initial bads, then the sequential bads. Answers those of each that stay, which stand in the words lent for them.
    fn fold_bads<'b>(
        &mut self,
        initial: &[u64],
        later: &[u64],
        bads: &'b mut [u64],
    ) -> Result<(&'b [u64], &'b [u64]), Refusal>
        requires underway { Underway self.old initial.now later.now }
        requires room { length initial.now + length later.now ≤ length bads.old }
        ensures keeps { Keeps self.old self.new }
        ensures folds_bads { FoldsBads self.old self.new (was initial) (was later) result }
        ensures over { OnOk result (Over self.new) }
        ensures few { IfOk result (λ stay. (length stay.0.now ≤ length initial.now) × (length stay.1.now ≤ length later.now)) }
    {
        let (kept_initial, kept_later) = bads.split_at_mut(initial.len());
        let how = Judging {
            solver: true,
            terminate: self.call.mode.terminate,
            section: 3,
        };
        let staying = self.judge_bads(how, initial, kept_initial)?;
        let how = Judging { section: 4, ..how };
        let remaining = self.judge_bads(how, later, kept_later)?;
        Ok((&kept_initial[..staying], &kept_later[..remaining]))
    }

    // One-query: judges the initial bads alone, and puts the last question about those that stay. Answers these, and the verdict.
    fn fold_once<'b>(
        &mut self,
        initial: &[u64],
        bads: &'b mut [u64],
    ) -> Result<(&'b [u64], Verdict), Refusal>
        requires underway { Underway self.old initial.now [] }
        requires room { length initial.now ≤ length bads.old }
        ensures keeps { Keeps self.old self.new }
        ensures folds_once { FoldsOnce self.old self.new (was initial) result }
        ensures over { OnOk result (Over self.new) }
        ensures few { IfOk result (λ last. length last.0.now ≤ length initial.now) }
    {
        let how = Judging {
            solver: false,
            terminate: true,
            section: 3,
        };
        let staying = self.judge_bads(how, initial, bads)?;
        let kept = &bads[..staying];
        let verdict = self.put_last_question(kept)?;
        Ok((kept, verdict))
    }

    // Folds a model whose sequentials are judged: visits those kept, and judges the bads into the words lent for them. Answers the lists kept, and the verdict.
    fn fold<'b>(
        &mut self,
        lists: Lists<'b>,
        sequentials: &'b [u64],
        bads: &'b mut [u64],
    ) -> Result<(Lists<'b>, Verdict), Refusal>
        requires { Begun self.old lists sequentials.now (length bads.old) }
        ensures keeps { Keeps self.old self.new }
        ensures folds { Folds self.old self.new lists.entry result }
        ensures ended { IfOk result (λ kept. Ended self.new kept.0) }
    {
        let once = self.call.mode.one_query;
        let Lists { initial, later, .. } = lists;
        self.visit_all(sequentials)?;
        if once {
            let (initial, verdict) = self.fold_once(initial, bads)?;
            let kept = Lists {
                sequentials,
                initial,
                later,
            };
            return Ok((kept, verdict));
        }
        let (initial, later) = self.fold_bads(initial, later, bads)?;
        let kept = Lists {
            sequentials,
            initial,
            later,
        };
        Ok((kept, Verdict::Unasked))
    }
}

// Where the kept lists stand in scratch: after the marks, the replacements and the questions.
fn lists_at(call: Call, bads: usize) -> usize
    requires { bads ≤ 2 * house.entries }
    ensures { result ≡ lists_at (count_of call.entry.given.now) bads }
{
    let n = call.node_count();
    2 * n + 4 * (3 * n + bads + 1)
}

// Folds a model: its sequentials, initial bads and sequential bads; the result is written whole.
pub(crate) fn run(
    call: Call,
    lists: Lists,
    res: &mut [u64],
    scratch: &mut [u64],
) -> Result<usize, Refusal>
    requires { RunnableOn call lists (length res.old) (length scratch.old) }
    ensures { Runs (model_of call.entry lists.entry) (mode_is call.entry.mode) (length res.old) result res.new }
{
    // The lists kept stand in scratch, in words lent one behind the other, since there is no heap: a judgement answers how many of them it filled.
    let at = lists_at(call, lists.initial.len() + lists.later.len());
    let (scratch, words) = scratch.split_at_mut(at);
    let (kept, bads) = words.split_at_mut(lists.sequentials.len());
    set_up(call, res, scratch);
    // Made here and by no `new`: what a function makes of two buffers lent for one lifetime, no proof can tell apart at its end.
    let mut folder = ConstantFolder {
        call,
        res: &mut *res,
        scratch: &mut *scratch,
        walk: Walk::default(),
    };
    let count = folder.judge_sequentials(lists.sequentials, kept);
    let (kept, verdict) = folder.fold(lists, &kept[..count], bads)?;
    Ok(folder.write_result(kept, verdict))
}
