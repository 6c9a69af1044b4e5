// Many plans of one task, judged one after another.
ghost use Rattle.std.specs.Prelude.{◌≡◌, ◌↔◌, ◌⊎◌, ℕ, List, length, All, Some, false, IfOk, IfErr, IsErrAnd, IsErrOf, IsTrue};
ghost use Rattle.std.specs.Io.KnownBytes.{Appends, Consumes};
ghost use Rattle.sas_answers.specs.Ending.{IsDecided, IsWrite};
ghost use Rattle.sas_requests.specs.Output.{IsLayeredText};
ghost use Rattle.sas_requests.specs.Inputs.{HaveBytes, IsLabel, WereRead, tool_fault, tool_result};
ghost use Rattle.sas_requests.specs.InTurn.{IsRightlyLong, OpensInTurn};
ghost use Rattle.sas_requests.specs.Judged.{EndsPlans, JudgeOut, PlansHeadline};

use crate::inputs::{JudgeFault, PlanInputs, judge_ended};
use crate::many::answer_plans;
use crate::{Detail, ReadTask, read_layered};
use sas_answers::{Status, ToolFault};
use sas_lines::Watched;
use std::alloc::Global;
use std::io::{Read, Write};

/// Judges many plans of one task, and answers with a line for each, its label first, and a last line that says how
/// many are valid, and which of these cost least. A task that is refused has its line alone, and then no plan is opened. Where reasons
/// are asked for, those for a no follow its line, as with `answer`. The task is read once, its layers are checked once, its names are
/// looked up in one table, and one evaluator serves all plans. The status is `Yes` if all plans are valid. A plan file that is refused is
/// one line, and no fault of the run. Nothing is written before all verdicts are known, so at any fault but `Write` nothing was written,
/// and at `Write` the first bytes of the answer. Not to be called with a device that has failed.
///
/// The theorem, `output`, holds where the bytes of the task and of all plans are known, as those of `judge_slices`, and `taken` in
/// any case, of those that were read. `opens` says which plans are opened: all, in order and each once, or those up to the one
/// whose fault is reported. `NotOpened` is reported of the plan that `open` returned `None` for, another fault of one that it opened.
pub fn judge<T: Read, S: PlanInputs, W: Write>(
    alloc: Global,
    reasons: bool,
    task: &mut Watched<T>,
    plans: &mut S,
    out: &mut Watched<W>,
) -> Result<Status, JudgeFault>
    requires task { task.old.failed ≡ false }
    requires out { out.old.failed ≡ false }
    requires labels { All IsLabel (S.labels plans.old) }
    // Of inputs whose bytes are known, the output went out, or its first bytes, or there is none.
    ensures output { (b : List ℕ) (cs : List (List ℕ)) → T.remaining task.old.device ≡ Some b
        → HaveBytes (S.bytes plans.old) (length (S.labels plans.old)) cs
        → EndsPlans reasons (JudgeOut reasons (S.labels plans.old) b cs)
        (Appends (W.contents out.old.device) (W.contents out.new.device)) (tool_result result) }
    // And of any inputs, the output for the bytes that were read of them.
    ensures taken { IsDecided (tool_result result) → (b : List ℕ) × (cs : List (List ℕ))
        × Consumes (T.remaining task.old.device) (T.remaining task.new.device) b
        × WereRead (S.bytes plans.old) (length (S.labels plans.old)) cs
        × EndsPlans reasons (JudgeOut reasons (S.labels plans.old) b cs)
        (Appends (W.contents out.old.device) (W.contents out.new.device)) (tool_result result) }
    // Before the answer is known nothing is written.
    ensures nothing { IfErr result (λ e. IsWrite (tool_fault e) ⊎ (out.new ≡ out.old)) }
    // `LABEL: plan valid` is printed of a plan exactly if it solves the task at the printed cost.
    ensures headline { IfOk result (λ status. (b before : List ℕ) (cs : List (List ℕ))
        → T.remaining task.old.device ≡ Some b
        → HaveBytes (S.bytes plans.old) (length (S.labels plans.old)) cs
        → W.contents out.old.device ≡ Some before
        → PlansHeadline reasons (S.labels plans.old) b cs
        (Appends (W.contents out.old.device) (W.contents out.new.device)) status) }
    // The plans are opened in order, each once, and none after the one at whose fault the run ends.
    ensures opens { OpensInTurn S.open_gives (T.remaining task.old.device)
        (length (S.labels plans.old)) plans.old plans.new result }
    // A plan that is reported to be too long is, where its bytes are known.
    ensures long { IfErr result (IsRightlyLong (S.bytes plans.old)) }
    // The plans stay as they were where the task isn't a text of a layered one.
    ensures plans_wait { (b : List ℕ) → T.remaining task.old.device ≡ Some b
        → (IsLayeredText b → ⊥) → plans.new ≡ plans.old }
    ensures labels { S.labels plans.new ≡ S.labels plans.old }
    ensures reads { IsErrOf result (JudgeFault.Tool ToolFault.Read) ↔ IsTrue task.new.failed }
    ensures writes { IsErrAnd result (λ e. IsWrite (tool_fault e)) ↔ IsTrue out.new.failed }
{
    let detail = Detail {
        reasons,
        trace: false,
    };
    match read_layered(alloc, detail, task, out) {
        ReadTask::Layered(layered) => answer_plans(alloc, reasons, layered, plans, out),
        ReadTask::Ended(ended) => judge_ended(ended),
    }
}
