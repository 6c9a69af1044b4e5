// Whether a plan solves a task. Both are read, the plan only if it is needed.
ghost use Rattle.std.specs.Prelude.{◌≡◌, false, IfOk};
ghost use Rattle.sas_answers.specs.Ending.{Answers, EndsCounting};
ghost use Rattle.sas_plan_reasons.specs.VerdictBy.{VerdictBy};
ghost use Rattle.sas_requests.specs.EndsRequest.{EndsFile, EndsRequest};
ghost use Rattle.sas_requests.specs.Answering.{PlanBy};
ghost use Rattle.sas_requests.specs.OutBy.{OutBy};

use crate::refusals::write_plan_refusal;
use crate::tasks::{ReadTask, read_layered};
use crate::{Detail, Request, Status, ToolFault};
use sas_axioms::Worklist;
use sas_flat::FlatTask;
use sas_lines::Watched;
use sas_meaning::Layered;
use sas_plan_file::{flat_plan_of, read_flat_plan};
use sas_plan_reasons::{LoadedTask, answer_plan};
use std::alloc::{AllocError, Global};
use std::io::{Read, Write};

/// Answers whether the plan solves the task. The plan is read only where the task is layered.
pub fn answer_plan_files<T: Read, P: Read, W: Write>(
    alloc: Global,
    detail: Detail,
    task: &mut Watched<T>,
    plan: &mut Watched<P>,
    out: &mut Watched<W>,
) -> Result<Status, ToolFault>
    requires task { task.old.failed ≡ false }
    requires plan { plan.old.failed ≡ false }
    requires out { out.old.failed ≡ false }
    ensures { Answers W.contents
        (EndsRequest T.remaining P.remaining (λ b c. EndsCounting (OutBy detail Request.Plan b c))
        Request.Plan task.old task.new plan.old plan.new)
        out.old out.new result }
{
    match read_layered(alloc, detail, task, out) {
        ReadTask::Layered(layered) => {
            let ended = answer_plan_file(alloc, detail, &layered, plan, out);
            drop(layered);
            ended
        }
        ReadTask::Ended(ended) => ended,
    }
}

/// Answers whether the plan solves a layered task that was read. The stack frame of this call is large, so it isn't
/// inlined where a task is read.
#[inline(never)]
fn answer_plan_file<P: Read, W: Write>(
    alloc: Global,
    detail: Detail,
    layered: &Layered<FlatTask>,
    plan: &mut Watched<P>,
    out: &mut Watched<W>,
) -> Result<Status, ToolFault>
    requires plan { plan.old.failed ≡ false }
    requires out { out.old.failed ≡ false }
    ensures { Answers W.contents
        (EndsFile P.remaining (PlanBy detail.reasons (VerdictBy detail layered.now))
        plan.old plan.new)
        out.old out.new result }
{
    match read_flat_plan(alloc, plan) {
        Ok(read) => {
            let ended = answer_plan(alloc, detail, layered, &read, out);
            drop(read);
            ended
        }
        Err(refusal) => write_plan_refusal(alloc, detail, refusal, out),
    }
}

/// Loads the task for many plans, with an evaluator that counts open conditions. If memory is refused, the task is dropped.
pub fn load(alloc: Global, layered: Layered<FlatTask>) -> Result<LoadedTask<Worklist>, AllocError>
    ensures { IfOk result (λ h. h ≡ layered) }
{
    let worklist = Worklist::new(alloc, &layered)?;
    LoadedTask::new(alloc, layered, worklist)
}

/// Answers whether a plan with these bytes solves the task, as `answer` does. Nothing of a plan is left for the next one. At `Write` the
/// first bytes of the answer were written; at any other fault nothing was. Not to be called after a failure.
pub fn answer_bytes<W: Write>(
    alloc: Global,
    detail: Detail,
    loaded: &mut LoadedTask<Worklist>,
    plan: &[u8],
    out: &mut Watched<W>,
) -> Result<Status, ToolFault>
    requires { out.old.failed ≡ false }
    ensures answers { Answers W.contents
        (EndsCounting (PlanBy detail.reasons (VerdictBy detail loaded.old) plan.now))
        out.old out.new result }
    ensures same { loaded.new ≡ loaded.old }
{
    match flat_plan_of(alloc, plan) {
        Ok(read) => {
            let ended = loaded.answer(alloc, detail, &read, out);
            drop(read);
            ended
        }
        Err(refusal) => write_plan_refusal(alloc, detail, refusal, out),
    }
}
