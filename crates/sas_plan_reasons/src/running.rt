// The answers about plans by numbers with their traces, as they go out.
ghost use Rattle.std.specs.Prelude.{◌≡◌, ℕ, List, Some, false, IfOk, IsSomeAnd};
ghost use Rattle.sas_core.specs.declared.parts.Parts.{Parts};
ghost use Rattle.sas_answers.specs.Ending.{EndsCounting, Writes, output_of};
ghost use Rattle.sas_answers.specs.NumberedPlans.{AnswerFrom, start_refusal};
ghost use Rattle.sas_run.specs.Runs.{Run};
ghost use Rattle.sas_run.specs.Starts.{IsStart, start_of};
ghost use Rattle.sas_run.specs.Stepping.{IsPrepared};
ghost use Rattle.sas_plan_reasons.specs.RunTraces.{RunEndsFrom, TraceFrom};

use crate::replays::{Replay, write_replay};
use sas_answers::{Answer, Status, ToolFault, accept_plan, answer_number_fault, refuse_start};
use sas_flat::FlatTask;
use sas_lines::Watched;
use sas_meaning::{Layered, Settle};
use sas_run::{NumberedPlan, PlanFault, StartFault, Stepper, find_end};
use std::alloc::{AllocError, Global};
use std::io::Write;

/// Writes the trace of a plan by numbers, whose start is a state, as far as its operators go through, and after it the answer about it.
/// Returns the answer's status. If an `Err` isn't a failed write, it is `Memory`, and nothing was written. Not to be called after a failure.
pub fn write_run_trace<W: Write, E: Settle<FlatTask> + Drop>(
    alloc: Global,
    task: &Layered<FlatTask>,
    stepper: &mut Stepper<E>,
    plan: &NumberedPlan<'_>,
    out: &mut Watched<W>,
) -> Result<Status, ToolFault>
    requires prepared { IsPrepared E.ready task.now stepper.old }
    requires start { IsStart task.now plan.now.start.now }
    requires out { out.old.failed ≡ false }
    ensures prepared { IsPrepared E.ready task.now stepper.new }
    ensures writes { Writes W.contents (EndsCounting (λ output. IsSomeAnd output
        (TraceFrom task.now (start_of task.now plan.now.start.now)
        plan.now.operators.now plan.now.cost)))
        out.old out.new result }
{
    let end = find_end(alloc, task, stepper, plan)?;
    let verdict = number_verdict(alloc, plan, end.fault)?;
    let its = Replay {
        task,
        verdict: &verdict,
        reasons: &[],
        plan: None,
    };
    let made = NumberedPlan {
        operators: end.operators.as_slice(),
        cost: 0,
        start: plan.start,
    };
    let ended = write_replay(alloc, stepper, &its, &made, out);
    drop(verdict);
    ended
}

/// Writes the refusal of a start that isn't a state, and returns its status.
pub fn write_refusal<W: Write>(
    alloc: Global,
    fault: StartFault,
    out: &mut Watched<W>,
) -> Result<Status, ToolFault>
    requires { out.old.failed ≡ false }
    ensures { Writes W.contents (EndsCounting (λ output. output ≡ Some (start_refusal fault)))
        out.old out.new result }
{
    let refusal = refuse_start(alloc, fault)?;
    let written = refusal.write(out);
    drop(refusal);
    written
}

/// Returns the verdict on a plan by numbers with this fault, or on a valid one.
fn number_verdict(
    alloc: Global,
    plan: &NumberedPlan<'_>,
    fault: Option<PlanFault>,
) -> Result<Answer, AllocError>
    ensures { IfOk result (λ verdict. (p : Parts) (s : List ℕ) (run : Run)
        → RunEndsFrom p s plan.now.operators.now plan.now.cost run fault
        → AnswerFrom p s plan.now.operators.now plan.now.cost (output_of verdict)) }
{
    match fault {
        None => accept_plan(alloc, plan.operators.len(), plan.cost),
        Some(fault) => answer_number_fault(alloc, plan.cost, fault),
    }
}
