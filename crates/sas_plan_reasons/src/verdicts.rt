// The answer about a plan, by how much is reported.
ghost use Rattle.std.specs.Prelude.{◌≡◌, false, IfOk, IsSomeAnd};
ghost use Rattle.sas_answers.specs.Answers.{VerdictAnswer};
ghost use Rattle.sas_answers.specs.Ending.{EndsCounting, Writes, output_of};
ghost use Rattle.sas_answers.specs.NumberedPlans.{AnswerFrom};
ghost use Rattle.sas_run.specs.Choosers.{HaveOperators};
ghost use Rattle.sas_run.specs.Starts.{IsStart, start_of};
ghost use Rattle.sas_run.specs.Stepping.{IsPrepared};
ghost use Rattle.sas_plan_reasons.specs.VerdictBy.{VerdictBy};

use crate::detail::Detail;
use crate::writing::{write_explained, write_trace};
use sas_answers::{Answer, Status, ToolFault, accept_plan, answer_fault, answer_number_fault};
use sas_axioms::Worklist;
use sas_core::Stepwise;
use sas_flat::{FlatPlan, FlatTask};
use sas_lines::Watched;
use sas_meaning::{Layered, Settle};
use sas_names::StepOperators;
use sas_run::{LongChains, NamedPlan, NumberedPlan, Stepper, check, stepper_for};
use std::alloc::{AllocError, Global};
use std::io::Write;

/// Writes the answer about a plan of a layered task, and returns its status. It keeps nothing for the next plan: that is what a
/// `LoadedTask` is for. If an `Err` isn't a failed write, it is `Memory`, and nothing was written. Not to be called after a failure.
pub fn answer_plan<W: Write>(
    alloc: Global,
    detail: Detail,
    task: &Layered<FlatTask>,
    plan: &FlatPlan,
    out: &mut Watched<W>,
) -> Result<Status, ToolFault>
    requires { out.old.failed ≡ false }
    ensures { Writes W.contents (EndsCounting
        (λ output. IsSomeAnd output (VerdictBy detail task.now plan.now)))
        out.old out.new result }
{
    let worklist = Worklist::new(alloc, task)?;
    let Ok(mut stepper) = stepper_for(alloc, task, worklist) else {
        return Err(ToolFault::Memory);
    };
    let operators = StepOperators::new(alloc, task, plan)?;
    let firsts = operators.firsts.as_slice();
    let nexts = operators.nexts.as_slice();
    let long = LongChains::new(alloc, task, firsts, nexts)?;
    let named = NamedPlan {
        task,
        plan,
        firsts,
        nexts,
        long: &long,
    };
    answer_named(alloc, detail, &mut stepper, &named, out)
}

/// Writes the answer about a plan whose names are known, and returns its status, as `answer_plan` does.
pub fn answer_named<W: Write, E: Settle<FlatTask> + Drop>(
    alloc: Global,
    detail: Detail,
    stepper: &mut Stepper<E>,
    named: &NamedPlan<'_, FlatTask, FlatPlan>,
    out: &mut Watched<W>,
) -> Result<Status, ToolFault>
    requires prepared { IsPrepared E.ready named.now.task.now stepper.old }
    requires named { HaveOperators named.now.task.now named.now.plan.now
        named.now.firsts.now named.now.nexts.now named.now.long.now }
    requires out { out.old.failed ≡ false }
    ensures prepared { IsPrepared E.ready named.now.task.now stepper.new }
    ensures writes { Writes W.contents (EndsCounting
        (λ output. IsSomeAnd output (VerdictBy detail named.now.task.now named.now.plan.now)))
        out.old out.new result }
{
    if detail.trace {
        write_trace(alloc, detail.reasons, stepper, named, out)
    } else if detail.reasons {
        write_explained(alloc, stepper, named, out)
    } else {
        verdict_answer(alloc, stepper, named)?.write(out)
    }
}

/// Returns the answer about a plan whose names are known: one line.
fn verdict_answer<E: Settle<FlatTask> + Drop>(
    alloc: Global,
    stepper: &mut Stepper<E>,
    named: &NamedPlan<'_, FlatTask, FlatPlan>,
) -> Result<Answer, AllocError>
    requires prepared { IsPrepared E.ready named.now.task.now stepper.old }
    requires named { HaveOperators named.now.task.now named.now.plan.now
        named.now.firsts.now named.now.nexts.now named.now.long.now }
    ensures prepared { IsPrepared E.ready named.now.task.now stepper.new }
    ensures answer { IfOk result (λ a.
        VerdictAnswer named.now.task.now named.now.plan.now (output_of a)) }
{
    match check(alloc, named.task, stepper, named) {
        Ok(_) => accept_plan(alloc, named.plan.steps(), named.plan.cost()),
        Err(fault) => answer_fault(alloc, named.plan.cost(), fault),
    }
}

/// Returns the answer about a plan by numbers, whose start is a state: one line.
pub fn number_answer<E: Settle<FlatTask> + Drop>(
    alloc: Global,
    task: &Layered<FlatTask>,
    stepper: &mut Stepper<E>,
    plan: &NumberedPlan<'_>,
) -> Result<Answer, AllocError>
    requires prepared { IsPrepared E.ready task.now stepper.old }
    requires start { IsStart task.now plan.now.start.now }
    ensures prepared { IsPrepared E.ready task.now stepper.new }
    ensures answer { IfOk result (λ a. AnswerFrom task.now (start_of task.now plan.now.start.now)
        plan.now.operators.now plan.now.cost (output_of a)) }
{
    match check(alloc, task, stepper, plan) {
        Ok(_) => accept_plan(alloc, plan.operators.len(), plan.cost),
        Err(fault) => answer_number_fault(alloc, plan.cost, fault),
    }
}
