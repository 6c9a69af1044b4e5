// The answers about a plan with the reasons why it isn't valid, or with its trace, as they go out.
ghost use Rattle.std.specs.Prelude.{◌≡◌, ◌↔◌, ◌++◌, ℕ, List, Some, None, false, All, IfOk, IfSome, IsFalse, IsSomeAnd, slice_index_or};
ghost use Rattle.sas_core.specs.declared.parts.Parts.{Parts};
ghost use Rattle.sas_answers.specs.Ending.{EndsCounting, Writes, output_of};
ghost use Rattle.sas_answers.specs.Line.{reasons_text};
ghost use Rattle.sas_run.specs.Choosers.{HaveOperators};
ghost use Rattle.sas_run.specs.Plans.{IsValid};
ghost use Rattle.sas_run.specs.Runs.{IsEnding, Run, RunEndsWith};
ghost use Rattle.sas_run.specs.Stepping.{IsPrepared};
ghost use Rattle.sas_run.specs.declared.plan_check.PlanFault.TheVariants.{NoOperator};
ghost use Rattle.sas_plan_reasons.specs.MayMean.{HaveNoNamesakes};
ghost use Rattle.sas_plan_reasons.specs.Retracing.{Retraces, ComesUnambiguously};
ghost use Rattle.sas_plan_reasons.specs.Traced.{EndsWith, TraceVerdict};
ghost use Rattle.sas_plan_reasons.specs.Verdict.{WhyVerdict, MakeAnswer};

use crate::anyway::follow;
use crate::faults::reasons;
use crate::history::{Historian, PlanHistory};
use crate::nameless::{NamelessSteps, unknown};
use crate::replays::{Replay, write_replay};
use sas_answers::{
    Answer, Line, NameSource, Status, ToolFault, accept_plan, answer_fault, write_reasons,
};
use sas_core::Stepwise;
use sas_flat::{FlatPlan, FlatTask};
use sas_lines::Watched;
use sas_meaning::Settle;
use sas_names::next_in;
use sas_run::{NamedPlan, NumberedPlan, PlanEnd, PlanFault, Stepper, find_end, initial_of, replay};
use std::alloc::{AllocError, Global};
use std::io::Write;

/// Writes the answer about a plan, with the reasons where it isn't valid, and returns its status. The plan is checked first; then its
/// steps are made once more. The names in the reasons are looked up as they go out, in pieces: names that are repeated may make the
/// answer far longer than the task. If an `Err` isn't a failed write, it is `Memory`, and nothing was written: all memory is allocated
/// before the first byte. Not to be called after a failure.
pub fn write_explained<W: Write, E: Settle<FlatTask> + Drop>(
    alloc: Global,
    stepper: &mut Stepper<E>,
    named: &NamedPlan<'_, FlatTask, FlatPlan>,
    out: &mut Watched<W>,
) -> Result<Status, ToolFault>
    requires prepared { IsPrepared E.ready named.now.task.now stepper.old }
    requires named { HaveOperators named.now.task.now named.now.plan.now
        named.now.firsts.now named.now.nexts.now named.now.long.now }
    requires out { out.old.failed ≡ false }
    ensures prepared { IsPrepared E.ready named.now.task.now stepper.new }
    ensures writes { Writes W.contents (EndsCounting (λ output.
        IsSomeAnd output (WhyVerdict named.now.task.now named.now.plan.now)))
        out.old out.new result }
{
    let (verdict, reasons) = explain_plan(alloc, stepper, named)?;
    let source = NameSource {
        task: named.task.task(),
        plan: Some(named.plan),
    };
    write_reasons(alloc, out, &verdict, &source, reasons.as_slice())
}

/// Returns the verdict on the plan, and the reasons for it. A valid plan has no reasons.
fn explain_plan<E: Settle<FlatTask> + Drop>(
    alloc: Global,
    stepper: &mut Stepper<E>,
    named: &NamedPlan<'_, FlatTask, FlatPlan>,
) -> Result<(Answer, Vec<Line>), AllocError>
    requires prepared { IsPrepared E.ready named.now.task.now stepper.old }
    requires named { HaveOperators named.now.task.now named.now.plan.now
        named.now.firsts.now named.now.nexts.now named.now.long.now }
    ensures prepared { IsPrepared E.ready named.now.task.now stepper.new }
    ensures answer { IfOk result (λ found.
        MakeAnswer named.now.task.now named.now.plan.now found.0 found.1.items) }
{
    let end = find_end(alloc, named.task, stepper, named)?;
    explain_end(alloc, stepper, named, end)
}

/// Returns the verdict on a plan that ends so, and the reasons for it.
fn explain_end<E: Settle<FlatTask> + Drop>(
    alloc: Global,
    stepper: &mut Stepper<E>,
    named: &NamedPlan<'_, FlatTask, FlatPlan>,
    end: PlanEnd,
) -> Result<(Answer, Vec<Line>), AllocError>
    requires prepared { IsPrepared E.ready named.now.task.now stepper.old }
    requires named { HaveOperators named.now.task.now named.now.plan.now
        named.now.firsts.now named.now.nexts.now named.now.long.now }
    requires ends { IsEnding named.now.task.now named.now.plan.now end.operators.items end.fault }
    ensures prepared { IsPrepared E.ready named.now.task.now stepper.new }
    ensures answer { IfOk result (λ found.
        MakeAnswer named.now.task.now named.now.plan.now found.0 found.1.items) }
{
    match end.fault {
        None => explain_valid(alloc, named.plan),
        Some(fault) => explain_invalid(alloc, stepper, named, end.operators, fault),
    }
}

/// Returns the verdict on a plan with this fault behind the steps of these operators, and the reasons for it. The steps are made once
/// more, unless a step's name is unknown and no step before it may mean another operator.
fn explain_invalid<E: Settle<FlatTask> + Drop>(
    alloc: Global,
    stepper: &mut Stepper<E>,
    named: &NamedPlan<'_, FlatTask, FlatPlan>,
    operators: Vec<u32>,
    fault: PlanFault,
) -> Result<(Answer, Vec<Line>), AllocError>
    requires prepared { IsPrepared E.ready named.now.task.now stepper.old }
    requires named { HaveOperators named.now.task.now named.now.plan.now
        named.now.firsts.now named.now.nexts.now named.now.long.now }
    requires ends { IsEnding named.now.task.now named.now.plan.now operators.items (Some fault) }
    ensures prepared { IsPrepared E.ready named.now.task.now stepper.new }
    ensures answer { IfOk result (λ found.
        MakeAnswer named.now.task.now named.now.plan.now found.0 found.1.items) }
{
    if let PlanFault::NoOperator { step } = fault {
        if !have_next(operators.as_slice(), named.nexts) {
            return explain_unknown(alloc, named, step);
        }
    }
    let history = retrace(alloc, stepper, named, operators, fault)?;
    let explained = explain_fault(alloc, named, &history);
    drop(history);
    explained
}

/// Returns whether one of the operators has a next one in the list.
fn have_next(operators: &[u32], nexts: &[Option<u32>]) -> bool
    ensures { IsFalse result ↔ All (λ (operator : ℕ).
        slice_index_or nexts.now operator None ≡ None) operators.now }
{
    operators
        .iter()
        .any(|operator| next_in(nexts, *operator).is_some())
}

/// Makes the steps of these operators, which are those before the plan's fault, once more, and notes since when each variable has its
/// value, and which other operator a step may mean. All memory is allocated before the first step.
fn retrace<E: Settle<FlatTask> + Drop>(
    alloc: Global,
    stepper: &mut Stepper<E>,
    named: &NamedPlan<'_, FlatTask, FlatPlan>,
    operators: Vec<u32>,
    fault: PlanFault,
) -> Result<PlanHistory, AllocError>
    requires prepared { IsPrepared E.ready named.now.task.now stepper.old }
    requires named { HaveOperators named.now.task.now named.now.plan.now
        named.now.firsts.now named.now.nexts.now named.now.long.now }
    requires ends { IsEnding named.now.task.now named.now.plan.now operators.items (Some fault) }
    ensures prepared { IsPrepared E.ready named.now.task.now stepper.new }
    ensures retraced { IfOk result (λ history. (run : Run)
        × Retraces named.now.task.now named.now.plan.now history run) }
{
    let nameless = NamelessSteps::new(alloc, named.task, named.firsts)?;
    let mut last = initial_of(alloc, named.task, stepper)?;
    let mut noted = Historian::new(alloc, named.task, named.nexts, &last)?;
    let made = NumberedPlan {
        operators: operators.as_slice(),
        cost: 0,
        start: &[],
    };
    replay(named.task, stepper, &made, &mut last, &mut noted);
    let (since, other) = noted.into_parts();
    let anyway = follow(alloc, stepper, named, fault, &last)?;
    Ok(PlanHistory {
        fault,
        nameless,
        operators,
        last,
        since,
        other,
        anyway,
    })
}

/// Returns the verdict on a valid plan, which has no reasons.
fn explain_valid(alloc: Global, plan: &FlatPlan) -> Result<(Answer, Vec<Line>), AllocError>
    ensures { IfOk result (λ found. (p : Parts) (operators : List ℕ)
        → IsValid p plan.now operators → MakeAnswer p plan.now found.0 found.1.items) }
{
    let verdict = accept_plan(alloc, plan.steps(), plan.cost())?;
    Ok((verdict, Vec::new(alloc)))
}

/// Returns the verdict on a plan with this step, whose name no operator has, and the reasons for it. No step before it may mean another
/// operator.
fn explain_unknown(
    alloc: Global,
    named: &NamedPlan<'_, FlatTask, FlatPlan>,
    step: usize,
) -> Result<(Answer, Vec<Line>), AllocError>
    requires named { HaveOperators named.now.task.now named.now.plan.now
        named.now.firsts.now named.now.nexts.now named.now.long.now }
    requires run { (run : Run)
        × ComesUnambiguously named.now.task.now named.now.plan.now (NoOperator step) run }
    ensures { IfOk result (λ found.
        MakeAnswer named.now.task.now named.now.plan.now found.0 found.1.items) }
{
    let nameless = NamelessSteps::new(alloc, named.task, named.firsts)?;
    let lines = unknown(alloc, named.task, named.plan, &nameless)?;
    let verdict = answer_fault(alloc, named.plan.cost(), PlanFault::NoOperator { step })?;
    Ok((verdict, lines.into_vec()))
}

/// Returns the verdict on the plan's fault, and the reasons for it.
fn explain_fault(
    alloc: Global,
    named: &NamedPlan<'_, FlatTask, FlatPlan>,
    history: &PlanHistory,
) -> Result<(Answer, Vec<Line>), AllocError>
    requires { (run : Run) × Retraces named.now.task.now named.now.plan.now history.now run }
    ensures { IfOk result (λ found.
        MakeAnswer named.now.task.now named.now.plan.now found.0 found.1.items) }
{
    let lines = reasons(alloc, named.task, named.plan, history)?;
    let verdict = answer_fault(alloc, named.plan.cost(), history.fault)?;
    Ok((verdict, lines))
}

/// Writes the trace of a plan, and the answer about it, in pieces, and returns its status. The plan is checked first; then its steps are
/// made once more. If an `Err` isn't a failed write, it is `Memory`, and nothing was written: all memory is allocated before the first
/// byte. Not to be called after a failure.
pub fn write_trace<W: Write, E: Settle<FlatTask> + Drop>(
    alloc: Global,
    with_reasons: bool,
    stepper: &mut Stepper<E>,
    named: &NamedPlan<'_, FlatTask, FlatPlan>,
    out: &mut Watched<W>,
) -> Result<Status, ToolFault>
    requires prepared { IsPrepared E.ready named.now.task.now stepper.old }
    requires named { HaveOperators named.now.task.now named.now.plan.now
        named.now.firsts.now named.now.nexts.now named.now.long.now }
    requires out { out.old.failed ≡ false }
    ensures prepared { IsPrepared E.ready named.now.task.now stepper.new }
    ensures writes { Writes W.contents (EndsCounting (λ output. IsSomeAnd output
        (TraceVerdict with_reasons named.now.task.now named.now.plan.now)))
        out.old out.new result }
{
    let end = find_end(alloc, named.task, stepper, named)?;
    let (verdict, reasons) = answer_end(alloc, with_reasons, stepper, named, &end)?;
    let its = Replay {
        task: named.task,
        verdict: &verdict,
        reasons: reasons.as_slice(),
        plan: Some(named.plan),
    };
    let made = NumberedPlan {
        operators: end.operators.as_slice(),
        cost: 0,
        start: &[],
    };
    let ended = write_replay(alloc, stepper, &its, &made, out);
    drop(reasons);
    drop(verdict);
    ended
}

/// Returns the verdict on a plan that ends so, and if wanted the reasons for it.
fn answer_end<E: Settle<FlatTask> + Drop>(
    alloc: Global,
    with_reasons: bool,
    stepper: &mut Stepper<E>,
    named: &NamedPlan<'_, FlatTask, FlatPlan>,
    end: &PlanEnd,
) -> Result<(Answer, Vec<Line>), AllocError>
    requires prepared { IsPrepared E.ready named.now.task.now stepper.old }
    requires named { HaveOperators named.now.task.now named.now.plan.now
        named.now.firsts.now named.now.nexts.now named.now.long.now }
    requires ends { IsEnding named.now.task.now named.now.plan.now
        end.now.operators.items end.now.fault }
    ensures prepared { IsPrepared E.ready named.now.task.now stepper.new }
    ensures answer { IfOk result (λ found. (run : Run)
        → RunEndsWith named.now.task.now named.now.plan.now run end.now.fault
        → EndsWith with_reasons named.now.task.now named.now.plan.now run (record {
          text = found.0.text.items
              ++ reasons_text named.now.task.now named.now.plan.now.steps found.1.items;
          status = found.0.status;
        })) }
{
    if with_reasons {
        let operators = Vec::from_slice(alloc, end.operators.as_slice())?;
        let fault = end.fault;
        return explain_end(alloc, stepper, named, PlanEnd { operators, fault });
    }
    Ok((verdict_on(alloc, named.plan, end.fault)?, Vec::new(alloc)))
}

/// Returns the verdict on a plan with this fault, or on a valid plan.
fn verdict_on(
    alloc: Global,
    plan: &FlatPlan,
    fault: Option<PlanFault>,
) -> Result<Answer, AllocError>
    ensures { IfOk result (λ verdict. (p : Parts) (run : Run) → RunEndsWith p plan.now run fault
        → EndsWith false p plan.now run (output_of verdict)) }
{
    match fault {
        None => accept_plan(alloc, plan.steps(), plan.cost()),
        Some(fault) => answer_fault(alloc, plan.cost(), fault),
    }
}
