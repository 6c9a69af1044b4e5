// What follows if the step that fails is made anyway.
ghost use Rattle.std.specs.Prelude.{◌≡◌, ◌<◌, ◌≤◌, ◌++◌, ℕ, List, length, map, IfOk, IfSome, OnOk};
ghost use Rattle.sas_core.specs.Variables.{IsState};
ghost use Rattle.sas_answers.specs.declared.line.Line.{Line};
ghost use Rattle.sas_run.specs.Anyway.{AreNoted};
ghost use Rattle.sas_run.specs.Choosers.{HaveOperators};
ghost use Rattle.sas_run.specs.Runs.{Run, last_state};
ghost use Rattle.sas_run.specs.Stepping.{IsAt, IsPrepared};
ghost use Rattle.sas_plan_reasons.specs.Retracing.{NotesAnywayIfAny, Retraces};
ghost use Rattle.sas_plan_reasons.specs.WhyPlan.{AreAnywayLines, anyway_lines, step_made};

use crate::changes::copy_of;
use crate::faults::count_failing;
use crate::history::PlanHistory;
use sas_answers::Line;
use sas_core::{Grounded, Items, Stepwise};
use sas_flat::{FlatPlan, FlatTask};
use sas_meaning::{Layered, Settle, State};
use sas_run::{Anyway, NamedPlan, PlanFault, Stepper, go_on_anyway};
use std::alloc::{AllocError, Global};

/// Makes the step with this fault anyway, from this state, and the later ones. Returns what follows, or `None` if the fault isn't that of
/// a step that names an operator. All memory is allocated before the step.
pub fn follow<E: Settle<FlatTask> + Drop>(
    alloc: Global,
    stepper: &mut Stepper<E>,
    named: &NamedPlan<'_, FlatTask, FlatPlan>,
    fault: PlanFault,
    state: &State,
) -> Result<Option<Anyway>, AllocError>
    requires at { IsAt E.ready E.follows named.now.task.now stepper.old state.now }
    requires named { HaveOperators named.now.task.now named.now.plan.now
        named.now.firsts.now named.now.nexts.now named.now.long.now }
    requires exists { IfSome (step_made fault)
        (λ step. (0 < step) × (step ≤ length named.now.plan.now.steps)) }
    ensures prepared { IsPrepared E.ready named.now.task.now stepper.new }
    ensures noted { IfOk result (λ anyway. (run : Run) → state.now ≡ last_state run
        → NotesAnywayIfAny named.now.task.now named.now.plan.now run (step_made fault) anyway) }
{
    let Some(step) = step_made(fault) else {
        return Ok(None);
    };
    let copy = copy_of(alloc, named.task, state)?;
    let mut anyway = Anyway::new(alloc, step, copy)?;
    go_on_anyway(named.task, stepper, named, &mut anyway);
    Ok(Some(anyway))
}

/// Returns the step of the fault, if it names an operator.
fn step_made(fault: PlanFault) -> Option<usize>
    ensures { result ≡ step_made fault }
{
    match fault {
        PlanFault::NotApplicable { step } => Some(step),
        PlanFault::Conflict { step, operator: _ } => Some(step),
        _ => None,
    }
}

/// Adds the lines of what follows if the step that fails is made anyway, if it names an operator.
pub fn push_later<P: Stepwise>(
    layered: &Layered<FlatTask>,
    plan: &P,
    history: &PlanHistory,
    lines: &mut Items<Line>,
) -> Result<(), AllocError>
    requires { (run : Run) × Retraces layered.now (P.says plan.now) history.now run }
    ensures { OnOk result ((run : Run)
        → Retraces layered.now (P.says plan.now) history.now run
        → (more : List Line)
        × AreAnywayLines layered.now (P.says plan.now) run (step_made history.now.fault) more
        × (lines.new ≡ lines.old ++ more)) }
{
    match &history.anyway {
        Some(anyway) => push_anyway(layered, plan.steps(), anyway, lines),
        None => Ok(()),
    }
}

/// Adds the lines of what follows: how many of the later steps of a plan of so many steps fail, the first of these, and how many goal
/// facts fail after all of them.
fn push_anyway<T: Grounded>(
    layered: &Layered<T>,
    steps: usize,
    anyway: &Anyway,
    lines: &mut Items<Line>,
) -> Result<(), AllocError>
    requires state { IsState layered.now.variables anyway.now.state }
    requires step { anyway.now.step ≤ steps }
    ensures { OnOk result ((failing : List ℕ) → AreNoted failing anyway.now → lines.new
        ≡ lines.old ++ anyway_lines layered.now steps anyway.now.step failing anyway.now.state) }
{
    lines.push(Line::LaterFailures {
        count: anyway.failing,
        steps: steps - anyway.step,
    })?;
    push_failing(anyway.first.as_slice(), lines)?;
    let goal = layered.task().goal();
    lines.push(Line::FailingGoalLater {
        count: count_failing(&anyway.state, goal),
        facts: goal.len(),
    })
}

/// Adds a line for each of these steps.
#[tactic(auto, using(crate::proofs::Composing::map_more))]
fn push_failing(steps: &[usize], lines: &mut Items<Line>) -> Result<(), AllocError>
    ensures { OnOk result (lines.new ≡ lines.old ++ map Line.LaterFailure steps.now) }
{
    for step in steps {
        lines.push(Line::LaterFailure { step: *step })?;
    }
    Ok(())
}
