// Why a plan isn't valid.
ghost use Rattle.std.specs.Prelude.{◌≡◌, ◌<◌, ◌≤◌, ◌-◌, ◌∷◌, ◌++◌, ℕ, List, length, All, IfOk, OnOk};
ghost use Rattle.std.specs.List.{count_by};
ghost use Rattle.sas_core.specs.declared.parts.Fact.{Fact};
ghost use Rattle.sas_core.specs.declared.parts.Parts.{Parts};
ghost use Rattle.sas_answers.specs.declared.line.Line.{Line};
ghost use Rattle.sas_core.specs.Grounded.{operator_at};
ghost use Rattle.sas_core.specs.Variables.{IsState};
ghost use Rattle.sas_meaning.specs.Steps.{Agree};
ghost use Rattle.sas_plan_reasons.specs.Cause.{fails};
ghost use Rattle.sas_plan_reasons.specs.Lines.{LineThen};
ghost use Rattle.sas_run.specs.Runs.{Run};
ghost use Rattle.sas_plan_reasons.specs.WhyPlan.{AreCouldBeLines, AreFailedPreconditionLines, AreOperatorLines, AreConflictLines, AreGoalLines, AreFaultLines, IsWhy, cost_hint, cost_lines, cost_lines_sum};
ghost use Rattle.sas_plan_reasons.specs.Retracing.{IsOtherIfAny, Retraces};
ghost use Rattle.sas_plan_reasons.specs.Explanation.{IsBehind, IsExplanationOf, AddsLines, ExplainsOnce};

use crate::anyway::push_later;
use crate::causes::{Explanation, explain_cause};
use crate::conflicts::conflict;
use crate::history::PlanHistory;
use crate::nameless::unknown;
use sas_answers::Line;
use sas_core::{Fact, Grounded, Items, Stepwise};
use sas_flat::FlatTask;
use sas_meaning::{Layered, Preconditions, State};
use sas_run::PlanFault;
use std::alloc::{AllocError, Global};

/// Returns why the plan isn't valid: the lines of reasons that follow its verdict.
pub fn reasons<P: Stepwise>(
    alloc: Global,
    layered: &Layered<FlatTask>,
    plan: &P,
    history: &PlanHistory,
) -> Result<Vec<Line>, AllocError>
    requires { (run : Run) × Retraces layered.now (P.says plan.now) history.now run }
    ensures { IfOk result (λ lines.
        IsWhy layered.now (P.says plan.now) history.now.fault lines.items) }
{
    let mut lines = lines_of_fault(alloc, layered, plan, history)?;
    push_later(layered, plan, history, &mut lines)?;
    push_other(history, &mut lines)?;
    Ok(lines.into_vec())
}

/// Adds the line of the step that may mean another operator, if there is one.
fn push_other(history: &PlanHistory, lines: &mut Items<Line>) -> Result<(), AllocError>
    ensures { OnOk result ((p : Parts) (run : Run) → IsOtherIfAny p run history.now.other
        → (more : List Line) × AreCouldBeLines p run more × (lines.new ≡ lines.old ++ more)) }
{
    match history.other {
        Some(other) => lines.push(Line::CouldBe {
            step: other.step,
            operator: other.operator,
        }),
        None => Ok(()),
    }
}

/// Returns the lines of the fault.
fn lines_of_fault<P: Stepwise>(
    alloc: Global,
    layered: &Layered<FlatTask>,
    plan: &P,
    history: &PlanHistory,
) -> Result<Items<Line>, AllocError>
    requires { (run : Run) × Retraces layered.now (P.says plan.now) history.now run }
    ensures { IfOk result (λ lines. (run : Run)
        → Retraces layered.now (P.says plan.now) history.now run
        → ExplainsOnce lines (AreFaultLines layered.now (P.says plan.now) run history.now.fault)) }
{
    // By its contract the task is well ranged and layered.
    let _ = layered.task();
    match history.fault {
        PlanFault::Memory => unreachable!(),
        PlanFault::NoOperator { .. } => unknown(alloc, layered, plan, &history.nameless),
        PlanFault::NotApplicable { step } => {
            blocked(alloc, layered, history, plan.step(step - 1), step)
        }
        PlanFault::Conflict { step, operator } => {
            conflicting(alloc, layered, &history.last, step, operator)
        }
        PlanFault::GoalMissed { .. } => missed(alloc, layered, history),
        PlanFault::CostDiffers { .. } => {
            costs(alloc, layered, history.operators.as_slice(), plan.cost())
        }
    }
}

/// Returns the lines for a step none of whose operators is applicable: the step, and why each of them isn't.
fn blocked<T: Grounded>(
    alloc: Global,
    task: &Layered<T>,
    history: &PlanHistory,
    name: &[u8],
    step: usize,
) -> Result<Items<Line>, AllocError>
    requires { (run : Run) × IsBehind task.now history.now run }
    ensures { IfOk result (λ lines. (run : Run) → IsBehind task.now history.now run
        → ExplainsOnce lines (LineThen (Line.Step step) (AreOperatorLines task.now run name.now))) }
{
    let mut explanation = Explanation::new(alloc, task, &history.last)?;
    explanation.lines.push(Line::Step { step })?;
    for operator in 0..task.operators() {
        if task.name(operator) == name {
            explain_inapplicable(task, history, operator, &mut explanation)?;
        }
    }
    Ok(explanation.lines)
}

/// Explains the operator, and the cause of each of its preconditions that fails.
fn explain_inapplicable<T: Grounded>(
    layered: &Layered<T>,
    history: &PlanHistory,
    operator: u32,
    explanation: &mut Explanation,
) -> Result<(), AllocError>
    requires operator { operator < length layered.now.operators }
    requires explanation { IsExplanationOf layered.now history.now explanation.old }
    ensures { OnOk result (AddsLines layered.now history.now explanation.old explanation.new
        (λ run. AreFailedPreconditionLines layered.now run operator)) }
{
    explanation.lines.push(Line::Operator { operator })?;
    for fact in Preconditions::new(layered.task(), operator) {
        if history.last.value(fact.var) != fact.value {
            explain_cause(layered, history, fact, explanation)?;
        }
    }
    Ok(())
}

/// Returns the lines for a step whose effects conflict: the step, its operator, and the two effects.
fn conflicting<T: Grounded>(
    alloc: Global,
    task: &Layered<T>,
    state: &State,
    step: usize,
    operator: u32,
) -> Result<Items<Line>, AllocError>
    requires operator { operator < length task.now.operators }
    requires state { IsState task.now.variables state.now }
    requires disagree { Agree state.now (operator_at task.now operator).effects → ⊥ }
    ensures { IfOk result (λ lines.
        ExplainsOnce lines (LineThen (Line.Step step)
        (AreConflictLines task.now state.now operator))) }
{
    let clash = conflict(alloc, task, operator, state)?;
    let mut lines = Items::new(alloc);
    lines.extend_from_slice(&[
        Line::Step { step },
        Line::Operator { operator },
        Line::ConflictingEffect {
            operator,
            effect: clash.earlier,
        },
        Line::ConflictingEffect {
            operator,
            effect: clash.later,
        },
    ])?;
    Ok(lines)
}

/// Returns the lines for the goal facts that fail, each with its cause.
fn missed<T: Grounded>(
    alloc: Global,
    task: &Layered<T>,
    history: &PlanHistory,
) -> Result<Items<Line>, AllocError>
    requires { (run : Run) × IsBehind task.now history.now run }
    ensures { IfOk result (λ lines. (run : Run) → IsBehind task.now history.now run
        → ExplainsOnce lines (AreGoalLines task.now run)) }
{
    let mut explanation = Explanation::new(alloc, task, &history.last)?;
    explain_missed(task, history, &mut explanation)?;
    Ok(explanation.lines)
}

/// Explains how many goal facts fail, and each of them with its cause.
fn explain_missed<T: Grounded>(
    layered: &Layered<T>,
    history: &PlanHistory,
    explanation: &mut Explanation,
) -> Result<(), AllocError>
    requires { IsExplanationOf layered.now history.now explanation.old }
    ensures { OnOk result (AddsLines layered.now history.now explanation.old explanation.new
        (AreGoalLines layered.now)) }
{
    let goal = layered.task().goal();
    explanation.lines.push(Line::FailingGoalFacts {
        count: count_failing(&history.last, goal),
        facts: goal.len(),
    })?;
    for (index, fact) in goal.iter().enumerate() {
        if history.last.value(fact.var) != fact.value {
            explanation.lines.push(Line::GoalFact {
                index: index as u32,
            })?;
            explain_cause(layered, history, *fact, explanation)?;
        }
    }
    Ok(())
}

/// Returns how many of the facts fail in the state.
pub fn count_failing(state: &State, facts: &[Fact]) -> usize
    requires { All (λ (f : Fact). f.var < length state.now) facts.now }
    ensures { result ≡ count_by (fails state.now) facts.now }
{
    facts
        .iter()
        .filter(|fact| state.value(fact.var) != fact.value)
        .count()
}

/// Returns the lines for a cost that differs: what the plan's cost is made of, and a hint if it is right under the other metric.
fn costs(
    alloc: Global,
    layered: &Layered<FlatTask>,
    operators: &[u32],
    cost: u64,
) -> Result<Items<Line>, AllocError>
    requires { All (λ (operator : ℕ). operator < length layered.now.operators) operators.now }
    ensures { IfOk result (λ lines. (run : Run) → operators.now ≡ run.operators
        → length run.operators ≡ length run.steps → lines ≡ cost_lines layered.now cost run) }
{
    let sum = sum_of_cost_lines(layered, operators);
    let mut lines = Items::new(alloc);
    lines.extend_from_slice(&[
        Line::Metric,
        Line::Steps {
            count: operators.len(),
        },
        Line::CostLines { sum },
    ])?;
    let metric = layered.task().metric();
    push_cost_hint(metric, cost, operators.len(), sum, &mut lines)?;
    Ok(lines)
}

/// Adds a hint if the plan's cost is that of its steps under the other metric: `sum` where the metric is 0, `steps` where it is 1.
fn push_cost_hint(
    metric: bool,
    cost: u64,
    steps: usize,
    sum: u128,
    lines: &mut Items<Line>,
) -> Result<(), AllocError>
    ensures { OnOk result (lines.new ≡ lines.old ++ cost_hint metric cost steps sum) }
{
    if metric {
        if cost == steps as u64 {
            lines.push(Line::CostLineHint)?;
        }
    } else if u128::from(cost) == sum {
        lines.push(Line::UnitCostHint)?;
    }
    Ok(())
}

/// Returns the sum of the numbers on the operators' cost lines.
fn sum_of_cost_lines<T: Grounded>(task: &Layered<T>, operators: &[u32]) -> u128
    requires { All (λ (operator : ℕ). operator < length task.now.operators) operators.now }
    ensures { result ≡ cost_lines_sum task.now operators.now }
{
    let mut sum = 0u128;
    for operator in operators {
        sum += u128::from(task.cost_line(*operator));
    }
    sum
}
