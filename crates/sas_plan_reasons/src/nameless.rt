// The steps of a plan that name no operator.
ghost use Rattle.std.specs.Prelude.{◌≡◌, ◌==◌, ◌&&◌, ◌++◌, ◌^◌, ◌<◌, ℕ, List, length, not, nat_lt, is_some, IfOk, OnOk};
ghost use Rattle.sas_core.specs.Stepwise.{step_at};
ghost use Rattle.sas_names.specs.Names.{AreFirsts};
ghost use Rattle.sas_plan_reasons.specs.MayMean.{similar_operator};
ghost use Rattle.sas_plan_reasons.specs.Explanation.{ExplainsOnce};
ghost use Rattle.sas_plan_reasons.specs.Retracing.{AreNameless};
ghost use Rattle.sas_plan_reasons.specs.WhyPlan.{first_nameless, nameless_lines, nameless_step_lines};

use crate::similar::similar;
use sas_answers::Line;
use sas_core::{Grounded, Items, Stepwise};
use sas_meaning::Layered;
use sas_names::{existing, nameless};
use std::alloc::{AllocError, Global};

/// How many steps are reported.
const MOST: usize = 5;

/// The steps of a plan that name no operator.
#[derive(Drop)]
pub struct NamelessSteps {
    /// How many there are.
    pub count: usize,
    /// The first of them, counted from 0: five, or all.
    pub first: Vec<usize>,
}

impl NamelessSteps {
    /// Finds them. `firsts` has the lowest operator of the name of each step, as `StepOperators` has it.
    pub fn new<T: Grounded>(
        alloc: Global,
        task: &T,
        firsts: &[u32],
    ) -> Result<NamelessSteps, AllocError>
        ensures { IfOk result (λ nameless. (steps : List (List ℕ))
            → AreFirsts (T.says task.now) steps firsts.now
            → AreNameless (T.says task.now) steps nameless) }
    {
        Ok(NamelessSteps {
            count: nameless(task, firsts),
            first: first_nameless(alloc, task, firsts)?,
        })
    }
}

/// Returns the first steps that name no operator.
fn first_nameless<T: Grounded>(
    alloc: Global,
    task: &T,
    firsts: &[u32],
) -> Result<Vec<usize>, AllocError>
    ensures { IfOk result (λ first. (steps : List (List ℕ))
        → AreFirsts (T.says task.now) steps firsts.now
        → first.items ≡ first_nameless (T.says task.now) steps) }
{
    let mut first = Vec::new(alloc);
    for step in 0..firsts.len() {
        if first.len() < MOST && existing(task, firsts[step]).is_none() {
            first.push(step)?;
        }
    }
    Ok(first)
}

/// Returns the lines for a plan with steps that name no operator: the first of these steps, each with the operator with a similar name, if
/// there is one; how many of the steps these are; and a hint if the plan may be of another task.
pub fn unknown<T: Grounded, P: Stepwise>(
    alloc: Global,
    task: &Layered<T>,
    plan: &P,
    nameless: &NamelessSteps,
) -> Result<Items<Line>, AllocError>
    requires { AreNameless task.now (P.says plan.now).steps nameless.now }
    ensures { IfOk result (λ lines. ExplainsOnce lines (λ its.
        its ≡ nameless_lines task.now (P.says plan.now))) }
{
    let count = nameless.count;
    let steps = plan.steps();
    let mut lines = Items::new(alloc);
    let mut similar = false;
    for before in &nameless.first {
        similar |= push_step(alloc, task, plan, *before, &mut lines)?;
    }
    lines.push(Line::NamelessSteps { count, steps })?;
    if is_of_other_task(steps, count, similar) {
        lines.push(Line::OtherTaskHint)?;
    }
    Ok(lines)
}

/// Returns whether the plan may be of another task: it has two steps or more, and so many of them name no operator as there are, and none of
/// those that are reported has a similar one.
fn is_of_other_task(steps: usize, count: usize, similar: bool) -> bool
    ensures { result ≡ (nat_lt 1 steps && ((count == steps) && not similar)) }
{
    steps > 1 && count == steps && !similar
}

/// Adds the lines for the step after so many: the step, and the operator with a similar name, if there is one. Returns whether there is.
fn push_step<T: Grounded, P: Stepwise>(
    alloc: Global,
    task: &Layered<T>,
    plan: &P,
    before: usize,
    lines: &mut Items<Line>,
) -> Result<bool, AllocError>
    requires exists { before < length (P.says plan.now).steps }
    requires few { length (P.says plan.now).steps < 2 ^ 64 }
    ensures lines { OnOk result (lines.new
        ≡ lines.old ++ nameless_step_lines task.now (P.says plan.now) before) }
    ensures similar { IfOk result (λ similar. similar
        ≡ is_some (similar_operator task.now (step_at (P.says plan.now) before))) }
{
    lines.push(Line::Step { step: before + 1 })?;
    let found = similar(alloc, task, plan.step(before))?;
    if let Some(operator) = found {
        lines.push(Line::SimilarOperator { operator })?;
    }
    Ok(found.is_some())
}
