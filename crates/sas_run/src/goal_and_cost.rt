// The test of the goal and the cost after the last step.
ghost use Rattle.std.specs.Prelude.{◌≡◌, ◌<◌, ℕ, length, All, IfSome, IfNone, slice_index};
ghost use Rattle.sas_core.specs.declared.parts.Fact.{Fact};
ghost use Rattle.sas_core.specs.Variables.{IsState};
ghost use Rattle.sas_meaning.specs.States.{AllHold};
ghost use Rattle.sas_run.specs.Plans.{cost_of_all};
ghost use Rattle.sas_run.specs.Running.{IsFinalVerdict};
ghost use Rattle.sas_run.specs.Verdicts.{IsFirstMissed};

use crate::plan_check::PlanFault;
use sas_core::{Fact, Grounded};
use sas_meaning::{Layered, State};

/// Tests the goal and the cost in the state after the steps of these operators. Returns the first fact of the goal that doesn't hold, or else
/// a sum of the operators' costs that differs from `cost`. Returns `None` if the plan is valid.
pub fn last_fault<T: Grounded>(
    layered: &Layered<T>,
    operators: &[u32],
    state: &State,
    cost: u64,
) -> Option<PlanFault>
    requires state { IsState layered.now.variables state.now }
    requires exist { All (λ (o : ℕ). o < length layered.now.operators) operators.now }
    ensures { IsFinalVerdict layered.now operators.now state.now cost result }
{
    if let Some(index) = first_missed(state, layered.task().goal()) {
        let index = index as u32;
        return Some(PlanFault::GoalMissed { index });
    }
    let sum = cost_of(layered, operators);
    if sum != u128::from(cost) {
        return Some(PlanFault::CostDiffers { sum });
    }
    None
}

/// Returns the sum of the operators' costs.
fn cost_of<T: Grounded>(task: &Layered<T>, operators: &[u32]) -> u128
    requires exist { All (λ operator. operator < length task.now.operators) operators.now }
    ensures { result ≡ cost_of_all task.now operators.now }
{
    let mut sum = 0u128;
    for operator in operators {
        sum += u128::from(task.cost(*operator));
    }
    sum
}

/// Returns the index of the first fact that doesn't hold, or `None` if all hold.
pub fn first_missed(state: &State, facts: &[Fact]) -> Option<usize>
    requires { All (λ (f : Fact). f.var < length state.now) facts.now }
    ensures some { IfSome result (λ index. IsFirstMissed (slice_index state.now) facts.now index) }
    ensures none { IfNone result (AllHold (slice_index state.now) facts.now) }
{
    facts
        .iter()
        .position(|fact| state.value(fact.var) != fact.value)
}
