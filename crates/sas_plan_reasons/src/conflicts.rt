// Which effects of an operator conflict.
ghost use Rattle.std.specs.Prelude.{◌<◌, ◌+◌, length, IfOk, IfSome, IfNone};
ghost use Rattle.sas_core.specs.Grounded.{operator_at};
ghost use Rattle.sas_core.specs.Variables.{IsState};
ghost use Rattle.sas_meaning.specs.Steps.{Agree};
ghost use Rattle.sas_plan_reasons.specs.Lowest.{IsLowest, AreLowest};
ghost use Rattle.sas_plan_reasons.specs.WhyPlan.{ConflictsWith};
ghost use Rattle.sas_plan_reasons.specs.Conflicts.{AreFirstEffects};

use sas_core::{Grounded, Items};
use sas_meaning::{Layered, State};
use std::alloc::{AllocError, Global};

/// Two effects of an operator that set one variable to different values.
#[derive(Clone, Copy)]
pub struct Clash {
    pub earlier: u32,
    pub later: u32,
}

/// Returns which effects of the operator conflict in the state: the first one that an earlier one contradicts, and the
/// lowest that contradicts it.
pub fn conflict<T: Grounded>(
    alloc: Global,
    task: &Layered<T>,
    operator: u32,
    state: &State,
) -> Result<Clash, AllocError>
    requires operator { operator < length task.now.operators }
    requires state { IsState task.now.variables state.now }
    requires disagree { Agree state.now (operator_at task.now operator).effects → ⊥ }
    ensures { IfOk result (λ clash.
        AreLowest (ConflictsWith state.now (operator_at task.now operator))
        clash.later clash.earlier) }
{
    let mut firsts = Items::from_vec(vec![in alloc; None; task.variables() as usize]?);
    for later in 0..task.effects(operator) {
        if let Some(earlier) = contradicting(task, operator, later, state, &mut firsts) {
            return Ok(Clash { earlier, later });
        }
    }
    unreachable!()
}

/// Returns the lowest effect that contradicts this one, if there is one. `firsts` has, for each variable, the first
/// effect before this one that fires on it. If no effect contradicts this one, it is noted there too.
fn contradicting<T: Grounded>(
    layered: &Layered<T>,
    operator: u32,
    effect: u32,
    state: &State,
    firsts: &mut Items<Option<u32>>,
) -> Option<u32>
    requires operator { operator < length layered.now.operators }
    requires effect { effect < length (operator_at layered.now operator).effects }
    requires state { IsState layered.now.variables state.now }
    requires firsts { AreFirstEffects layered.now state.now (operator_at layered.now operator)
        effect firsts.old }
    ensures some { IfSome result
        (IsLowest (ConflictsWith state.now (operator_at layered.now operator) effect)) }
    ensures none { IfNone result
        (AreFirstEffects layered.now state.now
        (operator_at layered.now operator) (effect + 1) firsts.new) }
{
    let task = layered.task();
    if !state.holds_all(task.effect_conditions(operator, effect)) {
        return None;
    }
    let change = task.effect_change(operator, effect);
    match firsts.as_slice()[change.var as usize] {
        None => {
            firsts.set(change.var as usize, Some(effect));
            None
        }
        Some(first) => {
            if task.effect_change(operator, first).new == change.new {
                None
            } else {
                Some(first)
            }
        }
    }
}
