// Makes the steps of a task, one after another.
ghost use Rattle.std.specs.Prelude.{◌≡◌, ◌<◌, ◌≤◌, ℕ, List, length, IfOk, OnOk, IfErr, IfSome, IsFalse};
ghost use Rattle.sas_core.specs.Grounded.{operator_at};
ghost use Rattle.sas_core.specs.Variables.{IsState};
ghost use Rattle.sas_meaning.specs.FastDownward.{ForcedStep};
ghost use Rattle.sas_meaning.specs.Following.{ListsDerived};
ghost use Rattle.sas_meaning.specs.Layers.{IsBasic, IsLayered};
ghost use Rattle.sas_meaning.specs.InitialStates.{IsInitial};
ghost use Rattle.sas_run.specs.PlainSteps.{DeletedHasRoom};
ghost use Rattle.sas_run.specs.Given.{NothingGiven};
ghost use Rattle.sas_run.specs.Plans.{IsApplicable};
ghost use Rattle.sas_run.specs.Running.{Steps};
ghost use Rattle.sas_run.specs.Stepping.{HasChanged, IsAt, IsPrepared};

use crate::deletions::DeletedFacts;
use crate::steps::{StepFault, apply, give_last, write_given};
use sas_core::{Grounded, Items};
use sas_meaning::{Layered, Settle, State, has_derived};
use std::alloc::{AllocError, Global};

/// An evaluator, and the memory for a step.
pub struct Stepper<E> {
    pub evaluator: E,
    /// For each variable, the value to which the current step's effects set it, if they do. Between two steps all are `None`.
    pub given: Items<Option<u32>>,
    /// Facts that the last step made false. They are noted if a variable is derived, since the evaluator uses them.
    pub deleted: DeletedFacts,
}

impl<E: Drop> Drop for Stepper<E> {
    fn drop(self) {
        let Stepper {
            evaluator,
            given,
            deleted,
        } = self;
        drop(evaluator);
        drop(given);
        drop(deleted);
    }
}

/// Returns a stepper. The evaluator must be ready for the task. All memory for the steps is allocated here. If that fails, the evaluator is
/// returned unchanged.
pub fn stepper_for<E: Settle<T> + Drop, T: Grounded>(
    alloc: Global,
    layered: &Layered<T>,
    evaluator: E,
) -> Result<Stepper<E>, (E, AllocError)>
    requires { E.ready evaluator layered.now }
    ensures prepared { IfOk result (λ s. IsPrepared E.ready layered.now s) }
    ensures handed_back { IfErr result (λ e. e.0 ≡ evaluator) }
{
    match memory_for(alloc, layered) {
        Ok((given, deleted)) => Ok(Stepper {
            evaluator,
            given,
            deleted,
        }),
        Err(error) => Err((evaluator, error)),
    }
}

/// Returns the memory for a step: `given` and `deleted` of a stepper, with room for those of any step.
fn memory_for<T: Grounded>(
    alloc: Global,
    layered: &Layered<T>,
) -> Result<(Items<Option<u32>>, DeletedFacts), AllocError>
    ensures clean { IfOk result (λ m. NothingGiven layered.now m.0) }
    ensures room { IfOk result (λ m. (operator : ℕ) → operator < length layered.now.operators
        → DeletedHasRoom m.1 (length (operator_at layered.now operator).effects)) }
    ensures layered { IfOk result (λ m. IsLayered layered.now) }
    ensures basic { IfOk result (λ m. IsFalse m.1.noted → (var : ℕ) → IsBasic layered.now var) }
{
    let task = layered.task();
    let noted = has_derived(task);
    let room = if noted { most_effects(layered) } else { 0 };
    let facts = Vec::with_capacity(alloc, room)?;
    let given = vec![in alloc; None; task.variables() as usize]?;
    Ok((Items::from_vec(given), DeletedFacts { noted, facts }))
}

/// Returns the initial state: the values of the state section, with the derived variables computed from the basic ones.
pub fn initial_of<E: Settle<T> + Drop, T: Grounded>(
    alloc: Global,
    layered: &Layered<T>,
    stepper: &mut Stepper<E>,
) -> Result<State, AllocError>
    requires prepared { IsPrepared E.ready layered.now stepper.old }
    ensures prepared { IsPrepared E.ready layered.now stepper.new }
    ensures at { IfOk result (IsAt E.ready E.follows layered.now stepper.new) }
    ensures initial { IfOk result (IsInitial layered.now) }
{
    let mut state = State::of_section(alloc, layered.task())?;
    stepper.evaluator.settle(layered, &mut state);
    Ok(state)
}

/// Makes the step of an applicable operator, from any state. If its effects conflict, leaves the state unchanged and returns the fault.
pub fn step_on<E: Settle<T> + Drop, T: Grounded>(
    layered: &Layered<T>,
    stepper: &mut Stepper<E>,
    operator: u32,
    state: &mut State,
) -> Result<(), StepFault>
    requires prepared { IsPrepared E.ready layered.now stepper.old }
    requires operator { operator < length layered.now.operators }
    requires state { IsState layered.now.variables state.old }
    requires applicable { IsApplicable state.old (operator_at layered.now operator) }
    ensures prepared { IsPrepared E.ready layered.now stepper.new }
    ensures steps { Steps layered.now state.old operator state.new result }
{
    apply(layered, stepper, operator, state)?;
    stepper.evaluator.settle(layered, state);
    Ok(())
}

/// Makes the step like `step_on`, but from the state that the evaluator settled last. So the evaluator may reuse what the step doesn't
/// change. If deleted facts aren't noted, no variable is derived. Then each state is settled, so the evaluator isn't called.
#[inline(always)]
pub fn go_on_from<E: Settle<T> + Drop, T: Grounded>(
    layered: &Layered<T>,
    stepper: &mut Stepper<E>,
    operator: u32,
    state: &mut State,
) -> Result<(), StepFault>
    requires at { IsAt E.ready E.follows layered.now stepper.old state.old }
    requires operator { operator < length layered.now.operators }
    requires applicable { IsApplicable state.old (operator_at layered.now operator) }
    ensures at { IsAt E.ready E.follows layered.now stepper.new state.new }
    ensures steps { Steps layered.now state.old operator state.new result }
    ensures changed { OnOk result ((listed : List ℕ) → HasChanged E.changed stepper.new listed
        → ListsDerived layered.now state.old state.new listed) }
{
    apply(layered, stepper, operator, state)?;
    if stepper.deleted.noted {
        let gone = stepper.deleted.facts.as_slice();
        stepper.evaluator.settle_on(layered, gone, state);
    }
    Ok(())
}

/// Makes the step of an operator from the state that the evaluator settled last, whether its preconditions hold or not. Where its effects
/// conflict, the last one counts.
pub fn force<E: Settle<T> + Drop, T: Grounded>(
    layered: &Layered<T>,
    stepper: &mut Stepper<E>,
    operator: u32,
    state: &mut State,
)
    requires at { IsAt E.ready E.follows layered.now stepper.old state.old }
    requires operator { operator < length layered.now.operators }
    ensures at { IsAt E.ready E.follows layered.now stepper.new state.new }
    ensures forced { ForcedStep layered.now state.old (operator_at layered.now operator) state.new }
{
    // By its contract the task is well ranged and layered.
    let _ = layered.task();
    let given = &mut stepper.given;
    let deleted = &mut stepper.deleted;
    give_last(layered, operator, state, given);
    write_given(layered, operator, given, deleted, state);
    if stepper.deleted.noted {
        let gone = stepper.deleted.facts.as_slice();
        stepper.evaluator.settle_on(layered, gone, state);
    }
}

/// Returns a list of derived variables that has all that the last step changed. Returns `None` if the evaluator doesn't have it.
#[inline(always)]
pub fn changed_by<E: Settle<T> + Drop, T: Grounded>(stepper: &Stepper<E>) -> Option<&[u32]>
    ensures { IfSome result (λ listed. HasChanged E.changed stepper.now listed.now) }
{
    if stepper.deleted.noted {
        stepper.evaluator.changed()
    } else {
        Some(&[])
    }
}

/// Returns an upper bound on the number of effects of an operator.
fn most_effects<T: Grounded>(task: &Layered<T>) -> usize
    ensures { (operator : ℕ) → operator < length task.now.operators
        → length (operator_at task.now operator).effects ≤ result }
{
    let mut most = 0;
    for operator in 0..task.operators() {
        most = most.max(task.effects(operator) as usize);
    }
    most
}
