// One step from a state by an operator, before the derived variables are computed.
ghost use Rattle.std.specs.Prelude.{◌≡◌, ℕ, ◌<◌, length, IsTrue, IsFalse, IfSome, IfNone, OnOk, OnErr, slice_index};
ghost use Rattle.sas_core.specs.Changes.{plain_effects};
ghost use Rattle.sas_core.specs.Grounded.{operator_at};
ghost use Rattle.sas_core.specs.Variables.{IsState};
ghost use Rattle.sas_meaning.specs.StepLaws.{written};
ghost use Rattle.sas_run.specs.PlainSteps.{DeletedHasRoom, NotesOn, NotesGone};
ghost use Rattle.sas_run.specs.Plans.{IsApplicable};
ghost use Rattle.sas_run.specs.Running.{IsFirstConflict, IsStepFault, Applies};
ghost use Rattle.sas_run.specs.Stepping.{IsPrepared};
ghost use Rattle.sas_run.specs.Given.{NothingGiven, IsGiven, IsGivenTo, value_after, GivesValue, GivesOther};

use crate::deletions::DeletedFacts;
use crate::plain_steps::{make_changes, plain_step, replace};
use crate::stepper::Stepper;
use sas_core::{Change, Fact, Grounded, Items};
use sas_meaning::{Layered, Preconditions, Settle, State};

/// Why an operator has no step in a state.
#[derive(Clone, Copy, Debug, PartialEq, Eq)]
pub enum StepFault {
    /// This precondition doesn't hold. It is the first such precondition.
    NotApplicable { fact: Fact },
    /// This effect fires, but an earlier effect that fires sets its variable to another value. It is the first such effect.
    Conflict { effect: u32 },
}

/// Returns the operator's first precondition that doesn't hold, or `None` if it is applicable.
#[inline(always)]
pub fn missed_precondition<T: Grounded>(
    layered: &Layered<T>,
    operator: u32,
    state: &State,
) -> Option<Fact>
    requires operator { operator < length layered.now.operators }
    requires state { IsState layered.now.variables state.now }
    ensures some { IfSome result (λ fact.
        IsStepFault state.now (operator_at layered.now operator) (StepFault.NotApplicable fact)) }
    ensures none { IfNone result (IsApplicable state.now (operator_at layered.now operator)) }
{
    for fact in Preconditions::new(layered.task(), operator) {
        if state.value(fact.var) != fact.value {
            return Some(fact);
        }
    }
    None
}

/// Applies the effects that fire to the state. The operator must be applicable. On success `deleted` contains the facts that the effects
/// made false, if they are noted. If two of the effects conflict, leaves the state and `deleted` unchanged and returns the fault.
#[tactic(auto, using(crate::proofs::Deleted::room_on))]
#[inline(always)]
pub fn apply<E: Settle<T> + Drop, T: Grounded>(
    task: &Layered<T>,
    stepper: &mut Stepper<E>,
    operator: u32,
    state: &mut State,
) -> Result<(), StepFault>
    requires prepared { IsPrepared E.ready task.now stepper.old }
    requires operator { operator < length task.now.operators }
    requires state { IsState task.now.variables state.old }
    requires applicable { IsApplicable state.old (operator_at task.now operator) }
    ensures prepared { IsPrepared E.ready task.now stepper.new }
    ensures applies { Applies task.now state.old operator state.new result }
    ensures gone { OnOk result (NotesGone task.now stepper.new.deleted state.old state.new) }
    ensures same { OnErr result (stepper.new.deleted ≡ stepper.old.deleted) }
    ensures notes { NotesOn stepper.old.deleted stepper.new.deleted }
    ensures evaluator { stepper.new.evaluator ≡ stepper.old.evaluator }
{
    let given = &mut stepper.given;
    let deleted = &mut stepper.deleted;
    if let Some(changes) = plain_step(task, operator) {
        make_changes(task, operator, changes, deleted, state);
        return Ok(());
    }
    apply_given(task, operator, given, deleted, state)
}

/// Does the same as `apply`, also for effects that aren't plain. First stores the value that each of them sets in `given`, which has no value
/// before and after. It isn't inlined, so that its loops have all registers.
#[inline(never)]
fn apply_given<T: Grounded>(
    task: &Layered<T>,
    operator: u32,
    given: &mut Items<Option<u32>>,
    deleted: &mut DeletedFacts,
    state: &mut State,
) -> Result<(), StepFault>
    requires operator { operator < length task.now.operators }
    requires state { IsState task.now.variables state.old }
    requires applicable { IsApplicable state.old (operator_at task.now operator) }
    requires clean { NothingGiven task.now given.old }
    requires room { DeletedHasRoom deleted.old (length (operator_at task.now operator).effects) }
    ensures applies { Applies task.now state.old operator state.new result }
    ensures gone { OnOk result (NotesGone task.now deleted.new state.old state.new) }
    ensures same { OnErr result (deleted.new ≡ deleted.old) }
    ensures clean { NothingGiven task.now given.new }
    ensures notes { NotesOn deleted.old deleted.new }
{
    if let Some(effect) = give_effects(task, operator, state, given) {
        take_back(task, operator, given);
        return Err(StepFault::Conflict { effect });
    }
    write_given(task, operator, given, deleted, state);
    Ok(())
}

/// Stores, for each variable, the value to which the effects that fire set it. Stops at the first effect that conflicts with an earlier
/// one, and returns it. Returns `None` if no effects conflict.
#[inline(always)]
fn give_effects<T: Grounded>(
    task: &Layered<T>,
    operator: u32,
    state: &State,
    given: &mut Items<Option<u32>>,
) -> Option<u32>
    requires operator { operator < length task.now.operators }
    requires state { IsState task.now.variables state.now }
    requires clean { NothingGiven task.now given.old }
    ensures some { IfSome result (λ effect.
        IsFirstConflict state.now (operator_at task.now operator) effect) }
    ensures none { IfNone result (IsGiven task.now state.now (operator_at task.now operator)
        (length (operator_at task.now operator).effects) given.new) }
    ensures given_to { IsGivenTo task.now (operator_at task.now operator) given.new }
{
    // A call for each case: so the compiler makes a loop for each, which doesn't test the case again at each effect.
    match task.plain_changes(operator) {
        Some(changes) => give_each(task, operator, Some(changes), state, given),
        None => give_each(task, operator, None, state, given),
    }
}

/// Does the same as `give_effects`. `plain` has the changes of the effects, if they have no conditions.
#[inline(always)]
fn give_each<T: Grounded>(
    task: &Layered<T>,
    operator: u32,
    plain: Option<&[Change]>,
    state: &State,
    given: &mut Items<Option<u32>>,
) -> Option<u32>
    requires operator { operator < length task.now.operators }
    requires plain { IfSome plain (λ changes.
        (operator_at task.now operator).effects ≡ plain_effects changes.now) }
    requires state { IsState task.now.variables state.now }
    requires clean { NothingGiven task.now given.old }
    ensures some { IfSome result (λ effect.
        IsFirstConflict state.now (operator_at task.now operator) effect) }
    ensures none { IfNone result (IsGiven task.now state.now (operator_at task.now operator)
        (length (operator_at task.now operator).effects) given.new) }
    ensures given_to { IsGivenTo task.now (operator_at task.now operator) given.new }
{
    // By its contract the task is well ranged and layered.
    let _ = task.task();
    for effect in 0..task.effects(operator) {
        let change = match plain {
            Some(changes) => changes[effect as usize],
            None => {
                if !state.holds_all(task.effect_conditions(operator, effect)) {
                    continue;
                }
                task.effect_change(operator, effect)
            }
        };
        if !give(given, change.var, change.new) {
            return Some(effect);
        }
    }
    None
}

/// Stores, for each variable, the value to which the last effect that fires on it sets it.
pub fn give_last<T: Grounded>(
    task: &Layered<T>,
    operator: u32,
    state: &State,
    given: &mut Items<Option<u32>>,
)
    requires operator { operator < length task.now.operators }
    requires state { IsState task.now.variables state.now }
    requires clean { NothingGiven task.now given.old }
    ensures given { (var : ℕ) → value_after given.new state.now var ≡ slice_index
        (written state.now (operator_at task.now operator).effects state.now) var }
    ensures given_to { IsGivenTo task.now (operator_at task.now operator) given.new }
{
    // By its contract the task is well ranged and layered.
    let _ = task.task();
    for effect in 0..task.effects(operator) {
        if !state.holds_all(task.effect_conditions(operator, effect)) {
            continue;
        }
        let change = task.effect_change(operator, effect);
        given.set(change.var as usize, Some(change.new));
    }
}

/// Stores the value for the variable. If another value is already stored, changes nothing and returns false.
fn give(given: &mut Items<Option<u32>>, var: u32, value: u32) -> bool
    requires { var < length given.old }
    ensures yes { IsTrue result → GivesValue given.old var value given.new }
    ensures no { IsFalse result → GivesOther given.old var value given.new }
{
    match given.as_slice()[var as usize] {
        Some(earlier) => earlier == value,
        None => {
            given.set(var as usize, Some(value));
            true
        }
    }
}

/// Removes the values that are stored for the variables of the effects.
#[tactic(auto, using(crate::proofs::Ranges::change_within, crate::proofs::Giving::all_taken))]
fn take_back<T: Grounded>(task: &Layered<T>, operator: u32, given: &mut Items<Option<u32>>)
    requires operator { operator < length task.now.operators }
    requires given_to { IsGivenTo task.now (operator_at task.now operator) given.old }
    ensures { NothingGiven task.now given.new }
{
    // By its contract the task is well ranged and layered.
    let _ = task.task();
    for effect in 0..task.effects(operator) {
        let change = task.effect_change(operator, effect);
        given.set(change.var as usize, None);
    }
}

/// Moves the values that are stored for the variables of the effects into the state. If deleted facts are noted, `deleted` then contains
/// those that became false.
#[inline(always)]
pub fn write_given<T: Grounded>(
    task: &Layered<T>,
    operator: u32,
    given: &mut Items<Option<u32>>,
    deleted: &mut DeletedFacts,
    state: &mut State,
)
    requires operator { operator < length task.now.operators }
    requires state { IsState task.now.variables state.old }
    requires given_to { IsGivenTo task.now (operator_at task.now operator) given.old }
    requires room { DeletedHasRoom deleted.old (length (operator_at task.now operator).effects) }
    ensures state { IsState task.now.variables state.new }
    ensures written { (var : ℕ) → slice_index state.new var ≡ value_after given.old state.old var }
    ensures gone { NotesGone task.now deleted.new state.old state.new }
    ensures clean { NothingGiven task.now given.new }
    ensures notes { NotesOn deleted.old deleted.new }
{
    // By its contract the task is well ranged and layered.
    let _ = task.task();
    deleted.facts.clear();
    for effect in 0..task.effects(operator) {
        let var = task.effect_change(operator, effect).var;
        if let Some(value) = given.as_slice()[var as usize] {
            replace(Fact { var, value }, deleted, state);
            given.set(var as usize, None);
        }
    }
}
