// Steps of operators whose effects have no conditions and are on different variables. Such effects can be applied directly, one after
// another. Most steps of most plans are of this kind.
ghost use Rattle.std.specs.Prelude.{◌≡◌, ◌≢◌, ◌+◌, ◌<◌, length, All, IsTrue, IsFalse, IfSome, slice_set};
ghost use Rattle.sas_core.specs.declared.grounded.Change.{Change};
ghost use Rattle.sas_core.specs.Grounded.{operator_at};
ghost use Rattle.sas_core.specs.Variables.{IsState};
ghost use Rattle.sas_run.specs.PlainSteps.{DeletedHasRoom, NotesOn, NotesGone, AreApart, AreMade, IsPlainStep, OldHolds};
ghost use Rattle.sas_run.specs.Given.{Replaces};

use crate::deletions::DeletedFacts;
use sas_core::{Change, Fact, Grounded};
use sas_meaning::{Layered, State};

// Up to this many changes are compared in pairs. For more changes, storing what each of them sets takes less time.
const FEW: usize = 8;

/// Returns the changes of the operator's effects if none of them has a condition, no two are on one variable, and there are at most `FEW`.
/// Otherwise returns `None`. A task may also return `None` for an operator whose effects it doesn't store as changes.
#[inline(always)]
pub fn plain_step<T: Grounded>(task: &Layered<T>, operator: u32) -> Option<&[Change]>
    requires { operator < length task.now.operators }
    ensures { IfSome result (λ changes. IsPlainStep (operator_at task.now operator) changes.now) }
{
    let changes = task.plain_changes(operator)?;
    if changes.len() <= FEW && are_apart(changes) {
        Some(changes)
    } else {
        None
    }
}

/// Returns whether the changes are on different variables.
#[inline(always)]
fn are_apart(changes: &[Change]) -> bool
    ensures { IsTrue result → AreApart changes.now }
{
    for index in 0..changes.len() {
        if is_one_on(&changes[index + 1..], changes[index].var) {
            return false;
        }
    }
    true
}

/// Returns whether one of the changes is on the variable.
#[inline(always)]
fn is_one_on(changes: &[Change], var: u32) -> bool
    ensures { IsFalse result → All (λ (c : Change). c.var ≢ var) changes.now }
{
    changes.iter().any(|change| change.var == var)
}

/// Returns whether each variable has the old value that a change requires, if it requires one.
#[inline(always)]
pub fn old_values_hold(state: &State, changes: &[Change]) -> bool
    requires { All (λ (c : Change). c.var < length state.now) changes.now }
    ensures yes { IsTrue result → All (OldHolds state.now) changes.now }
    ensures no { IsFalse result → All (OldHolds state.now) changes.now → ⊥ }
{
    for change in changes {
        if let Some(old) = change.old {
            if state.value(change.var) != old {
                return false;
            }
        }
    }
    true
}

/// Makes the changes in the state. They are those of the operator's effects. If deleted facts are noted, `deleted` then contains those
/// that became false.
#[inline(always)]
pub fn make_changes<T: Grounded>(
    task: &Layered<T>,
    operator: u32,
    changes: &[Change],
    deleted: &mut DeletedFacts,
    state: &mut State,
)
    requires operator { operator < length task.now.operators }
    requires plain { IsPlainStep (operator_at task.now operator) changes.now }
    requires state { IsState task.now.variables state.old }
    requires room { DeletedHasRoom deleted.old (length changes.now) }
    ensures made { AreMade task.now state.old changes.now state.new }
    ensures gone { NotesGone task.now deleted.new state.old state.new }
    ensures notes { NotesOn deleted.old deleted.new }
{
    // By its contract the task is well ranged and layered.
    let _ = task.task();
    deleted.facts.clear();
    for change in changes {
        replace(change.fact(), deleted, state);
    }
}

/// Makes the fact true in the state. If deleted facts are noted and its variable had another value, adds that fact to `deleted`, which must
/// have room for it.
#[inline(always)]
pub fn replace(fact: Fact, deleted: &mut DeletedFacts, state: &mut State)
    requires exists { fact.var < length state.old }
    requires room { DeletedHasRoom deleted.old (length deleted.old.facts.items + 1) }
    ensures state { state.new ≡ slice_set state.old fact.var fact.value }
    ensures deleted { IsTrue deleted.old.noted
        → Replaces state.old fact deleted.old.facts.items deleted.new.facts.items }
    ensures notes { NotesOn deleted.old deleted.new }
{
    if deleted.noted {
        let var = fact.var;
        let value = state.value(var);
        if value != fact.value {
            deleted.facts.push(Fact { var, value }).unwrap();
        }
    }
    state.set(fact);
}
