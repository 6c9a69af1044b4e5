// Whether an operator removes a fact.
ghost use Rattle.std.specs.Prelude.{◌<◌, ◌↔◌, length, All, Contains, IsTrue};
ghost use Rattle.sas_core.specs.Grounded.{operator_at, effect_at};
ghost use Rattle.sas_groups.specs.Clashes.{IsRemoved, Removes};
ghost use Rattle.sas_groups.specs.Lists.{known_on};

use crate::known::{Known, Premises};
use sas_core::{Fact, Grounded};
use sas_meaning::Layered;

/// Returns whether the fact is a known fact.
fn is_known<T: Grounded>(task: &Layered<T>, premises: &Premises<'_>, fact: Fact) -> bool
    requires { premises.now.operator < length task.now.operators }
    ensures { IsTrue result ↔ Contains (known_on task.now premises.now) fact }
{
    for g in Known::new(task, premises) {
        if g == fact {
            return true;
        }
    }
    false
}

/// Returns whether all conditions are known facts.
fn all_known<T: Grounded>(task: &Layered<T>, premises: &Premises<'_>, conditions: &[Fact]) -> bool
    requires { premises.now.operator < length task.now.operators }
    ensures { IsTrue result ↔ All (Contains (known_on task.now premises.now)) conditions.now }
{
    for condition in conditions {
        if !is_known(task, premises, *condition) {
            return false;
        }
    }
    true
}

/// Returns whether some effect of the operator, all of whose conditions are known, sets the variable of the fact to another value.
pub fn is_removed<T: Grounded>(task: &Layered<T>, premises: &Premises<'_>, fact: Fact) -> bool
    requires { premises.now.operator < length task.now.operators }
    ensures { IsTrue result ↔ IsRemoved (operator_at task.now premises.now.operator)
        (known_on task.now premises.now) fact }
{
    for effect in 0..task.effects(premises.operator) {
        if removes(task, premises, effect, fact) {
            return true;
        }
    }
    false
}

/// Returns whether all conditions of the effect are known and it sets the variable of the fact to another value.
fn removes<T: Grounded>(task: &Layered<T>, premises: &Premises<'_>, effect: u32, fact: Fact) -> bool
    requires operator { premises.now.operator < length task.now.operators }
    requires effect { effect < length (operator_at task.now premises.now.operator).effects }
    ensures { IsTrue result ↔ Removes (Contains (known_on task.now premises.now))
        (effect_at (operator_at task.now premises.now.operator) effect) fact }
{
    let change = task.effect_change(premises.operator, effect);
    if change.var != fact.var || change.new == fact.value {
        return false;
    }
    all_known(
        task,
        premises,
        task.effect_conditions(premises.operator, effect),
    )
}
