// Which operators keep a group.
ghost use Rattle.std.specs.Prelude.{◌<◌, ◌↔◌, length, All, IsTrue};
ghost use Rattle.sas_core.specs.Grounded.{operator_at, effect_at};
ghost use Rattle.sas_groups.specs.Clashes.{Keeps};
ghost use Rattle.sas_groups.specs.Keeping.{Alone, NotBoth, HasNoPartner, IsGone, KeepsIfSets};

use crate::clashes::{clash, contains};
use crate::known::Premises;
use crate::removal::is_removed;
use sas_core::{Fact, Grounded};
use sas_meaning::Layered;

/// Returns whether the operator keeps the group.
pub fn keeps<T: Grounded>(task: &Layered<T>, operator: u32, group: &[Fact]) -> bool
    requires { operator < length task.now.operators }
    ensures { IsTrue result ↔ Keeps (Alone group.now) (operator_at task.now operator) group.now }
{
    for effect in 0..task.effects(operator) {
        if !keeps_if_sets(task, operator, group, effect) {
            return false;
        }
    }
    true
}

/// Returns whether the effect sets no fact of the group, or keeps the group.
fn keeps_if_sets<T: Grounded>(task: &Layered<T>, operator: u32, group: &[Fact], effect: u32) -> bool
    requires operator { operator < length task.now.operators }
    requires effect { effect < length (operator_at task.now operator).effects }
    ensures { let o = operator_at task.now operator in
        IsTrue result ↔ KeepsIfSets (Alone group.now) o group.now (effect_at o effect) }
{
    if !contains(group, task.effect_change(operator, effect).fact()) {
        return true;
    }
    is_single(task, operator, group, effect) && removes_all(task, operator, group, effect)
}

/// Returns whether no effect that may fire together with this one sets another fact of the group on another variable.
fn is_single<T: Grounded>(task: &Layered<T>, operator: u32, group: &[Fact], effect: u32) -> bool
    requires operator { operator < length task.now.operators }
    requires effect { effect < length (operator_at task.now operator).effects }
    ensures { let o = operator_at task.now operator in
        IsTrue result ↔ HasNoPartner (Alone group.now) o group.now (effect_at o effect) }
{
    for other in 0..task.effects(operator) {
        if !not_both(task, operator, group, effect, other) {
            return false;
        }
    }
    true
}

/// Returns whether the other effect can't set a fact of the group on another variable in the same step in which this effect fires.
fn not_both<T: Grounded>(
    task: &Layered<T>,
    operator: u32,
    group: &[Fact],
    effect: u32,
    other: u32,
) -> bool
    requires operator { operator < length task.now.operators }
    requires effect { effect < length (operator_at task.now operator).effects }
    requires other { other < length (operator_at task.now operator).effects }
    ensures { let o = operator_at task.now operator in IsTrue result
        ↔ NotBoth (Alone group.now) o group.now (effect_at o effect) (effect_at o other) }
{
    let change = task.effect_change(operator, effect);
    let second = task.effect_change(operator, other);
    if change.var == second.var || !contains(group, second.fact()) {
        return true;
    }
    let both = Premises {
        operator,
        first: task.effect_conditions(operator, effect),
        second: task.effect_conditions(operator, other),
    };
    clash(task, &both, group)
}

/// Returns whether no fact of the group on another variable remains when the effect fires.
fn removes_all<T: Grounded>(task: &Layered<T>, operator: u32, group: &[Fact], effect: u32) -> bool
    requires operator { operator < length task.now.operators }
    requires effect { effect < length (operator_at task.now operator).effects }
    ensures { let o = operator_at task.now operator in
        IsTrue result ↔ All (IsGone (Alone group.now) o (effect_at o effect)) group.now }
{
    for fact in group {
        if !is_gone(task, operator, group, effect, *fact) {
            return false;
        }
    }
    true
}

/// Returns whether this fact can't remain when the effect fires. True if the fact is on the variable of the effect.
fn is_gone<T: Grounded>(
    task: &Layered<T>,
    operator: u32,
    group: &[Fact],
    effect: u32,
    fact: Fact,
) -> bool
    requires operator { operator < length task.now.operators }
    requires effect { effect < length (operator_at task.now operator).effects }
    ensures { let o = operator_at task.now operator in
        IsTrue result ↔ IsGone (Alone group.now) o (effect_at o effect) fact }
{
    let change = task.effect_change(operator, effect);
    if change.var == fact.var {
        return true;
    }
    let before = [fact];
    let with = Premises {
        operator,
        first: task.effect_conditions(operator, effect),
        second: before.as_slice(),
    };
    clash(task, &with, group) || is_removed(task, &with, fact)
}
