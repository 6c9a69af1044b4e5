// The conditions for layered tasks, checked in order.
ghost use Rattle.std.specs.Prelude.{◌≡◌, ◌≢◌, ◌==◌, ◌<◌, ◌+◌, length, slice_index_or, true, Some, None, IfOk};
ghost use Rattle.std.specs.Option.{option_map_or};
ghost use Rattle.std.specs.Result.{result_err};
ghost use Rattle.sas_core.specs.FirstFault.{first_fault, check};
ghost use Rattle.sas_core.specs.Grounded.{operator_at, rule_at};
ghost use Rattle.sas_core.specs.Changes.{change_of};
ghost use Rattle.sas_core.specs.WellRanged.{WellRanged};
ghost use Rattle.sas_meaning.specs.LayerChecks as spec;
ghost use Rattle.sas_meaning.specs.Layers.{CanFire};
ghost use Rattle.sas_meaning.specs.NewValues.{NewValues};
ghost use Rattle.sas_meaning.specs.declared.layered.LayerFault.TheVariants.{LayerOrder};

use crate::derived::has_derived;
use crate::layered::LayerFault;
use sas_core::{Change, Fact, Grounded, Items, check};
use std::alloc::Global;

/// Checks the operators, then the rules, each in order. Returns the first fault.
pub fn check_layers<T: Grounded>(alloc: Global, task: &T) -> Result<(), LayerFault>
    ensures first { result_err result ≢ Some LayerFault.Memory
        → result_err result ≡ first_fault (spec.layer_checks (T.says task.now)) }
    ensures well_ranged { WellRanged (T.says task.now) }
{
    let variables = task.variables() as usize;
    check_operators(task)?;
    let mut new_values = Items::from_vec(vec![in alloc; None; variables]?);
    check_rules(task, &mut new_values)
}

/// Checks the operators in order. Where no variable is derived, there is nothing to check.
fn check_operators<T: Grounded>(task: &T) -> Result<(), LayerFault>
    requires { WellRanged (T.says task.now) }
    ensures { result_err result
        ≡ first_fault
        (spec.numbered_checks (spec.operator_layer_checks (T.says task.now))
        (T.says task.now).operators) }
{
    if !has_derived(task) {
        return Ok(());
    }
    for operator in 0..task.operators() {
        check_operator(task, operator)?;
    }
    Ok(())
}

/// Checks the effects of an operator in order.
fn check_operator<T: Grounded>(task: &T, operator: u32) -> Result<(), LayerFault>
    requires well_ranged { WellRanged (T.says task.now) }
    requires operator { operator < length (T.says task.now).operators }
    ensures { result_err result
        ≡ first_fault
        (spec.operator_layer_checks (T.says task.now) operator
        (operator_at (T.says task.now) operator)) }
{
    for effect in 0..task.effects(operator) {
        let change = task.effect_change(operator, effect);
        check(
            task.layer(change.var).is_none(),
            LayerFault::EffectOnDerived { operator, effect },
        )?;
    }
    Ok(())
}

/// Checks the rules in order. `new_values` must contain no values.
fn check_rules<T: Grounded>(task: &T, new_values: &mut Items<Option<u32>>) -> Result<(), LayerFault>
    requires well_ranged { WellRanged (T.says task.now) }
    requires known { NewValues (T.says task.now) 0 new_values.old }
    ensures { result_err result
        ≡ first_fault (spec.numbered_checks (spec.rule_layer_checks (T.says task.now))
        (T.says task.now).rules) }
{
    for rule in 0..task.rules() {
        check_rule(task, rule, new_values)?;
    }
    Ok(())
}

/// Checks a rule. `new_values` contains the new values of the earlier rules.
fn check_rule<T: Grounded>(
    task: &T,
    rule: u32,
    new_values: &mut Items<Option<u32>>,
) -> Result<(), LayerFault>
    requires well_ranged { WellRanged (T.says task.now) }
    requires rule { rule < length (T.says task.now).rules }
    requires known { NewValues (T.says task.now) rule new_values.old }
    ensures first { result_err result
        ≡ first_fault (spec.rule_layer_checks (T.says task.now) rule
        (rule_at (T.says task.now) rule)) }
    ensures known { IfOk result (λ _. NewValues (T.says task.now) (rule + 1) new_values.new) }
{
    let change = task.rule_change(rule);
    check(
        task.layer(change.var).is_some(),
        LayerFault::RuleOnBasic { rule },
    )?;
    if change.new == task.initial_value(change.var) {
        return Ok(());
    }
    check_firing_rule(task, rule, change, new_values)
}

/// Checks a rule that can fire, and stores its new value.
fn check_firing_rule<T: Grounded>(
    task: &T,
    rule: u32,
    change: Change,
    new_values: &mut Items<Option<u32>>,
) -> Result<(), LayerFault>
    requires well_ranged { WellRanged (T.says task.now) }
    requires rule { rule < length (T.says task.now).rules }
    requires change { change ≡ change_of (rule_at (T.says task.now) rule) }
    requires can_fire { CanFire (T.says task.now) (rule_at (T.says task.now) rule) }
    requires known { NewValues (T.says task.now) rule new_values.old }
    ensures first { result_err result
        ≡ first_fault (spec.firing_checks (T.says task.now) rule (rule_at (T.says task.now) rule)) }
    ensures known { IfOk result (λ _. NewValues (T.says task.now) (rule + 1) new_values.new) }
{
    check(
        is_none_or_just(change.old, task.initial_value(change.var)),
        LayerFault::OldValue { rule },
    )?;
    check(
        is_none_or_just(value_of(new_values, change.var), change.new),
        LayerFault::TwoValues { rule },
    )?;
    new_values.set(change.var as usize, Some(change.new));
    check_conditions(task, rule, change.var)
}

/// Checks the conditions of a rule for variable `var` in order.
fn check_conditions<T: Grounded>(task: &T, rule: u32, var: u32) -> Result<(), LayerFault>
    requires well_ranged { WellRanged (T.says task.now) }
    requires rule { rule < length (T.says task.now).rules }
    requires var { var ≡ (rule_at (T.says task.now) rule).var }
    ensures { result_err result ≡ first_fault (spec.numbered_checks
        (λ condition c.
        check (spec.looks_down (T.says task.now) (rule_at (T.says task.now) rule).var c)
        (LayerOrder rule condition))
        (rule_at (T.says task.now) rule).conditions) }
{
    for (condition, fact) in task.rule_conditions(rule).iter().enumerate() {
        check(
            looks_down(task, var, *fact),
            LayerFault::LayerOrder {
                rule,
                condition: condition as u32,
            },
        )?;
    }
    Ok(())
}

/// Returns whether a condition of a rule for variable `var` follows the order of layers.
fn looks_down<T: Grounded>(task: &T, var: u32, condition: Fact) -> bool
    requires var { var < length (T.says task.now).variables }
    requires condition { condition.var < length (T.says task.now).variables }
    ensures { result ≡ spec.looks_down (T.says task.now) var condition }
{
    let (Some(here), Some(its)) = (task.layer(var), task.layer(condition.var)) else {
        return true;
    };
    if condition.value == task.initial_value(condition.var) {
        its < here
    } else {
        its <= here
    }
}

/// Returns the value stored for the variable, if any.
fn value_of(values: &Items<Option<u32>>, var: u32) -> Option<u32>
    requires { var < length values.now }
    ensures { result ≡ slice_index_or values.now var None }
{
    values.as_slice()[var as usize]
}

/// Returns whether `value` is `None` or `only`.
fn is_none_or_just(value: Option<u32>, only: u32) -> bool
    ensures { result ≡ option_map_or (λ its. its == only) value true }
{
    value.is_none_or(|its| its == only)
}
