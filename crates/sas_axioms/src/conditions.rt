// An index from each variable to the conditions of rules on it.
ghost use Rattle.std.specs.Prelude.{◌≡◌, ◌+◌, ◌<◌, ◌++◌, IfOk, OnOk, IfSome, IfNone, length, slice_index};
ghost use Rattle.sas_core.specs.Grounded.{rule_at};
ghost use Rattle.sas_axioms.specs.Conditions.{IsFullIndex, CanCount, entries, waits_for};

use crate::layer_rules::firing_layer;
use sas_core::{Grounded, Items};
use sas_flat::{Entry, Lists};
use sas_meaning::Layered;
use std::alloc::{AllocError, Global};

/// A condition of a rule that can fire: the rule waits for a variable to have this value. The index groups conditions by variable.
#[derive(Clone, Copy)]
pub struct RuleCondition {
    pub value: u32,
    pub rule: u32,
}

/// The former and the new value of a variable.
#[derive(Clone, Copy)]
pub struct ValueChange {
    pub former: u32,
    pub value: u32,
}

/// Evaluates one condition of a rule again after its variable moved. Returns how many conditions of the rule are open now, or `None` if the
/// number doesn't change. `counters` has the former number for each rule.
#[inline(always)]
pub fn count_after(
    condition: RuleCondition,
    moved: ValueChange,
    counters: &Items<u32>,
) -> Option<u32>
    requires { CanCount moved condition counters.now }
    ensures some { IfSome result (λ count. count + waits_for moved.value condition
        ≡ slice_index counters.now condition.rule + waits_for moved.former condition) }
    ensures none { IfNone result
        (waits_for moved.value condition ≡ waits_for moved.former condition) }
{
    let rule = condition.rule as usize;
    if condition.value == moved.value {
        Some(counters.as_slice()[rule] - 1)
    } else if condition.value == moved.former {
        Some(counters.as_slice()[rule] + 1)
    } else {
        None
    }
}

/// Returns the index of all conditions of rules that can fire.
#[tactic(auto, using(crate::proofs::AllConditions::conditions_exist))]
pub fn index_of_all<T: Grounded>(
    alloc: Global,
    layered: &Layered<T>,
) -> Result<Lists<RuleCondition>, AllocError>
    ensures { IfOk result (λ index. IsFullIndex layered.now index) }
{
    let task = layered.task();
    let mut waiting = Vec::new(alloc);
    for rule in 0..task.rules() {
        if let Some(_layer) = firing_layer(layered, rule) {
            push_conditions(layered, rule, &mut waiting)?;
        }
    }
    Lists::by_key(alloc, waiting.as_slice(), task.variables() as usize)
}

/// Appends an entry for each condition of the rule. Its key is the variable of the condition.
fn push_conditions<T: Grounded>(
    layered: &Layered<T>,
    rule: u32,
    waiting: &mut Vec<Entry<RuleCondition>>,
) -> Result<(), AllocError>
    requires rule { rule < length layered.now.rules }
    ensures { OnOk result (waiting.new.items
        ≡ waiting.old.items ++ entries rule (rule_at layered.now rule).conditions) }
{
    for condition in layered.rule_conditions(rule) {
        waiting.push(Entry {
            key: condition.var as usize,
            item: RuleCondition {
                value: condition.value,
                rule,
            },
        })?;
    }
    Ok(())
}
