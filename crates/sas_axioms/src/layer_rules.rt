// The rules that can fire, layer by layer.
ghost use Rattle.std.specs.Prelude.{◌<◌, ℕ, length, IfOk, IfSome, IfNone, IsTrue};
ghost use Rattle.sas_axioms.specs.LayerRules.{IsRuleOn, IsLate, AreFirstRules, AreRulesOf};

use sas_core::Grounded;
use sas_flat::{Entry, Lists};
use sas_meaning::Layered;
use std::alloc::{AllocError, Global};

/// A rule that can fire, and the layer of its variable. Rules of lower layers come first.
#[derive(Clone, Copy, PartialEq, Eq, PartialOrd, Ord)]
pub struct LayerRule {
    pub layer: u32,
    pub rule: u32,
}

/// Returns the rules that can fire, without those that never fire first on their layer, in ascending order of their layers.
pub fn first_rules<T: Grounded>(
    alloc: Global,
    layered: &Layered<T>,
) -> Result<Vec<LayerRule>, AllocError>
    ensures { IfOk result (λ rules. AreFirstRules layered.now rules.items) }
{
    let mut rules = Vec::new(alloc);
    for rule in 0..layered.rules() {
        if let Some(layer) = firing_layer(layered, rule) {
            if !is_late(layered, layer, rule) {
                rules.push(LayerRule { layer, rule })?;
            }
        }
    }
    rules.sort_by_key(|entry| entry.layer)?;
    Ok(rules)
}

/// Returns whether the rule, which is on this layer, has conditions on derived variables, and all of them are on this layer. Such a rule
/// never fires first on its layer. Before another rule fires there, its counter depends only on basic variables.
fn is_late<T: Grounded>(layered: &Layered<T>, layer: u32, rule: u32) -> bool
    requires rule { IsRuleOn layered.now layer rule }
    ensures { IsTrue result → IsLate layered.now layer rule }
{
    let task = layered.task();
    let mut waits = false;
    for condition in task.rule_conditions(rule) {
        if let Some(its) = task.layer(condition.var) {
            if its != layer {
                return false;
            }
            waits = true;
        }
    }
    waits
}

/// Returns the rules of each variable that can fire, in the order of the task.
pub fn rules_of_variables<T: Grounded>(
    alloc: Global,
    layered: &Layered<T>,
) -> Result<Lists<u32>, AllocError>
    ensures { IfOk result (AreRulesOf layered.now) }
{
    let task = layered.task();
    let mut entries = Vec::new(alloc);
    for rule in 0..task.rules() {
        let change = task.rule_change(rule);
        if change.new != task.initial_value(change.var) {
            entries.push(Entry {
                key: change.var as usize,
                item: rule,
            })?;
        }
    }
    Lists::by_key(alloc, entries.as_slice(), task.variables() as usize)
}

/// Returns the layer of the rule's variable, or `None` if the rule can't fire.
pub fn firing_layer<T: Grounded>(layered: &Layered<T>, rule: u32) -> Option<u32>
    requires rule { rule < length layered.now.rules }
    ensures some { IfSome result (λ layer. IsRuleOn layered.now layer rule) }
    ensures none { IfNone result ((layer : ℕ) → IsRuleOn layered.now layer rule → ⊥) }
{
    let task = layered.task();
    let change = task.rule_change(rule);
    if change.new == task.initial_value(change.var) {
        return None;
    }
    task.layer(change.var)
}
