// Parts of a task, by number. A number of no part stands for none, or for the fact that variable 0 has value 0.
ghost use Rattle.std.specs.Prelude.{◌≡◌};
ghost use Rattle.sas_core.specs.Changes as spec;
ghost use Rattle.sas_core.specs.Grounded.{rule_at, group_at};
ghost use Rattle.sas_core.specs.Variables as variables;
ghost use Rattle.sas_meaning.specs.Layers.{default_of};
ghost use Rattle.sas_task_reasons.specs.WhyGroups.{fact_at};

use sas_core::{Change, Fact, Grounded};
use sas_flat::FlatTask;

/// Returns the layer of the variable; a basic variable has none.
pub fn layer_of(task: &FlatTask, var: u32) -> Option<u32>
    ensures { result ≡ variables.layer_of task.now.variables var }
{
    if var < task.variables() {
        task.layer(var)
    } else {
        None
    }
}

/// Returns the fact that the variable has its default.
pub fn default_fact(task: &FlatTask, var: u32) -> Fact
    ensures { result ≡ record { var = var; value = default_of task.now var } }
{
    if var < task.variables() {
        Fact {
            var,
            value: task.initial_value(var),
        }
    } else {
        Fact { var, value: 0 }
    }
}

/// Returns what the rule changes.
pub fn change_by(task: &FlatTask, rule: u32) -> Change
    ensures { result ≡ spec.change_of (rule_at task.now rule) }
{
    if rule < task.rules() {
        task.rule_change(rule)
    } else {
        Change {
            var: 0,
            old: None,
            new: 0,
        }
    }
}

/// Returns the condition of the rule at this place.
pub fn condition_of(task: &FlatTask, rule: u32, condition: u32) -> Fact
    ensures { result ≡ fact_at (rule_at task.now rule).conditions condition }
{
    let none = Fact { var: 0, value: 0 };
    if rule < task.rules() {
        let conditions = task.rule_conditions(rule);
        conditions.get(condition as usize).copied().unwrap_or(none)
    } else {
        none
    }
}

/// Returns the fact at this place of the mutex group.
pub fn member_of(task: &FlatTask, group: usize, place: usize) -> Fact
    ensures { result ≡ fact_at (group_at task.now group) place }
{
    let none = Fact { var: 0, value: 0 };
    if group < task.groups() as usize {
        let members = task.group(group as u32);
        members.get(place).copied().unwrap_or(none)
    } else {
        none
    }
}
