// What the numbers of a line mean in a task: names and facts.
ghost use Rattle.std.specs.Prelude.{◌≡◌, ◌-◌, [], slice_index_or};
ghost use Rattle.std.specs.Option.{unwrap_or};
ghost use Rattle.sas_core.specs.Changes.{change_of, fact_of};
ghost use Rattle.sas_core.specs.Grounded.{operator_at, effect_at, rule_at};
ghost use Rattle.sas_core.specs.Variables as spec;
ghost use Rattle.sas_answers.specs.Wording.{steps_of};

use sas_core::{Fact, Grounded, Stepwise};
use sas_flat::{FlatPlan, FlatTask};

/// Where the names in lines come from: a task, and a plan where the lines are about one.
#[derive(Clone, Copy)]
pub struct NameSource<'n> {
    pub task: &'n FlatTask,
    pub plan: Option<&'n FlatPlan>,
}

impl<'n> NameSource<'n> {
    /// Returns the name of the plan's step, counted from 1; if there is no such step, no bytes.
    pub(crate) fn step_name(&self, step: usize) -> &'n [u8]
        ensures { result.now ≡ slice_index_or (steps_of self.now.plan) (step - 1) [] }
    {
        let before = step.saturating_sub(1);
        match self.plan {
            Some(plan) => name_of_step(plan, before),
            None => b"",
        }
    }
}

/// Returns the name of the plan's step, counted from 0; past the last step, no bytes.
fn name_of_step(plan: &FlatPlan, before: usize) -> &[u8]
    ensures { result.now ≡ slice_index_or plan.now.steps before [] }
{
    if before < plan.steps() {
        plan.step(before)
    } else {
        b""
    }
}

/// Returns the operator's name; past the last operator, no bytes.
pub fn operator_name(task: &FlatTask, operator: u32) -> &[u8]
    ensures { result.now ≡ (operator_at task.now operator).name }
{
    if operator < task.operators() {
        task.name(operator)
    } else {
        b""
    }
}

/// Returns the name of the fact's value; if there is no such value, no bytes.
pub fn value_name(task: &FlatTask, fact: Fact) -> &[u8]
    ensures { result.now ≡ unwrap_or (spec.value_name task.now.variables fact.var fact.value) [] }
{
    match task.value_name(fact) {
        Some(name) => name,
        None => b"",
    }
}

/// Returns the fact that the rule sets; past the last rule, that variable 0 has value 0.
pub fn given_by(task: &FlatTask, rule: u32) -> Fact
    ensures { result ≡ fact_of (change_of (rule_at task.now rule)) }
{
    if rule < task.rules() {
        task.rule_change(rule).fact()
    } else {
        Fact { var: 0, value: 0 }
    }
}

/// Returns the fact that the operator's effect sets; past the last one, that variable 0 has value 0.
pub fn set_by(task: &FlatTask, operator: u32, effect: u32) -> Fact
    ensures { result ≡ fact_of (change_of (effect_at (operator_at task.now operator) effect)) }
{
    if operator < task.operators() && effect < task.effects(operator) {
        task.effect_change(operator, effect).fact()
    } else {
        Fact { var: 0, value: 0 }
    }
}
