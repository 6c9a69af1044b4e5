// How a grounded task is read, regardless of how it is stored.
ghost use Rattle.std.specs.Prelude.{◌≡◌, ◌<◌, length};
ghost use Rattle.sas_core.specs.Changes.{change_of, fact_of};
ghost use Rattle.sas_core.specs.Grounded as spec;
ghost use Rattle.sas_core.specs.WellRanged.{OperatorFits};

use crate::{Effect, Fact, Operator, Rule, Task};

/// The change that an effect or a rule makes: variable `var` gets the value `new`. If `old` is given, the variable must have that value
/// before.
#[derive(Clone, Copy, Debug, PartialEq, Eq)]
pub struct Change {
    pub var: u32,
    pub old: Option<u32>,
    pub new: u32,
}

impl Change {
    /// Returns the fact that becomes true.
    pub fn fact(self) -> Fact
        ensures { result ≡ fact_of self }
    {
        Fact {
            var: self.var,
            value: self.new,
        }
    }
}

/// A grounded task. All code that interprets a task reads it through these methods. `says` is the contents of the task file that the task
/// represents. Variables, operators, effects, rules and groups are identified by their index, counted from 0.
pub trait Grounded {
    ghost use Rattle.std.specs.Prelude.{◌≡◌, ◌<◌, length, slice_index, IfSome};
    ghost use Rattle.sas_core.specs.declared.parts.Parts.{Parts};
    ghost use Rattle.sas_core.specs.Grounded.{operator_at, effect_at, rule_at, group_at};
    ghost use Rattle.sas_core.specs.Changes.{change_of, plain_effects};
    ghost use Rattle.sas_core.specs.Tasks.{cost_of};
    ghost use Rattle.sas_core.specs.Variables.{range_of, layer_of};
    ghost use Rattle.sas_core.specs.WellRanged.{WellRanged};

    /// The contents of the task file that this task represents.
    ghost says: { Self → Parts };

    /// Returns the number of variables. The contents of the task are well ranged.
    fn variables(&self) -> u32
        ensures count { result ≡ length (says self.now).variables }
        ensures well_ranged { WellRanged (says self.now) };

    /// Returns the number of mutex groups.
    fn groups(&self) -> u32
        ensures { result ≡ length (says self.now).groups };

    /// Returns the number of operators.
    fn operators(&self) -> u32
        ensures { result ≡ length (says self.now).operators };

    /// Returns the number of rules (axioms).
    fn rules(&self) -> u32
        ensures { result ≡ length (says self.now).rules };

    /// Returns the number of values of the variable.
    fn range(&self, var: u32) -> u32
        requires { var < length (says self.now).variables }
        ensures { result ≡ range_of (says self.now).variables var };

    /// Returns the axiom layer of a derived variable, or `None` for a basic variable.
    fn layer(&self, var: u32) -> Option<u32>
        requires { var < length (says self.now).variables }
        ensures { result ≡ layer_of (says self.now).variables var };

    /// Returns the value of the variable in the state section. For a derived variable this is its default.
    fn initial_value(&self, var: u32) -> u32
        requires { var < length (says self.now).variables }
        ensures { result ≡ slice_index (says self.now).init var };

    /// Returns the goal facts.
    fn goal(&self) -> &[Fact]
        ensures { result.now ≡ (says self.now).goal };

    /// Returns the facts of the mutex group.
    fn group(&self, group: u32) -> &[Fact]
        requires { group < length (says self.now).groups }
        ensures { result.now ≡ group_at (says self.now) group };

    /// Returns the operator's name.
    fn name(&self, operator: u32) -> &[u8]
        requires { operator < length (says self.now).operators }
        ensures { result.now ≡ (operator_at (says self.now) operator).name };

    /// Returns the cost of the operator: the number on its cost line with metric 1, and 1 with metric 0.
    fn cost(&self, operator: u32) -> u32
        requires { operator < length (says self.now).operators }
        ensures { result ≡ cost_of (says self.now) operator };

    /// Returns the number on the operator's cost line, regardless of the metric.
    fn cost_line(&self, operator: u32) -> u32
        requires { operator < length (says self.now).operators }
        ensures { result ≡ (operator_at (says self.now) operator).cost };

    /// Returns the operator's prevail conditions.
    fn prevail(&self, operator: u32) -> &[Fact]
        requires { operator < length (says self.now).operators }
        ensures { result.now ≡ (operator_at (says self.now) operator).prevail };

    /// Returns the number of the operator's effects.
    fn effects(&self, operator: u32) -> u32
        requires { operator < length (says self.now).operators }
        ensures { result ≡ length (operator_at (says self.now) operator).effects };

    /// Returns the conditions of the operator's effect.
    fn effect_conditions(&self, operator: u32, effect: u32) -> &[Fact]
        requires operator { operator < length (says self.now).operators }
        requires effect { effect < length (operator_at (says self.now) operator).effects }
        ensures { result.now
            ≡ (effect_at (operator_at (says self.now) operator) effect).conditions };

    /// Returns the change that the operator's effect makes.
    fn effect_change(&self, operator: u32, effect: u32) -> Change
        requires operator { operator < length (says self.now).operators }
        requires effect { effect < length (operator_at (says self.now) operator).effects }
        ensures { result
            ≡ change_of (effect_at (operator_at (says self.now) operator) effect) };

    /// Returns the changes of the operator's effects, in order, if none of them has conditions and the task stores them consecutively.
    /// Steps are faster with them. The default returns `None`.
    fn plain_changes(&self, operator: u32) -> Option<&[Change]>
        requires { operator < length (says self.now).operators }
        ensures { IfSome result (λ changes.
            (operator_at (says self.now) operator).effects ≡ plain_effects changes.now) }
    {
        let _operator = operator;
        None
    }

    /// Returns the conditions of the rule.
    fn rule_conditions(&self, rule: u32) -> &[Fact]
        requires { rule < length (says self.now).rules }
        ensures { result.now ≡ (rule_at (says self.now) rule).conditions };

    /// Returns the change that the rule makes.
    fn rule_change(&self, rule: u32) -> Change
        requires { rule < length (says self.now).rules }
        ensures { result ≡ change_of (rule_at (says self.now) rule) };
}

impl Grounded for Task {
    ghost says = { λ t. t };

    fn variables(&self) -> u32 {
        self.parts().variables.len() as u32
    }

    fn groups(&self) -> u32 {
        self.parts().groups.len() as u32
    }

    fn operators(&self) -> u32 {
        self.parts().operators.len() as u32
    }

    fn rules(&self) -> u32 {
        self.parts().rules.len() as u32
    }

    fn range(&self, var: u32) -> u32 {
        Task::range(self, var)
    }

    fn layer(&self, var: u32) -> Option<u32> {
        self.parts().variables.as_slice()[var as usize].layer
    }

    fn initial_value(&self, var: u32) -> u32 {
        self.parts().init.as_slice()[var as usize]
    }

    fn goal(&self) -> &[Fact] {
        self.parts().goal.as_slice()
    }

    fn group(&self, group: u32) -> &[Fact] {
        self.parts().groups.as_slice()[group as usize].as_slice()
    }

    fn name(&self, operator: u32) -> &[u8] {
        operator_of(self, operator).name.as_slice()
    }

    fn cost(&self, operator: u32) -> u32 {
        Task::cost(self, operator)
    }

    fn cost_line(&self, operator: u32) -> u32 {
        operator_of(self, operator).cost
    }

    fn prevail(&self, operator: u32) -> &[Fact] {
        operator_of(self, operator).prevail.as_slice()
    }

    fn effects(&self, operator: u32) -> u32 {
        operator_of(self, operator).effects.len() as u32
    }

    fn effect_conditions(&self, operator: u32, effect: u32) -> &[Fact] {
        effect_of(self, operator, effect).conditions.as_slice()
    }

    fn effect_change(&self, operator: u32, effect: u32) -> Change {
        change_of(effect_of(self, operator, effect))
    }

    fn rule_conditions(&self, rule: u32) -> &[Fact] {
        rule_of(self, rule).conditions.as_slice()
    }

    fn rule_change(&self, rule: u32) -> Change {
        change_of(rule_of(self, rule))
    }
}

fn operator_of(task: &Task, operator: u32) -> &Operator
    requires { operator < length task.now.operators }
    ensures at { result.now ≡ spec.operator_at task.now operator }
    ensures fits { OperatorFits task.now.variables result.now }
{
    &task.parts().operators.as_slice()[operator as usize]
}

fn effect_of(task: &Task, operator: u32, effect: u32) -> &Effect
    requires operator { operator < length task.now.operators }
    requires effect { effect < length (spec.operator_at task.now operator).effects }
    ensures { result.now ≡ spec.effect_at (spec.operator_at task.now operator) effect }
{
    &operator_of(task, operator).effects.as_slice()[effect as usize]
}

fn rule_of(task: &Task, rule: u32) -> &Rule
    requires { rule < length task.now.rules }
    ensures { result.now ≡ spec.rule_at task.now rule }
{
    &task.parts().rules.as_slice()[rule as usize]
}

fn change_of(effect: &Effect) -> Change
    ensures { result ≡ change_of effect.now }
{
    Change {
        var: effect.var,
        old: effect.old,
        new: effect.new,
    }
}
