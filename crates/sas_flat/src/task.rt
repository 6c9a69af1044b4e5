// Flat tasks.
ghost use Rattle.std.specs.Prelude.{◌≡◌, ◌≤◌, ◌<◌, ◌+◌, ◌^◌, length, option_map};
ghost use Rattle.sas_core.specs.LineNumbers.{operator_line, rule_line};
ghost use Rattle.sas_core.specs.Variables as spec;
ghost use Rattle.sas_core.specs.WellRanged.{WellRanged};
ghost use Rattle.sas_flat.specs.FlatTasks.{parts_in};

use crate::columns::TaskColumns;
use sas_core::{Change, Fact, Grounded};
use std::marker::Model;

/// A task in a few blocks of memory. Its contents are well ranged. In a contract its value is these contents.
pub struct FlatTask {
    columns: TaskColumns,
}

impl Drop for FlatTask {
    fn drop(self) {
        let FlatTask { columns } = self;
        drop(columns);
    }
}

impl Model for FlatTask {
    ghost use Rattle.sas_core.specs.declared.parts.Parts.{Parts};
    ghost use Rattle.sas_core.specs.WellRanged.{WellRanged};
    ghost use Rattle.sas_flat.specs.FlatTasks.{parts_in};

    ghost Value = { Parts };

    ghost view = { λ t. parts_in t.columns };

    ghost invariant = { λ t. WellRanged (parts_in t.columns) };
}

impl FlatTask {
    /// Returns the task with these contents, which must be well ranged. Allocates no memory and checks nothing.
    pub fn of_parts(columns: TaskColumns) -> FlatTask
        requires { WellRanged (parts_in columns) }
        ensures { result ≡ parts_in columns }
    {
        FlatTask { columns }
    }

    /// Returns the metric: true if the costs are the numbers on the cost lines (metric 1), false if each operator costs 1 (metric 0).
    pub fn metric(&self) -> bool
        ensures { result ≡ self.now.metric }
    {
        self.columns.metric
    }

    /// Returns the name of the fact, that is, of its value. `None` if the fact doesn't exist.
    pub fn value_name(&self, fact: Fact) -> Option<&[u8]>
        ensures { option_map (λ name. name.now) result
            ≡ spec.value_name self.now.variables fact.var fact.value }
    {
        let variables = &self.columns.variables;
        variables.value_name(fact.var as usize, fact.value as usize)
    }

    /// Returns the line of a task file at which the operator begins, counted from 1. Past the last operator, it is the line
    /// behind all operators. Takes constant time, as `rule_line` does.
    pub fn operator_line(&self, operator: u32) -> u128
        ensures { result ≡ operator_line self.now operator }
    {
        let operators = self.columns.operators.len();
        let operator = operator as usize;
        let before = if operator < operators {
            operator
        } else {
            operators
        };
        self.lines_before_operator(before) + 1
    }

    /// Returns the line of a task file at which the rule begins, counted from 1. Past the last rule, it is the line behind all
    /// rules.
    pub fn rule_line(&self, rule: u32) -> u128
        ensures { result ≡ rule_line self.now rule }
    {
        let rules = self.columns.rules.len();
        let rule = rule as usize;
        let before = if rule < rules { rule } else { rules };
        let conditions = self.columns.rules.conditions_before(before) as u128;
        let operators = self.columns.operators.len();
        self.lines_before_operator(operators) + 1 + 4 * before as u128 + conditions + 1
    }

    /// Returns how many lines of a task file stand before the operator, or behind the last one.
    fn lines_before_operator(&self, operator: usize) -> u128
        requires { operator ≤ length self.now.operators }
        ensures lines { result + 1 ≡ operator_line self.now operator }
        ensures small { result < 2 ^ 80 }
    {
        let columns = &self.columns;
        let variables = columns.variables.len() as u128;
        let values = columns.variables.values() as u128;
        let groups = columns.groups.len();
        let facts = columns.groups.items_before(groups) as u128;
        let state = columns.init.as_slice().len() as u128;
        let goal = columns.goal.as_slice().len() as u128;
        let (prevail, effects) = columns.operators.before(operator);
        let front = 14 + 5 * variables + values + 3 * groups as u128 + facts + state + goal;
        front + 6 * operator as u128 + prevail as u128 + effects as u128
    }
}

/// Each method takes constant time.
impl Grounded for FlatTask {
    ghost says = { λ t. t };

    fn variables(&self) -> u32 {
        self.columns.variables.len() as u32
    }

    fn groups(&self) -> u32 {
        self.columns.groups.len() as u32
    }

    fn operators(&self) -> u32 {
        self.columns.operators.len() as u32
    }

    fn rules(&self) -> u32 {
        self.columns.rules.len() as u32
    }

    fn range(&self, var: u32) -> u32 {
        self.columns.variables.range(var as usize) as u32
    }

    fn layer(&self, var: u32) -> Option<u32> {
        self.columns.variables.layer(var as usize)
    }

    fn initial_value(&self, var: u32) -> u32 {
        self.columns.init.as_slice()[var as usize]
    }

    fn goal(&self) -> &[Fact] {
        self.columns.goal.as_slice()
    }

    fn group(&self, group: u32) -> &[Fact] {
        self.columns.groups.get(group as usize)
    }

    fn name(&self, operator: u32) -> &[u8] {
        self.columns.operators.name(operator as usize)
    }

    fn cost(&self, operator: u32) -> u32 {
        if self.columns.metric {
            self.columns.operators.cost(operator as usize)
        } else {
            1
        }
    }

    fn cost_line(&self, operator: u32) -> u32 {
        self.columns.operators.cost(operator as usize)
    }

    fn prevail(&self, operator: u32) -> &[Fact] {
        self.columns.operators.prevail(operator as usize)
    }

    fn effects(&self, operator: u32) -> u32 {
        self.columns.operators.effects(operator as usize) as u32
    }

    fn effect_conditions(&self, operator: u32, effect: u32) -> &[Fact] {
        self.columns
            .operators
            .conditions(operator as usize, effect as usize)
    }

    fn effect_change(&self, operator: u32, effect: u32) -> Change {
        self.columns
            .operators
            .change(operator as usize, effect as usize)
    }

    fn plain_changes(&self, operator: u32) -> Option<&[Change]> {
        self.columns.operators.plain_changes(operator as usize)
    }

    fn rule_conditions(&self, rule: u32) -> &[Fact] {
        self.columns.rules.conditions(rule as usize)
    }

    fn rule_change(&self, rule: u32) -> Change {
        self.columns.rules.change(rule as usize)
    }
}
