// Tasks: parts that satisfy all rules of a task file.
ghost use Rattle.std.specs.Prelude.{◌≡◌, ◌<◌, ◌↔◌, length, IsTrue, IsOk, IfOk, IfErr, option_map};
ghost use Rattle.std.specs.Result.{result_err};
ghost use Rattle.sas_core.specs.Checks.{checks, ChecksAreTheRules};
ghost use Rattle.sas_core.specs.FirstFault.{first_fault};
ghost use Rattle.sas_core.specs.Tasks.{cost_of};
ghost use Rattle.sas_core.specs.Variables.{range_of, IsDerived, FactExists};
ghost use Rattle.sas_core.specs.WellRanged.{WellRanged};

use crate::checks::{PartsFault, check_parts, has_value};
use crate::parts::{Fact, Parts};
use std::marker::Model;

/// A task whose parts are well ranged, that is, satisfy all rules of a task file. Two tasks are equal if their parts are equal.
#[derive(Debug, PartialEq, Eq, Drop)]
pub struct Task {
    parts: Parts,
}

impl Model for Task {
    ghost use Rattle.sas_core.specs.declared.parts.Parts.{Parts};
    ghost use Rattle.sas_core.specs.WellRanged.{WellRanged};

    ghost Value = { Parts };

    ghost view = { λ t. t.parts };

    ghost invariant = { λ t. WellRanged t.parts };

    ghost inverse = { λ p. record { parts = p } };
}

impl Task {
    /// Returns the task with these parts if they are well ranged. Otherwise returns the parts unchanged and their first fault in the order
    /// of the file.
    ///
    /// The order of the checks is:
    /// - `NoVariable`, then the number of variables.
    /// - For each variable its name, its layer, `BadRange` if it has no value, the number of its values, and their names.
    /// - The number of groups, and for each group the number of its facts and these facts.
    /// - `InitLength`, then the values of the state section.
    /// - The number of goal facts and these facts.
    /// - The number of operators, and for each operator its name, the number of its prevail conditions, these conditions, the number of its
    ///   effects, these effects, and its cost.
    /// - The number of rules and these rules.
    ///
    /// A list that is too long is reported as `TooMany`. In an effect or a rule the number of conditions and the conditions are checked
    /// first, then the variable with its old value, if any, then the variable with its new value.
    pub fn new(parts: Parts) -> Result<Task, (Parts, PartsFault)>
        ensures well_ranged { IsOk result ↔ WellRanged parts }
        ensures task { IfOk result (λ t. t ≡ parts) }
        ensures handed_back { IfErr result (λ e. e.0 ≡ parts) }
        ensures first { option_map (λ e. e.1) (result_err result) ≡ first_fault (checks parts) }
    {
        match check_parts(&parts) {
            Err(fault) => Err((parts, fault)),
            Ok(()) => Ok(Task { parts }),
        }
    }

    /// Returns the task with these parts, which must be well ranged. Allocates no memory and checks nothing.
    pub fn of_parts(parts: Parts) -> Task
        requires { WellRanged parts }
        ensures { result ≡ parts }
    {
        Task { parts }
    }

    /// Returns the parts of the task.
    pub fn parts(&self) -> &Parts
        ensures parts { result.now ≡ self.now }
        ensures well_ranged { WellRanged self.now }
    {
        &self.parts
    }

    /// Converts the task into its parts.
    pub fn into_parts(self) -> Parts
        ensures parts { result ≡ self }
        ensures well_ranged { WellRanged self }
    {
        let Task { parts } = self;
        parts
    }

    /// Returns the cost of the operator: the number on its cost line with metric 1, and 1 with metric 0.
    pub fn cost(&self, operator: u32) -> u32
        requires { operator < length self.now.operators }
        ensures { result ≡ cost_of self.now operator }
    {
        if self.parts.metric {
            self.parts.operators.as_slice()[operator as usize].cost
        } else {
            1
        }
    }

    /// Returns the number of values of the variable.
    pub fn range(&self, var: u32) -> u32
        requires { var < length self.now.variables }
        ensures { result ≡ range_of self.now.variables var }
    {
        self.parts.variables.as_slice()[var as usize].values.len() as u32
    }

    /// Returns whether the variable is derived, that is, has a layer.
    pub fn derived(&self, var: u32) -> bool
        requires { var < length self.now.variables }
        ensures { IsTrue result ↔ IsDerived self.now.variables var }
    {
        self.parts.variables.as_slice()[var as usize]
            .layer
            .is_some()
    }

    /// Returns whether the fact's variable exists and has this value.
    pub fn has_fact(&self, fact: Fact) -> bool
        ensures { IsTrue result ↔ FactExists self.now.variables fact }
    {
        has_value(&self.parts.variables, fact.var, fact.value)
    }
}

/// Law: parts are well ranged if and only if all their checks pass.
pub fn range_laws()
    ensures { ChecksAreTheRules }
{}
