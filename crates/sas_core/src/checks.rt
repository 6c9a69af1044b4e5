// The rules of a task file, checked in the order of the file.
#![tactic(auto, using(crate::proofs::FirstFaults::fails_before, crate::proofs::FirstFaults::decides_after))]

ghost use Rattle.std.specs.Prelude.{◌≡◌, ◌==◌, not, length};
ghost use Rattle.std.specs.Result.{result_err};
ghost use Rattle.sas_core.specs.Numbers.{is_number};
ghost use Rattle.sas_core.specs.declared.checks.PartsFault.TheVariants.{TooMany};
ghost use Rattle.sas_core.specs.Variables as spec;
ghost use Rattle.sas_core.specs.Checks.{name_checks, signed_checks, variable_checks, fact_checks, change_checks, effect_checks};
ghost use Rattle.sas_core.specs.FirstFault.{first_fault, check, listed};
ghost use Rattle.sas_core.specs.Checks.{operator_checks, state_checks, values_in_range, checks};

use crate::items::Items;
use crate::names::is_name;
use crate::parts::{Effect, Fact, Operator, Parts, Variable};

/// The rule of the file format that some parts violate.
#[derive(Clone, Copy, Debug, PartialEq, Eq)]
pub enum PartsFault {
    /// The task has no variable.
    NoVariable,
    /// A list has more than 2,147,483,647 items, so its length can't be written.
    TooMany,
    /// A name is empty, or contains LF or CR.
    BadName,
    /// A layer or a cost is above 2,147,483,647.
    BadNumber,
    /// A variable has no value.
    BadRange,
    /// A fact, an effect or a rule names a variable or a value that doesn't exist, or a value in the state section is out of range.
    BadFact,
    /// The state section doesn't have exactly one value for each variable.
    InitLength,
}

/// A part of a task file that can be checked.
trait Checkable {
    ghost use Rattle.std.specs.Prelude.{◌≡◌, List};
    ghost use Rattle.std.specs.Result.{result_err};
    ghost use Rattle.sas_core.specs.declared.checks.PartsFault.{PartsFault};
    ghost use Rattle.sas_core.specs.declared.parts.Variable.{Variable};
    ghost use Rattle.sas_core.specs.FirstFault.{Check, first_fault};

    /// The checks of this part in a task with these variables, in the order of the file.
    ghost checks_of: { List Variable → Self → List (Check PartsFault) };

    /// Runs these checks and returns the first fault.
    fn check_among(&self, variables: &Items<Variable>) -> Result<(), PartsFault>
        ensures { result_err result ≡ first_fault (checks_of variables.now self.now) };
}

/// Checks the length of the list, then each item in order.
fn check_list<T: Checkable>(variables: &Items<Variable>, items: &Items<T>) -> Result<(), PartsFault>
    ensures { result_err result ≡ first_fault
        (listed TooMany (T.checks_of variables.now) items.now) }
{
    check(is_number(items.len()), PartsFault::TooMany)?;
    for item in items.as_slice() {
        item.check_among(variables)?;
    }
    Ok(())
}

/// Checks the parts in the order of the file and returns the first fault.
pub fn check_parts(parts: &Parts) -> Result<(), PartsFault>
    ensures { result_err result ≡ first_fault (checks parts.now) }
{
    let variables = &parts.variables;
    check_some(variables, PartsFault::NoVariable)?;
    check_list(variables, variables)?;
    check_list(variables, &parts.groups)?;
    check_state(variables, &parts.init)?;
    check_list(variables, &parts.goal)?;
    check_list(variables, &parts.operators)?;
    check_list(variables, &parts.rules)
}

impl Checkable for Variable {
    ghost checks_of = { λ _. variable_checks };

    fn check_among(&self, variables: &Items<Variable>) -> Result<(), PartsFault> {
        self.name.check_among(variables)?;
        check_layer(self.layer)?;
        check_some(&self.values, PartsFault::BadRange)?;
        check_list(variables, &self.values)
    }
}

fn check_layer(layer: Option<u32>) -> Result<(), PartsFault>
    ensures { result_err result ≡ first_fault (signed_checks layer) }
{
    match layer {
        Some(layer) => check(is_number(layer as usize), PartsFault::BadNumber),
        None => Ok(()),
    }
}

/// A name.
impl Checkable for Items<u8> {
    ghost checks_of = { λ _. name_checks };

    fn check_among(&self, _variables: &Items<Variable>) -> Result<(), PartsFault> {
        check(is_name(self.as_slice()), PartsFault::BadName)
    }
}

/// A mutex group, or the conditions of an operator, an effect or a rule.
impl Checkable for Items<Fact> {
    ghost checks_of = { λ variables. listed TooMany (fact_checks variables) };

    fn check_among(&self, variables: &Items<Variable>) -> Result<(), PartsFault> {
        check_list(variables, self)
    }
}

impl Checkable for Fact {
    ghost checks_of = { fact_checks };

    fn check_among(&self, variables: &Items<Variable>) -> Result<(), PartsFault> {
        check(
            has_value(variables, self.var, self.value),
            PartsFault::BadFact,
        )
    }
}

fn check_state(variables: &Items<Variable>, values: &Items<u32>) -> Result<(), PartsFault>
    ensures { result_err result ≡ first_fault (state_checks variables.now values.now) }
{
    check(values.len() == variables.len(), PartsFault::InitLength)?;
    check(values_in_range(variables, values), PartsFault::BadFact)
}

/// Returns whether each value is in the range of the variable with the same index.
fn values_in_range(variables: &Items<Variable>, values: &Items<u32>) -> bool
    ensures { result ≡ values_in_range variables.now values.now }
{
    let mut pairs = variables.as_slice().iter().zip(values.as_slice());
    pairs.all(|(variable, value)| (*value as usize) < variable.values.len())
}

impl Checkable for Operator {
    ghost checks_of = { operator_checks };

    fn check_among(&self, variables: &Items<Variable>) -> Result<(), PartsFault> {
        self.name.check_among(variables)?;
        check_list(variables, &self.prevail)?;
        check_list(variables, &self.effects)?;
        check(is_number(self.cost as usize), PartsFault::BadNumber)
    }
}

/// An effect or a rule.
impl Checkable for Effect {
    ghost checks_of = { effect_checks };

    fn check_among(&self, variables: &Items<Variable>) -> Result<(), PartsFault> {
        check_list(variables, &self.conditions)?;
        check_change(variables, self.var, self.old, self.new)
    }
}

/// Checks the variable with its old value, if any, and then with its new value.
fn check_change(
    variables: &Items<Variable>,
    var: u32,
    old: Option<u32>,
    new: u32,
) -> Result<(), PartsFault>
    ensures { result_err result ≡ first_fault (change_checks variables.now var old new) }
{
    if let Some(old) = old {
        check(has_value(variables, var, old), PartsFault::BadFact)?;
    }
    check(has_value(variables, var, new), PartsFault::BadFact)
}

/// Returns whether the variable exists and has this value.
pub fn has_value(variables: &Items<Variable>, var: u32, value: u32) -> bool
    ensures { result ≡ spec.has_value variables.now var value }
{
    match variables.get(var as usize) {
        Some(variable) => (value as usize) < variable.values.len(),
        None => false,
    }
}

/// Returns the fault if the list is empty.
fn check_some<T>(items: &Items<T>, fault: PartsFault) -> Result<(), PartsFault>
    ensures { result_err result ≡ first_fault (check (not (length items.now == 0)) fault) }
{
    check(!items.is_empty(), fault)
}

/// Returns whether a file may contain this number: at most 2,147,483,647.
fn is_number(n: usize) -> bool
    ensures { result ≡ is_number n }
{
    n <= i32::MAX as usize
}

/// Returns the fault if `passes` is false.
pub fn check<F: Copy>(passes: bool, fault: F) -> Result<(), F>
    ensures { result_err result ≡ first_fault (check passes fault) }
{
    if passes { Ok(()) } else { Err(fault) }
}
