// States of a task.
ghost use Rattle.std.specs.Prelude.{◌≡◌, ◌-◌, ◌<◌, ◌↔◌, List, ℕ, length, All, slice_index, slice_set, IfOk, IsErrOf, IsTrue, IsFalse};
ghost use Rattle.sas_core.specs.declared.parts.Fact.{Fact};
ghost use Rattle.sas_core.specs.Variables.{IsState};
ghost use Rattle.sas_meaning.specs.States.{Holds, AllHold};
ghost use Rattle.sas_meaning.specs.DerivedVariables.{AreSpansOf, CopiesSpans};

use sas_core::{Fact, Grounded, Items};
use std::alloc::{AllocError, Global};
use std::marker::Model;
use std::mem::replace;

/// A state: a value for each variable. In a contract it is the list of these values.
#[derive(Debug, PartialEq, Eq, Drop)]
pub struct State {
    values: Items<u32>,
}

impl Model for State {
    ghost Value = { List ℕ };

    ghost view = { λ s. s.values };

    ghost inverse = { λ values. record { values = values } };
}

/// Variables one after another: those from `start` up to but not including `end`.
#[derive(Clone, Copy)]
pub struct VariableSpan {
    pub start: u32,
    pub end: u32,
}

impl VariableSpan {
    /// Returns the number of variables.
    pub fn size(&self) -> usize
        ensures { result ≡ self.now.end - self.now.start }
    {
        self.end.saturating_sub(self.start) as usize
    }
}

/// Why a list of values is not a state.
#[derive(Clone, Copy, Debug, PartialEq, Eq)]
pub enum StateFault {
    /// The number of values is wrong, or a value is out of range.
    BadState,
    /// Out of memory.
    Memory,
}

impl From<AllocError> for StateFault {
    ghost use Rattle.sas_meaning.specs.declared.state.StateFault.TheVariants.{Memory};

    ghost from_gives = { λ _ e. e ≡ Memory };

    fn from(_error: AllocError) -> StateFault {
        StateFault::Memory
    }
}

impl State {
    /// Returns the state with these values if there is one for each variable of the task, each in its range. Otherwise returns `BadState`.
    /// The values are checked before memory is allocated.
    pub fn of<T: Grounded>(alloc: Global, task: &T, values: &[u32]) -> Result<State, StateFault>
        ensures values { IfOk result (λ s. s ≡ values.now) }
        ensures fits { IfOk result (λ s. IsState (T.says task.now).variables s) }
        ensures bad { IsErrOf result StateFault.BadState
            ↔ (IsState (T.says task.now).variables values.now → ⊥) }
    {
        if !fits(task, values) {
            return Err(StateFault::BadState);
        }
        Ok(State {
            values: Items::from_vec(Vec::from_slice(alloc, values)?),
        })
    }

    /// Returns the state in the state section, in which each derived variable has its default.
    pub fn of_section<T: Grounded>(alloc: Global, task: &T) -> Result<State, AllocError>
        ensures { IfOk result (λ s. s ≡ (T.says task.now).init) }
    {
        let mut values = Items::new(alloc);
        for var in 0..task.variables() {
            values.push(task.initial_value(var))?;
        }
        Ok(State { values })
    }

    /// Returns the values of all variables, in order.
    pub fn values(&self) -> &[u32]
        ensures { result.now ≡ self.now }
    {
        self.values.as_slice()
    }

    /// Returns the value of the variable.
    pub fn value(&self, var: u32) -> u32
        requires { var < length self.now }
        ensures { result ≡ slice_index self.now var }
    {
        self.values.as_slice()[var as usize]
    }

    /// Returns whether the fact holds: its variable exists and has this value.
    pub fn holds(&self, fact: Fact) -> bool
        ensures { IsTrue result
            ↔ (fact.var < length self.now) × Holds (slice_index self.now) fact }
    {
        match self.values.get(fact.var as usize) {
            Some(value) => *value == fact.value,
            None => false,
        }
    }

    /// Returns whether all facts hold.
    pub fn holds_all(&self, facts: &[Fact]) -> bool
        requires { All (λ (f : Fact). f.var < length self.now) facts.now }
        ensures { IsTrue result ↔ AllHold (slice_index self.now) facts.now }
    {
        facts.iter().all(|fact| self.value(fact.var) == fact.value)
    }

    /// Makes the fact true.
    pub fn set(&mut self, fact: Fact)
        requires { fact.var < length self.old }
        ensures { self.new ≡ slice_set self.old fact.var fact.value }
    {
        self.values.set(fact.var as usize, fact.value);
    }

    /// Sets the variables in these spans to their values in another state of the same task. `alloc` isn't asked for memory.
    pub fn copy_spans(&mut self, alloc: Global, other: &State, spans: &[VariableSpan])
        requires known { length other.now ≡ length self.old }
        requires fit { AreSpansOf (length self.old) spans.now }
        ensures { CopiesSpans spans.now other.now self.old self.new }
    {
        let mut values = replace(&mut self.values, Items::new(alloc)).into_vec();
        copy_spans(values.as_mut_slice(), other.values(), spans);
        self.values = Items::from_vec(values);
    }
}

/// Sets the items in these spans to those of `other`.
fn copy_spans(values: &mut [u32], other: &[u32], spans: &[VariableSpan])
    requires known { length other.now ≡ length values.old }
    requires fit { AreSpansOf (length values.old) spans.now }
    ensures { CopiesSpans spans.now other.now values.old values.new }
{
    for span in spans {
        let start = span.start as usize;
        let end = span.end as usize;
        values[start..end].copy_from_slice(&other[start..end]);
    }
}

/// Returns whether there is one value for each variable of the task, each in its range.
fn fits<T: Grounded>(task: &T, values: &[u32]) -> bool
    ensures yes { IsTrue result → IsState (T.says task.now).variables values.now }
    ensures no { IsFalse result → IsState (T.says task.now).variables values.now → ⊥ }
{
    values.len() == task.variables() as usize && are_in_range(task, values)
}

/// Returns whether each value is in the range of its variable.
fn are_in_range<T: Grounded>(task: &T, values: &[u32]) -> bool
    requires { length values.now ≡ length (T.says task.now).variables }
    ensures yes { IsTrue result → IsState (T.says task.now).variables values.now }
    ensures no { IsFalse result → IsState (T.says task.now).variables values.now → ⊥ }
{
    for var in 0..task.variables() {
        if values[var as usize] >= task.range(var) {
            return false;
        }
    }
    true
}
