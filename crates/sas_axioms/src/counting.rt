// Counters of open (false) conditions, which are updated when a variable changes.
ghost use Rattle.std.specs.Prelude.{◌≡◌, ◌<◌, ◌≤◌, ◌^◌, ℕ, All, IfOk, IsFalse, length, slice_index, slice_set};
ghost use Rattle.sas_core.specs.declared.parts.Parts.{Parts};
ghost use Rattle.sas_axioms.specs.Conditions.{AreCounted, IsCounted, open_conditions};

use crate::conditions::{RuleCondition, ValueChange, count_after, index_of_all};
use sas_core::{Fact, Grounded, Items};
use sas_flat::Lists;
use sas_meaning::{Layered, State};
use std::alloc::{AllocError, Global};

/// Values of the variables, and for each rule the number of its conditions that are open (false) under these values.
#[derive(Drop)]
pub struct ConditionCounts {
    /// For each variable, the conditions on it. Includes conditions on basic variables and on lower layers.
    pub index: Lists<RuleCondition>,
    /// The values.
    pub values: State,
    /// For each rule, the number of its open conditions.
    pub counters: Items<u32>,
}

impl ConditionCounts {
    /// Returns the counters for the values in the state section.
    pub fn new<T: Grounded>(
        alloc: Global,
        layered: &Layered<T>,
    ) -> Result<ConditionCounts, AllocError>
        ensures values { IfOk result (λ counted. counted.values ≡ layered.now.init) }
        ensures counts { IfOk result (λ counted. IsCounted layered.now counted) }
    {
        let task = layered.task();
        let index = index_of_all(alloc, layered)?;
        let values = State::of_section(alloc, task)?;
        let counters = open_counters(alloc, layered, &values)?;
        Ok(ConditionCounts {
            index,
            values,
            counters,
        })
    }

    /// Sets all variables to their values in the state, and updates the counters. Few variables change in a step of a plan, so it first
    /// looks for parts of the states that differ.
    pub fn follow<T: Grounded>(&mut self, layered: &Layered<T>, state: &State)
        requires state { length state.now ≡ length layered.now.variables }
        requires counts { IsCounted layered.now self.old }
        ensures values { self.new.values ≡ state.now }
        ensures counts { IsCounted layered.now self.new }
    {
        let variables = layered.variables();
        let mut start = 0;
        while start < variables {
            let end = part_end(start, variables);
            self.follow_part(state, start, end);
            start = end;
        }
    }

    /// Sets the variables from `start` up to but not including `end` to their values in the state, and updates the counters.
    fn follow_part(&mut self, state: &State, start: u32, end: u32)
        requires within { end ≤ length state.now }
        requires known { length self.old.values ≡ length state.now }
        requires counts { (p : Parts) × IsCounted p self.old }
        ensures known { length self.new.values ≡ length state.now }
        ensures counts { (p : Parts) → IsCounted p self.old → IsCounted p self.new }
        ensures part { (k : ℕ) → start ≤ k → k < end
            → slice_index self.new.values k ≡ slice_index state.now k }
        ensures before { (k : ℕ) → k < start
            → slice_index self.new.values k ≡ slice_index self.old.values k }
    {
        if !are_changed(
            self.values.values(),
            state.values(),
            start as usize,
            end as usize,
        ) {
            return;
        }
        for var in start..end {
            self.recount(Fact {
                var,
                value: state.value(var),
            });
        }
    }

    /// Sets the variable to the value, and updates the counters of the rules with a condition on it.
    #[tactic(auto, using(crate::proofs::CountingEntries::counters_before))]
    fn recount(&mut self, fact: Fact)
        requires var { fact.var < length self.old.values }
        requires counts { (p : Parts) × IsCounted p self.old }
        ensures values { self.new.values ≡ slice_set self.old.values fact.var fact.value }
        ensures counts { (p : Parts) → IsCounted p self.old → IsCounted p self.new }
    {
        let moved = ValueChange {
            former: self.values.value(fact.var),
            value: fact.value,
        };
        self.values.set(fact);
        if moved.former == moved.value {
            return;
        }
        let counters = &mut self.counters;
        for condition in self.index.get(fact.var as usize) {
            if let Some(count) = count_after(*condition, moved, counters) {
                counters.set(condition.rule as usize, count);
            }
        }
    }
}

/// How many variables are compared at once.
const PART: u32 = 64;

/// Returns the end of the part of the variables that begins with `start`. Values are compared part by part.
pub fn part_end(start: u32, variables: u32) -> u32
    requires { start < variables }
    ensures after { start < result }
    ensures within { result ≤ variables }
{
    if variables - start > PART {
        start + PART
    } else {
        variables
    }
}

/// Returns whether the lists differ from place `start` up to place `end`.
pub fn are_changed(former: &[u32], values: &[u32], start: usize, end: usize) -> bool
    requires former { end ≤ length former.now }
    requires values { end ≤ length values.now }
    ensures { IsFalse result → (k : ℕ) → start ≤ k → k < end
        → slice_index former.now k ≡ slice_index values.now k }
{
    let mut changed = false;
    for place in start..end {
        if former[place] != values[place] {
            changed = true;
        }
    }
    changed
}

/// Returns for each rule the number of its conditions that are open under these values.
#[tactic(auto, using(crate::proofs::RuleChanges::conditions_within, crate::proofs::RuleChanges::conditions_few))]
fn open_counters<T: Grounded>(
    alloc: Global,
    layered: &Layered<T>,
    values: &State,
) -> Result<Items<u32>, AllocError>
    requires known { length values.now ≡ length layered.now.variables }
    ensures { IfOk result (λ counters. AreCounted layered.now values.now counters) }
{
    let task = layered.task();
    let mut counters = Items::new(alloc);
    for rule in 0..task.rules() {
        counters.push(open_of(values, task.rule_conditions(rule)))?;
    }
    Ok(counters)
}

/// Returns the number of conditions that don't hold.
fn open_of(state: &State, conditions: &[Fact]) -> u32
    requires exist { All (λ (c : Fact). c.var < length state.now) conditions.now }
    requires few { length conditions.now < 2 ^ 31 }
    ensures { result ≡ open_conditions (slice_index state.now) conditions.now }
{
    let mut open = 0;
    for condition in conditions {
        if state.value(condition.var) != condition.value {
            open += 1;
        }
    }
    open
}
