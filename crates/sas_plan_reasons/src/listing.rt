// The variables whose values a step may have changed.
ghost use Rattle.std.specs.Prelude.{◌≡◌, ◌<◌, ◌≤◌, ◌+◌, ◌++◌, ℕ, [], length, All, Contains, IfOk, IfSome, vec_capacity};
ghost use Rattle.sas_core.specs.Grounded.{effect_at, operator_at};
ghost use Rattle.sas_meaning.specs.Following.{ListsDerived};
ghost use Rattle.sas_meaning.specs.Steps.{Step};
ghost use Rattle.sas_plan_reasons.specs.Noting.{CanList, ListCoversChanges, ListsBelow};

use sas_axioms::{are_changed, part_end};
use sas_core::Grounded;
use sas_meaning::{Layered, State};
use std::alloc::{AllocError, Global};

/// Up to so many effects are listed, and one more for each eighth variable, and as many derived variables.
const FEW: usize = 8;

/// Lists the variables whose values a step may have changed. Only `new` takes memory.
#[derive(Drop)]
pub struct Listing {
    /// Up to how many effects and derived variables are listed. If there are more of one kind, all values are compared.
    few: usize,
    /// The variables that are listed.
    pub vars: Vec<u32>,
}

impl Listing {
    /// Returns a listing for steps of the task.
    pub fn new<T: Grounded>(alloc: Global, task: &Layered<T>) -> Result<Listing, AllocError>
        ensures { IfOk result (CanList task.now) }
    {
        let variables = task.variables() as usize;
        Ok(Listing {
            few: variables / 8 + FEW,
            vars: Vec::with_capacity(alloc, variables + 2 * FEW)?,
        })
    }

    /// Lists the variables whose values a step of this operator may have changed. `derived` has the derived ones, if they are known.
    pub fn list<T: Grounded>(
        &mut self,
        task: &Layered<T>,
        operator: u32,
        derived: Option<&[u32]>,
        before: &State,
        after: &State,
    )
        requires list { CanList task.now self.old }
        requires operator { operator < length task.now.operators }
        requires before { length before.now ≡ length task.now.variables }
        requires step { Step task.now before.now (operator_at task.now operator) after.now }
        requires derived { IfSome derived (λ listed.
            ListsDerived task.now before.now after.now listed.now) }
        ensures list { CanList task.now self.new }
        ensures covers { ListCoversChanges before.now after.now self.new.vars.items }
    {
        self.vars.clear();
        if let Some(derived) = derived {
            if derived.len() <= self.few && task.effects(operator) as usize <= self.few {
                self.list_effects(task, operator);
                self.list_derived(derived);
                return;
            }
        }
        self.list_changed(task.variables(), before.values(), after.values());
    }

    /// Lists the variables of the operator's effects.
    fn list_effects<T: Grounded>(&mut self, task: &Layered<T>, operator: u32)
        requires operator { operator < length task.now.operators }
        requires list { CanList task.now self.old }
        requires few { length (operator_at task.now operator).effects ≤ self.old.few }
        requires empty { self.old.vars.items ≡ [] }
        ensures list { CanList task.now self.new }
        ensures many { length self.new.vars.items
            ≡ length (operator_at task.now operator).effects }
        ensures exist { All (λ (var : ℕ). var < length task.now.variables) self.new.vars.items }
        ensures each { (k : ℕ) → k < length (operator_at task.now operator).effects
            → Contains self.new.vars.items (effect_at (operator_at task.now operator) k).var }
    {
        // By its contract the task is well ranged.
        let task = task.task();
        for effect in 0..task.effects(operator) {
            self.vars
                .push(task.effect_change(operator, effect).var)
                .unwrap();
        }
    }

    /// Adds these derived variables to the list.
    fn list_derived(&mut self, derived: &[u32])
        requires room { length self.old.vars.items + length derived.now
            ≤ vec_capacity self.old.vars }
        ensures vars { self.new.vars.items ≡ self.old.vars.items ++ derived.now }
        ensures room { vec_capacity self.old.vars ≤ vec_capacity self.new.vars }
        ensures rest { self.new ≡ record self.old { vars = self.new.vars } }
    {
        for var in derived {
            self.vars.push(*var).unwrap();
        }
    }

    /// Lists the variables whose values differ. There are so many.
    fn list_changed(&mut self, variables: u32, before: &[u32], after: &[u32])
        requires fit { length after.now ≡ length before.now }
        requires all { variables ≡ length before.now }
        requires room { length before.now ≤ vec_capacity self.old.vars }
        requires empty { self.old.vars.items ≡ [] }
        ensures covers { ListsBelow before.now after.now (length before.now) self.new.vars.items }
        ensures room { vec_capacity self.old.vars ≤ vec_capacity self.new.vars }
        ensures rest { self.new ≡ record self.old { vars = self.new.vars } }
    {
        let mut start = 0;
        while start < variables {
            let end = part_end(start, variables);
            if are_changed(before, after, start as usize, end as usize) {
                self.list_part(before, after, start, end);
            }
            start = end;
        }
    }

    /// Lists the variables from `start` up to `end` whose values differ.
    fn list_part(&mut self, before: &[u32], after: &[u32], start: u32, end: u32)
        requires within { end ≤ length before.now }
        requires fit { length after.now ≡ length before.now }
        requires room { length before.now ≤ vec_capacity self.old.vars }
        requires below { ListsBelow before.now after.now start self.old.vars.items }
        requires ahead { start ≤ end }
        ensures below { ListsBelow before.now after.now end self.new.vars.items }
        ensures room { vec_capacity self.old.vars ≤ vec_capacity self.new.vars }
        ensures rest { self.new ≡ record self.old { vars = self.new.vars } }
    {
        for var in start..end {
            if before[var as usize] != after[var as usize] {
                self.vars.push(var).unwrap();
            }
        }
    }
}
