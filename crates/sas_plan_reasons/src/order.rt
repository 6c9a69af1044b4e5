// The order of derived values: the rules that give a settled state its derived values, each after those on which it rests.
ghost use Rattle.std.specs.Prelude.{◌≡◌, ◌<◌, ◌≤◌, [], length, All, IfOk, OnOk, slice_index};
ghost use Rattle.sas_core.specs.declared.parts.Fact.{Fact};
ghost use Rattle.sas_core.specs.Variables.{IsState};
ghost use Rattle.sas_meaning.specs.Settled.{IsSettled};
ghost use Rattle.sas_plan_reasons.specs.Origins.{open_with, AreOpenAtFirst, CanMeetAll, MeetsAll, Meets, work_left, IsDerivedOrder, IsOrderSoFar, IsNext};

use crate::origins::requires_rules;
use sas_axioms::{RuleCondition, index_of_all};
use sas_core::{Fact, Grounded};
use sas_flat::Lists;
use sas_meaning::{Layered, State};
use std::alloc::{AllocError, Global};
use std::cmp::Reverse;
use std::collections::BinaryHeap;

/// The rules that give a settled state its derived values.
#[derive(Drop)]
pub struct DerivedOrder {
    /// The rules, in order.
    pub rules: Vec<u32>,
    /// For each variable, its rule in the order.
    pub givers: Vec<Option<u32>>,
}

/// For each rule, how many of its conditions are open: they fail, or need a rule that isn't in the order yet.
#[derive(Drop)]
struct OpenConditions {
    counts: Vec<usize>,
    /// The rules that can fire and have no open conditions, until they are looked at.
    ready: BinaryHeap<Reverse<u32>>,
}

/// The order so far, and what serves to find the next rule.
#[derive(Drop)]
struct OrderSoFar {
    order: DerivedOrder,
    /// For each variable, the conditions on it.
    requiring: Lists<RuleCondition>,
    open: OpenConditions,
}

/// Returns the order of derived values in a settled state. Of the rules that can come next, it takes the lowest. The time is linear in the
/// number of variables, rules and conditions, but for the logarithm of the heap.
pub fn order_of<T: Grounded>(
    alloc: Global,
    task: &Layered<T>,
    state: &State,
) -> Result<DerivedOrder, AllocError>
    requires state { IsState task.now.variables state.now }
    requires settled { IsSettled task.now state.now }
    ensures { IfOk result (IsDerivedOrder task.now state.now) }
{
    let mut so_far = OrderSoFar::new(alloc, task, state)?;
    so_far.finish(task, state)?;
    Ok(so_far.order)
}

impl OrderSoFar {
    /// Returns the empty order.
    fn new<T: Grounded>(
        alloc: Global,
        layered: &Layered<T>,
        state: &State,
    ) -> Result<OrderSoFar, AllocError>
        requires state { IsState layered.now.variables state.now }
        requires settled { IsSettled layered.now state.now }
        ensures { IfOk result (IsOrderSoFar layered.now state.now) }
    {
        let task = layered.task();
        Ok(OrderSoFar {
            order: DerivedOrder {
                rules: Vec::new(alloc),
                givers: vec![in alloc; None; task.variables() as usize]?,
            },
            requiring: index_of_all(alloc, layered)?,
            open: OpenConditions::new(alloc, layered, state)?,
        })
    }

    /// Adds rules until none can be added.
    fn finish<T: Grounded>(&mut self, task: &Layered<T>, state: &State) -> Result<(), AllocError>
        requires state { IsState task.now.variables state.now }
        requires so_far { IsOrderSoFar task.now state.now self.old }
        ensures { OnOk result (IsDerivedOrder task.now state.now self.new.order) }
    {
        while let Some(next) = self.open.ready.pop() {
            self.add(task, state, next.0)?;
        }
        Ok(())
    }

    /// Adds the rule, which has no open conditions, unless its variable has one already.
    #[tactic(auto, using(sas_axioms::proofs::RuleChanges::change_within))]
    fn add<T: Grounded>(
        &mut self,
        layered: &Layered<T>,
        state: &State,
        rule: u32,
    ) -> Result<(), AllocError>
        requires state { IsState layered.now.variables state.now }
        requires next { IsNext layered.now state.now rule self.old }
        ensures so_far { OnOk result (IsOrderSoFar layered.now state.now self.new) }
        ensures left { OnOk result (work_left self.new.open ≤ work_left self.old.open) }
    {
        let var = layered.task().rule_change(rule).var;
        if self.order.givers[var as usize].is_some() {
            return Ok(());
        }
        self.order.rules.push(rule)?;
        self.order.givers[var as usize] = Some(rule);
        let requiring = self.requiring.get(var as usize);
        self.open.meet_all(requiring, state.value(var))
    }
}

impl OpenConditions {
    /// Returns the open conditions for the empty order.
    fn new<T: Grounded>(
        alloc: Global,
        layered: &Layered<T>,
        state: &State,
    ) -> Result<OpenConditions, AllocError>
        requires state { IsState layered.now.variables state.now }
        ensures { IfOk result (AreOpenAtFirst layered.now state.now) }
    {
        let task = layered.task();
        let mut open = OpenConditions {
            counts: Vec::new(alloc),
            ready: BinaryHeap::new(alloc),
        };
        for rule in 0..task.rules() {
            let count = open_at_first(layered, state, task.rule_conditions(rule));
            open.counts.push(count)?;
            let change = task.rule_change(rule);
            if count == 0 && change.new != task.initial_value(change.var) {
                open.ready.push(Reverse(rule))?;
            }
        }
        Ok(open)
    }

    /// Closes those of these conditions on a variable that are on this value.
    fn meet_all(&mut self, requiring: &[RuleCondition], value: u32) -> Result<(), AllocError>
        requires { CanMeetAll requiring.now value self.old }
        ensures { OnOk result (MeetsAll requiring.now value self.old self.new) }
    {
        for condition in requiring {
            if condition.value == value {
                self.meet(condition.rule)?;
            }
        }
        Ok(())
    }

    /// Closes a condition of the rule.
    fn meet(&mut self, rule: u32) -> Result<(), AllocError>
        requires exists { rule < length self.old.counts.items }
        requires some { 0 < slice_index self.old.counts.items rule }
        ensures { OnOk result (Meets rule self.old self.new) }
    {
        let count = self.counts[rule as usize] - 1;
        self.counts[rule as usize] = count;
        if count == 0 {
            self.ready.push(Reverse(rule))?;
        }
        Ok(())
    }
}

/// Returns how many of the conditions are open for the empty order.
fn open_at_first<T: Grounded>(task: &Layered<T>, state: &State, conditions: &[Fact]) -> usize
    requires task { All (λ (c : Fact). c.var < length task.now.variables) conditions.now }
    requires state { All (λ (c : Fact). c.var < length state.now) conditions.now }
    ensures { result ≡ open_with task.now state.now [] conditions.now }
{
    let mut open = 0;
    for condition in conditions {
        if state.value(condition.var) != condition.value || requires_rules(task, *condition) {
            open += 1;
        }
    }
    open
}
