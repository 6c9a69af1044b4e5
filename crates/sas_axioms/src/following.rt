// Updates a settled state after some basic variables have changed. Only rules affected by the change are re-evaluated.
//
// The update processes layer by layer, in two phases. First it resets each variable whose source (the rule that set it) no longer holds to
// its default, then each variable whose source depended on that one, and so on. The remaining variables have sources that hold, and no
// source depends on its own variable, so no two rules support only each other. Then the rules that hold set their variables, including
// those that were reset.
ghost use Rattle.std.specs.Prelude.{◌≡◌, ◌≢◌, ◌+◌, ◌<◌, ◌≤◌, ℕ, List, [], ◌∷◌, ◌++◌, length, OnOk, OnErr, IsTrue, IsFalse, slice_index, slice_set};
ghost use Rattle.sas_core.specs.Grounded.{rule_at};
ghost use Rattle.sas_core.specs.Variables.{IsState};
ghost use Rattle.sas_meaning.specs.Following.{HaveGone, ListsDerived};
ghost use Rattle.sas_meaning.specs.Forced.{SameOff};
ghost use Rattle.sas_meaning.specs.Settled.{SameBasic, differs};
ghost use Rattle.sas_axioms.specs.Agenda.{IsEmpty, IsOnAgenda, IsOrdered, AreMadeReady, work_left};
ghost use Rattle.sas_axioms.specs.Conditions.{AreCounted};
ghost use Rattle.sas_axioms.specs.LayerRules.{IsRuleOn};
ghost use Rattle.sas_axioms.specs.Sources.{SameSourcesOff};
ghost use Rattle.sas_axioms.specs.Following.{SameWork, KeepsRoom, AddsChanged, NotesMore, CountsTo, CountsChange};
ghost use Rattle.sas_axioms.specs.Following.{IsBetween, IsFalling, IsRising, HasRisen, IsFollowed};

use crate::agenda::{Agenda, OverBudget, push_within};
use crate::conditions::{ValueChange, count_after};
use crate::firing::Work;
use crate::indexed_rules::IndexedRules;
use crate::layer_rules::{LayerRule, firing_layer};
use sas_core::{Fact, Grounded};
use sas_meaning::{Layered, State};

/// Updates the counters of the rules with conditions on the variables of `gone`, which are facts that may have become false.
fn count_gone<T: Grounded>(
    indexed: &IndexedRules<'_, '_, T>,
    gone: &[Fact],
    work: &mut Work,
    state: &State,
) -> Result<(), OverBudget>
    requires state { IsState indexed.now.variables state.now }
    requires follows { (s : List ℕ)
        × IsFollowed indexed.now s work.old × HaveGone indexed.now gone.now s state.now }
    requires empty { IsEmpty work.old.agenda }
    ensures same { SameWork work.old work.new }
    ensures between { OnOk result ((s : List ℕ) × IsBetween indexed.now s 0 state.now work.new) }
{
    for fact in gone {
        let moved = ValueChange {
            former: fact.value,
            value: state.value(fact.var),
        };
        if moved.former != moved.value {
            recount(indexed, fact.var, moved, work)?;
        }
    }
    Ok(())
}

/// Updates the state, which must be settled except that the facts `gone` may have become false. Settles the layers with noted rules, one by
/// one. Lists the variables that it sets in `changed`.
pub fn settle_gone<T: Grounded>(
    indexed: &IndexedRules<'_, '_, T>,
    gone: &[Fact],
    work: &mut Work,
    changed: &mut Vec<u32>,
    state: &mut State,
) -> Result<(), OverBudget>
    requires state { IsState indexed.now.variables state.old }
    requires follows { (s : List ℕ)
        × IsFollowed indexed.now s work.old × HaveGone indexed.now gone.now s state.old }
    ensures state { IsState indexed.now.variables state.new }
    ensures basic { SameBasic indexed.now state.old state.new }
    ensures stack { work.new.stack ≡ work.old.stack }
    ensures one_each { length work.new.counters ≡ length work.old.counters }
    ensures sources { length work.new.sources ≡ length work.old.sources }
    ensures followed { OnOk result (IsFollowed indexed.now state.new work.new) }
    ensures changed { OnOk result
        (ListsDerived indexed.now state.old state.new changed.new.items) }
{
    work.agenda.begin();
    changed.clear();
    count_gone(indexed, gone, work, state)?;
    while let Some(layer) = work.agenda.lowest() {
        work.layer = layer;
        fall(indexed, work, changed, state)?;
        rise(indexed, work, changed, state)?;
    }
    Ok(())
}

/// Resets the variables of the layer whose source no longer holds. Then the rules that may set them again are ready.
fn fall<T: Grounded>(
    indexed: &IndexedRules<'_, '_, T>,
    work: &mut Work,
    changed: &mut Vec<u32>,
    state: &mut State,
) -> Result<(), OverBudget>
    requires falling { (s : List ℕ) × IsFalling indexed.now s state.old work.old }
    requires noted { (rule : ℕ) × IsOnAgenda work.old.agenda work.old.layer rule }
    ensures same { SameWork work.old work.new }
    ensures state { IsState indexed.now.variables state.new }
    ensures off { SameOff indexed.now work.old.layer state.old state.new }
    ensures rising { OnOk result ((s : List ℕ) → IsFalling indexed.now s state.old work.old
        → IsRising indexed.now s state.new work.new) }
    ensures left { OnOk result (work_left work.new.agenda < work_left work.old.agenda) }
    ensures changed { OnOk result
        (AddsChanged indexed.now state.old state.new changed.old.items changed.new.items) }
{
    let layered = indexed.layered;
    while let Some(rule) = work.agenda.take(work.layer) {
        if has_lost(layered, rule, work, state) {
            let var = layered.rule_change(rule).var;
            let value = layered.initial_value(var);
            make_ready(indexed.setting.get(var as usize), &mut work.agenda)?;
            set_to(indexed, Fact { var, value }, work, changed, state)?;
        } else {
            work.agenda.make_ready(rule)?;
        }
    }
    Ok(())
}

/// Returns whether the rule is the source of its variable's value but no longer holds.
#[tactic(auto, using(crate::proofs::RuleChanges::change_within, crate::proofs::RuleChanges::differs_read))]
fn has_lost<T: Grounded>(layered: &Layered<T>, rule: u32, work: &Work, state: &State) -> bool
    requires rule { (layer : ℕ) × IsRuleOn layered.now layer rule }
    requires state { IsState layered.now.variables state.now }
    requires counters { length work.now.counters ≡ length layered.now.rules }
    requires places { length work.now.sources ≡ length layered.now.variables }
    ensures yes { IsTrue result
        → IsTrue (differs layered.now state.now (rule_at layered.now rule).var) }
    ensures no { IsFalse result
        → slice_index work.now.sources (rule_at layered.now rule).var ≡ rule
        → IsTrue (differs layered.now state.now (rule_at layered.now rule).var)
        → slice_index work.now.counters rule ≡ 0 }
{
    let task = layered.task();
    let var = task.rule_change(rule).var;
    work.counters.as_slice()[rule as usize] != 0
        && work.sources.as_slice()[var as usize] == rule
        && state.value(var) != task.initial_value(var)
}

/// Makes all these rules ready.
fn make_ready(rules: &[u32], agenda: &mut Agenda) -> Result<(), OverBudget>
    ensures { OnOk result (AreMadeReady rules.now agenda.old agenda.new) }
{
    agenda.pay(rules.len())?;
    for rule in rules {
        agenda.make_ready(*rule)?;
    }
    Ok(())
}

/// Lets the ready and noted rules of the layer that hold set their variables, including rules that start to hold because of this.
fn rise<T: Grounded>(
    indexed: &IndexedRules<'_, '_, T>,
    work: &mut Work,
    changed: &mut Vec<u32>,
    state: &mut State,
) -> Result<(), OverBudget>
    requires { (s : List ℕ) × IsRising indexed.now s state.old work.old }
    ensures stands { KeepsRoom work.old work.new }
    ensures state { IsState indexed.now.variables state.new }
    ensures off { SameOff indexed.now work.old.layer state.old state.new }
    ensures risen { OnOk result ((s : List ℕ) → IsRising indexed.now s state.old work.old
        → HasRisen indexed.now s state.new work.new) }
    ensures sources { SameSourcesOff indexed.now work.old.layer work.old.sources work.new.sources }
    ensures left { OnOk result (work_left work.new.agenda ≤ work_left work.old.agenda) }
    ensures changed { OnOk result
        (AddsChanged indexed.now state.old state.new changed.old.items changed.new.items) }
{
    let layered = indexed.layered;
    while let Some(rule) = work.agenda.next(work.layer) {
        if has_to_set(layered, rule, work, state) {
            let change = layered.rule_change(rule);
            let fact = Fact {
                var: change.var,
                value: change.new,
            };
            set_to(indexed, fact, work, changed, state)?;
            work.sources.set(change.var as usize, rule);
        }
    }
    Ok(())
}

/// Returns whether the rule holds but its variable doesn't have its value.
#[tactic(auto, using(crate::proofs::RuleChanges::change_within))]
fn has_to_set<T: Grounded>(layered: &Layered<T>, rule: u32, work: &Work, state: &State) -> bool
    requires rule { (layer : ℕ) × IsRuleOn layered.now layer rule }
    requires state { IsState layered.now.variables state.now }
    requires counters { length work.now.counters ≡ length layered.now.rules }
    ensures holds { IsTrue result → slice_index work.now.counters rule ≡ 0 }
    ensures other { IsTrue result
        → slice_index state.now (rule_at layered.now rule).var ≢ (rule_at layered.now rule).new }
    ensures no { IsFalse result → slice_index work.now.counters rule ≡ 0
        → slice_index state.now (rule_at layered.now rule).var ≡ (rule_at layered.now rule).new }
{
    let task = layered.task();
    let change = task.rule_change(rule);
    work.counters.as_slice()[rule as usize] == 0 && state.value(change.var) != change.new
}

/// Updates the counters of the rules with conditions on the variable for another value, and sets it to that value. Adds it to `changed`. On
/// `Err`, the state is unchanged.
fn set_to<T: Grounded>(
    indexed: &IndexedRules<'_, '_, T>,
    fact: Fact,
    work: &mut Work,
    changed: &mut Vec<u32>,
    state: &mut State,
) -> Result<(), OverBudget>
    requires counts { AreCounted indexed.now state.old work.old.counters }
    requires ordered { IsOrdered work.old.agenda }
    requires exists { fact.var < length indexed.now.variables }
    requires other { slice_index state.old fact.var ≢ fact.value }
    ensures state { OnOk result (state.new ≡ slice_set state.old fact.var fact.value) }
    ensures unchanged { OnErr result (state.new ≡ state.old) }
    ensures same { SameWork work.old work.new }
    ensures moves { OnOk result
        (CountsChange indexed.now fact.var state.old work.old state.new work.new) }
    ensures changed { OnOk result (changed.new.items ≡ changed.old.items ++ fact.var ∷ []) }
{
    let moved = ValueChange {
        former: state.value(fact.var),
        value: fact.value,
    };
    recount(indexed, fact.var, moved, work)?;
    push_within(changed, fact.var)?;
    state.set(fact);
    Ok(())
}

/// Updates the counters of the rules with conditions on the variable. Notes the rules that begin or cease to hold.
#[tactic(auto, using(crate::proofs::CountingEntries::counted_none))]
fn recount<T: Grounded>(
    indexed: &IndexedRules<'_, '_, T>,
    var: u32,
    moved: ValueChange,
    work: &mut Work,
) -> Result<(), OverBudget>
    requires exists { var < length indexed.now.variables }
    requires differ { moved.former ≢ moved.value }
    requires counts { (s : List ℕ)
        × AreCounted indexed.now s work.old.counters × (slice_index s var ≡ moved.former) }
    requires ordered { IsOrdered work.old.agenda }
    ensures same { SameWork work.old work.new }
    ensures moves { OnOk result ((s : List ℕ) → AreCounted indexed.now s work.old.counters
        → slice_index s var ≡ moved.former
        → CountsChange indexed.now var s work.old (slice_set s var moved.value) work.new) }
{
    let waiting = indexed.waiting.get(var as usize);
    work.agenda.pay(waiting.len())?;
    for condition in waiting {
        if let Some(count) = count_after(*condition, moved, &work.counters) {
            count_to(indexed.layered, condition.rule, count, work)?;
        }
    }
    Ok(())
}

/// Sets the counter of the rule. If the rule can fire and begins or ceases to hold, notes it.
fn count_to<T: Grounded>(
    layered: &Layered<T>,
    rule: u32,
    count: u32,
    work: &mut Work,
) -> Result<(), OverBudget>
    requires exists { rule < length layered.now.rules }
    requires counters { length work.old.counters ≡ length layered.now.rules }
    requires ordered { IsOrdered work.old.agenda }
    ensures same { SameWork work.old work.new }
    ensures counts { OnOk result (CountsTo layered.now rule count work.old work.new) }
{
    let held = work.counters.as_slice()[rule as usize] == 0;
    work.counters.set(rule as usize, count);
    if held != (count == 0) {
        if let Some(layer) = firing_layer(layered, rule) {
            work.agenda.note(LayerRule { layer, rule })?;
        }
    }
    Ok(())
}
