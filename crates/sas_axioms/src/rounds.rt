// Settles states in rounds: the rules of a layer are evaluated repeatedly until no value changes.
ghost use Rattle.std.specs.Prelude.{ℕ, ◌<◌, ◌≤◌, length, All, IsTrue, IsFalse, IfSome, IfNone};
ghost use Rattle.sas_core.specs.Grounded.{rule_at};
ghost use Rattle.sas_core.specs.Variables.{IsState};
ghost use Rattle.sas_meaning.specs.Settled.{SameBasic};
ghost use Rattle.sas_meaning.specs.Forced.{OnlyForced, equal_places, HasFired, Changes, SameOff, AtDefault, Occurs};

use crate::by_layers::{ByLayers, settle_by_layers};
use sas_core::{Fact, Grounded};
use sas_meaning::{Layered, Settle, State};

/// An evaluator for any layered task. It processes the layers in ascending order and evaluates the rules of a layer until no value changes.
#[derive(Clone, Copy)]
pub struct Rounds;

impl<T: Grounded> Settle<T> for Rounds {
    ghost ready = { λ _ _. Unit {0} };

    fn settle(&mut self, layered: &Layered<T>, state: &mut State) {
        settle_by_layers(self, layered, state);
    }
}

impl<T: Grounded> ByLayers<T> for Rounds {
    ghost ready = { λ _ _. Unit {0} };

    ghost stands = { λ _ _ _ _. Unit {0} };

    fn begin(&mut self, layered: &Layered<T>, state: &mut State) {
        set_defaults(layered, state);
    }

    fn settle_next(&mut self, layered: &Layered<T>, from: u64, state: &mut State) -> Option<u32> {
        let layer = next_layer(layered, from)?;
        while go_round(layered, layer, state) {}
        Some(layer)
    }
}

/// Sets all derived variables to their defaults.
fn set_defaults<T: Grounded>(layered: &Layered<T>, state: &mut State)
    requires { IsState layered.now.variables state.old }
    ensures state { IsState layered.now.variables state.new }
    ensures basic { SameBasic layered.now state.old state.new }
    ensures default { (layer : ℕ) → AtDefault layered.now layer state.new }
{
    for var in 0..layered.variables() {
        if layered.layer(var).is_some() {
            let value = layered.initial_value(var);
            state.set(Fact { var, value });
        }
    }
}

/// Returns the lowest layer of a variable that is at least `from`, or `None` if there is none.
fn next_layer<T: Grounded>(layered: &Layered<T>, from: u64) -> Option<u32>
    ensures some { IfSome result (λ n. (from ≤ n) × Occurs layered.now n
        × ((m : ℕ) → from ≤ m → Occurs layered.now m → n ≤ m)) }
    ensures none { IfNone result ((m : ℕ) → from ≤ m → Occurs layered.now m → ⊥) }
{
    let mut lowest: Option<u32> = None;
    for var in 0..layered.variables() {
        if let Some(layer) = layered.layer(var) {
            if from <= u64::from(layer) && lowest.is_none_or(|low| layer < low) {
                lowest = Some(layer);
            }
        }
    }
    lowest
}

/// Evaluates each rule of the layer once. Returns whether a value changed.
fn go_round<T: Grounded>(layered: &Layered<T>, layer: u32, state: &mut State) -> bool
    requires state { IsState layered.now.variables state.old }
    requires forced { OnlyForced layered.now layer state.old }
    ensures state { IsState layered.now.variables state.new }
    ensures forced { OnlyForced layered.now layer state.new }
    ensures off { SameOff layered.now layer state.old state.new }
    ensures more { IsTrue result
        → equal_places state.new layered.now.init < equal_places state.old layered.now.init }
    ensures done { IsFalse result → All (HasFired layered.now layer state.new) layered.now.rules }
{
    let task = layered.task();
    let mut changed = false;
    for rule in 0..task.rules() {
        if changes(layered, layer, state, rule) {
            let change = task.rule_change(rule);
            state.set(Fact {
                var: change.var,
                value: change.new,
            });
            changed = true;
        }
    }
    changed
}

/// Returns whether the rule is on the layer, fires, and changes the value of its variable.
#[tactic(auto, using(crate::proofs::RuleChanges::change_within))]
fn changes<T: Grounded>(layered: &Layered<T>, layer: u32, state: &State, rule: u32) -> bool
    requires state { IsState layered.now.variables state.now }
    requires rule { rule < length layered.now.rules }
    ensures yes { IsTrue result → Changes layered.now layer state.now (rule_at layered.now rule) }
    ensures no { IsFalse result → HasFired layered.now layer state.now (rule_at layered.now rule) }
{
    let task = layered.task();
    let change = task.rule_change(rule);
    task.layer(change.var) == Some(layer)
        && change.new != task.initial_value(change.var)
        && change.new != state.value(change.var)
        && state.holds_all(task.rule_conditions(rule))
}
