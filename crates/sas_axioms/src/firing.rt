// Settles one layer by counters: each rule counts its open conditions, and fires when none is left.
ghost use Rattle.std.specs.Prelude.{◌≡◌, ◌≢◌, ℕ, ◌<◌, ◌≤◌, [], ◌∷◌, ◌++◌, List, length, All, IfOk, OnOk, IfSome, IfNone, IsTrue, IsFalse, slice_index, slice_set};
ghost use Rattle.sas_core.specs.Grounded.{rule_at};
ghost use Rattle.sas_core.specs.Variables.{IsState};
ghost use Rattle.sas_meaning.specs.DerivedVariables.{AreDerivedSpans};
ghost use Rattle.sas_meaning.specs.Forced.{AtDefault};
ghost use Rattle.sas_meaning.specs.Following.{HaveGone, ListsDerived};
ghost use Rattle.sas_meaning.specs.Settled.{SameBasic};
ghost use Rattle.sas_axioms.specs.ByLayers.{SettlesLayer};
ghost use Rattle.sas_axioms.specs.declared.layer_rules.LayerRule.{LayerRule};
ghost use Rattle.sas_axioms.specs.LayerRules.{IsRuleOn, IsLayerSpan, AreReadyFrom, AreWaiting, layer_at};
ghost use Rattle.sas_axioms.specs.Conditions.{AreCounted};
ghost use Rattle.sas_axioms.specs.Sources.{AreGiven, SameSourcesOff};
ghost use Rattle.sas_axioms.specs.Following.{IsFollowed};
ghost use Rattle.sas_axioms.specs.Worklist.{WorkHasRoom, IsAtRest, IsAtWork, WorkGoesOn, IsFiringReady, left_to_do, with_source};

use crate::agenda::{Agenda, OverBudget};
use crate::conditions::{ValueChange, count_after};
use crate::counting::ConditionCounts;
use crate::following::settle_gone;
use crate::indexed_rules::IndexedRules;
use crate::layer_rules::{LayerRule, rules_of_variables};
use sas_core::{Fact, Grounded, Items};
use sas_flat::Lists;
use sas_meaning::{Layered, State, VariableSpan};
use std::alloc::{AllocError, Global};
use std::mem::replace;

/// The data for settling a layer.
pub struct Work {
    /// The layer.
    pub layer: u32,
    /// For each rule, the number of its open conditions.
    pub counters: Items<u32>,
    /// Variables that were set to the value of their rules. The counters of the rules that wait for them haven't been updated yet.
    pub stack: Vec<u32>,
    /// For each derived variable that differs from its default, its source: the rule that set it.
    pub sources: Items<u32>,
    /// The rules to be re-evaluated when a settled state is updated.
    pub agenda: Agenda,
}

impl Drop for Work {
    fn drop(self) {
        let Work {
            layer: _,
            counters,
            stack,
            sources,
            agenda,
        } = self;
        drop(counters);
        drop(stack);
        drop(sources);
        drop(agenda);
    }
}

impl Work {
    /// Returns the data before the first layer, with this limit on the work of an update. Allocates all memory that will be needed.
    fn new<T: Grounded>(
        alloc: Global,
        layered: &Layered<T>,
        share: usize,
    ) -> Result<Work, AllocError>
        ensures room { IfOk result (λ work. WorkHasRoom layered.now work) }
        ensures empty { IfOk result (λ work. work.stack.items ≡ []) }
    {
        Ok(Work {
            layer: 0,
            counters: Items::from_vec(vec![in alloc; 0u32; layered.rules() as usize]?),
            stack: Vec::with_capacity(alloc, layered.variables() as usize)?,
            sources: Items::from_vec(vec![in alloc; 0u32; layered.variables() as usize]?),
            agenda: Agenda::new(alloc, share)?,
        })
    }
}

/// Settles the layers of a task, one at a time.
#[derive(Drop)]
pub struct LayerSettler {
    /// Makes the empty list that takes the place of values or counters while they are set.
    alloc: Global,
    /// The counters with which the settling of a state begins: those for its basic variables and the defaults of the derived ones.
    pub counted: ConditionCounts,
    /// The rules of each derived variable.
    rules_of: Lists<u32>,
    /// The data for settling a layer.
    work: Work,
    /// The variables that the last update set.
    pub changed: Vec<u32>,
}

impl LayerSettler {
    /// Returns an evaluator for the task. `share` is the number of list entries that an update may process. Allocates all memory that will
    /// be needed.
    pub fn new<T: Grounded>(
        alloc: Global,
        layered: &Layered<T>,
        share: usize,
    ) -> Result<LayerSettler, AllocError>
        ensures { IfOk result (λ firing. IsFiringReady layered.now firing) }
    {
        let work = Work::new(alloc, layered, share)?;
        Ok(LayerSettler {
            alloc,
            counted: ConditionCounts::new(alloc, layered)?,
            rules_of: rules_of_variables(alloc, layered)?,
            work,
            changed: Vec::with_capacity(alloc, share)?,
        })
    }

    /// Sets the derived variables, which are those in the spans, to their defaults, and all counters to those for this state. Must be called
    /// before the lowest layer is settled.
    pub fn begin<T: Grounded>(
        &mut self,
        layered: &Layered<T>,
        derived: &[VariableSpan],
        state: &mut State,
    )
        requires prepared { IsFiringReady layered.now self.old }
        requires derived { AreDerivedSpans layered.now derived.now }
        requires state { IsState layered.now.variables state.old }
        ensures prepared { IsFiringReady layered.now self.new }
        ensures state { IsState layered.now.variables state.new }
        ensures basic { SameBasic layered.now state.old state.new }
        ensures default { (layer : ℕ) → AtDefault layered.now layer state.new }
        ensures counts { AreCounted layered.now state.new self.new.work.counters }
    {
        state.copy_spans(self.alloc, &self.counted.values, derived);
        self.counted.follow(layered, state);
        let mut counters = replace(&mut self.work.counters, Items::new(self.alloc)).into_vec();
        counters.copy_from_slice(self.counted.counters.as_slice());
        self.work.counters = Items::from_vec(counters);
    }

    /// Returns the index of the first rule from index `start` on that has no open conditions.
    pub fn next_ready(&self, rules: &[LayerRule], start: usize) -> Option<usize>
        requires { All (λ (r : LayerRule). r.rule < length self.now.work.counters) rules.now }
        ensures some { IfSome result (λ ready. (start ≤ ready) × (ready < length rules.now)
            × AreWaiting self.now.work.counters rules.now start ready) }
        ensures none { IfNone result
            (AreWaiting self.now.work.counters rules.now start (length rules.now)) }
    {
        let counters = self.work.counters.as_slice();
        for index in start..rules.len() {
            if counters[rules[index].rule as usize] == 0 {
                return Some(index);
            }
        }
        None
    }

    /// Settles the layer of the rule at index `start`, which is its first rule without open conditions. All variables of the layer must
    /// have their defaults. Returns the index of the first rule of a higher layer.
    pub fn settle_layer<T: Grounded>(
        &mut self,
        layered: &Layered<T>,
        rules: &[LayerRule],
        start: usize,
        state: &mut State,
    ) -> usize
        requires prepared { IsFiringReady layered.now self.old }
        requires counts { AreCounted layered.now state.old self.old.work.counters }
        requires rules { AreReadyFrom layered.now start (layer_at rules.now start)
            self.old.work.counters rules.now }
        requires state { IsState layered.now.variables state.old }
        requires default { AtDefault layered.now (layer_at rules.now start) state.old }
        ensures prepared { IsFiringReady layered.now self.new }
        ensures settles { SettlesLayer layered.now (layer_at rules.now start) state.old state.new }
        ensures counts { AreCounted layered.now state.new self.new.work.counters }
        ensures given { AreGiven layered.now (layer_at rules.now start) state.new
            self.new.work.sources }
        ensures sources { SameSourcesOff layered.now (layer_at rules.now start)
            self.old.work.sources self.new.work.sources }
        ensures end { IsLayerSpan rules.now start (layer_at rules.now start) result }
    {
        self.work.layer = rules[start].layer;
        let indexed = IndexedRules {
            layered,
            waiting: &self.counted.index,
            setting: &self.rules_of,
        };
        fire_ready(&indexed, rules, start, &mut self.work, state)
    }

    /// Updates the state, which must be settled except that the facts `gone` may have become false. Gives up if the update takes too much
    /// work. Lists the variables that it sets in `changed`.
    pub fn follow<T: Grounded>(
        &mut self,
        layered: &Layered<T>,
        gone: &[Fact],
        state: &mut State,
    ) -> Result<(), OverBudget>
        requires prepared { IsFiringReady layered.now self.old }
        requires state { IsState layered.now.variables state.old }
        requires follows { (s : List ℕ)
            × IsFollowed layered.now s self.old.work × HaveGone layered.now gone.now s state.old }
        ensures prepared { IsFiringReady layered.now self.new }
        ensures state { IsState layered.now.variables state.new }
        ensures basic { SameBasic layered.now state.old state.new }
        ensures followed { OnOk result (IsFollowed layered.now state.new self.new.work) }
        ensures changed { OnOk result
            (ListsDerived layered.now state.old state.new self.new.changed.items) }
    {
        let indexed = IndexedRules {
            layered,
            waiting: &self.counted.index,
            setting: &self.rules_of,
        };
        let followed = settle_gone(&indexed, gone, &mut self.work, &mut self.changed, state);
        self.work.agenda.end(followed);
        followed
    }
}

/// Settles the layer by firing its rules that have no open conditions. The first of them is at index `start`. Returns the index after the
/// last rule of the layer.
fn fire_ready<T: Grounded>(
    indexed: &IndexedRules<'_, '_, T>,
    rules: &[LayerRule],
    start: usize,
    work: &mut Work,
    state: &mut State,
) -> usize
    requires layer { work.old.layer ≡ layer_at rules.now start }
    requires rules { AreReadyFrom indexed.now start work.old.layer work.old.counters rules.now }
    requires at_rest { IsAtRest indexed.now state.old work.old }
    ensures at_rest { IsAtRest indexed.now state.new work.new }
    ensures settles { SettlesLayer indexed.now work.old.layer state.old state.new }
    ensures goes_on { WorkGoesOn indexed.now state.old work.old state.new work.new }
    ensures end { IsLayerSpan rules.now start work.old.layer result }
{
    let mut next = start;
    while next < rules.len() && rules[next].layer == work.layer {
        let rule = rules[next].rule;
        if work.counters.as_slice()[rule as usize] == 0 {
            fire_on(indexed, rule, work, state);
        }
        next += 1;
    }
    next
}

/// Fires the rule, which is on the layer and has no open conditions, unless its variable has its new value already. Then fires the rules of
/// the layer that have no open conditions any more, until there is none.
fn fire_on<T: Grounded>(
    indexed: &IndexedRules<'_, '_, T>,
    rule: u32,
    work: &mut Work,
    state: &mut State,
)
    requires rule { IsRuleOn indexed.now work.old.layer rule }
    requires none_open { slice_index work.old.counters rule ≡ 0 }
    requires at_rest { IsAtRest indexed.now state.old work.old }
    ensures at_rest { IsAtRest indexed.now state.new work.new }
    ensures goes_on { WorkGoesOn indexed.now state.old work.old state.new work.new }
    ensures fired { slice_index state.new (rule_at indexed.now rule).var
        ≡ (rule_at indexed.now rule).new }
{
    let change = indexed.layered.rule_change(rule);
    if state.value(change.var) == change.new {
        return;
    }
    let mut var = fire(indexed.layered, rule, work, state);
    loop {
        release(indexed, var, work, state);
        let Some(top) = work.stack.pop() else {
            return;
        };
        var = top;
    }
}

/// Sets the variable of the rule to its new value, with the rule as its source. Returns the variable.
#[tactic(auto, using(crate::proofs::RuleChanges::change_within))]
fn fire<T: Grounded>(layered: &Layered<T>, rule: u32, work: &mut Work, state: &mut State) -> u32
    requires rule { rule < length layered.now.rules }
    requires state { length state.old ≡ length layered.now.variables }
    requires sources { length work.old.sources ≡ length layered.now.variables }
    ensures var { result ≡ (rule_at layered.now rule).var }
    ensures state { state.new ≡ slice_set state.old result (rule_at layered.now rule).new }
    ensures work { work.new ≡ with_source work.old result rule }
{
    let change = layered.task().rule_change(rule);
    state.set(Fact {
        var: change.var,
        value: change.new,
    });
    work.sources.set(change.var as usize, rule);
    change.var
}

/// Updates the counters of the rules with conditions on the variable, which has been set. Fires the rules of the layer whose counter
/// becomes 0, and pushes their variables on the stack.
fn release<T: Grounded>(
    indexed: &IndexedRules<'_, '_, T>,
    var: u32,
    work: &mut Work,
    state: &mut State,
)
    requires { IsAtWork indexed.now state.old (work.old.stack.items ++ var ∷ []) work.old }
    ensures at_work { IsAtWork indexed.now state.new work.new.stack.items work.new }
    ensures goes_on { WorkGoesOn indexed.now state.old work.old state.new work.new }
    ensures left { left_to_do indexed.now state.new work.new.stack.items
        ≤ left_to_do indexed.now state.old work.old.stack.items }
{
    let moved = ValueChange {
        former: indexed.layered.initial_value(var),
        value: state.value(var),
    };
    for waiting in indexed.waiting.get(var as usize) {
        let condition = *waiting;
        if let Some(count) = count_after(condition, moved, &work.counters) {
            work.counters.set(condition.rule as usize, count);
            if has_to_fire(indexed.layered, work.layer, condition.rule, count, state) {
                let fired = fire(indexed.layered, condition.rule, work, state);
                work.stack.push(fired).unwrap();
            }
        }
    }
}

/// Returns whether a rule that can fire has to set its variable: it is on the layer and has no open conditions, and the variable doesn't
/// have its new value yet. `count` is the number of its open conditions.
#[tactic(auto, using(crate::proofs::RuleChanges::change_within))]
fn has_to_fire<T: Grounded>(
    layered: &Layered<T>,
    layer: u32,
    rule: u32,
    count: u32,
    state: &State,
) -> bool
    requires rule { (its : ℕ) × IsRuleOn layered.now its rule }
    requires state { IsState layered.now.variables state.now }
    ensures none { IsTrue result → count ≡ 0 }
    ensures on { IsTrue result → IsRuleOn layered.now layer rule }
    ensures other { IsTrue result
        → slice_index state.now (rule_at layered.now rule).var ≢ (rule_at layered.now rule).new }
    ensures no { IsFalse result → count ≡ 0 → IsRuleOn layered.now layer rule
        → slice_index state.now (rule_at layered.now rule).var ≡ (rule_at layered.now rule).new }
{
    if count != 0 {
        return false;
    }
    let task = layered.task();
    let change = task.rule_change(rule);
    state.value(change.var) != change.new && task.layer(change.var) == Some(layer)
}
