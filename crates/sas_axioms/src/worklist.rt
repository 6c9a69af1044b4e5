// Settles states by counters: a rule is evaluated only when the number of its open conditions changes.
ghost use Rattle.std.specs.Prelude.{◌≡◌, false, IfOk};
ghost use Rattle.sas_core.specs.Variables.{IsState};
ghost use Rattle.sas_meaning.specs.Settled.{Settles};
ghost use Rattle.sas_axioms.specs.Worklist.{IsReadyFor};
ghost use Rattle.sas_axioms.specs.Following.{IsFollowed};

use crate::by_layers::{ByLayers, settle_by_layers};
use crate::firing::LayerSettler;
use crate::layer_rules::{LayerRule, first_rules};
use sas_core::{Fact, Grounded};
use sas_meaning::{Layered, Settle, State, VariableSpan, derived_spans};
use std::alloc::{AllocError, Global};

/// An evaluator for the states of one layered task. It keeps counts of the previous state to settle the next one faster, but it can settle
/// any state of the task. `new` allocates all memory, so `settle` allocates none. The memory depends on the numbers of variables, rules and
/// conditions, but not on the numbers of the layers.
pub struct Worklist {
    /// The derived variables.
    derived: Vec<VariableSpan>,
    /// The rules that can fire, without those that never fire first on their layer, in ascending order of their layers.
    rules: Vec<LayerRule>,
    /// The index of the first rule in `rules` whose layer isn't settled yet.
    next: usize,
    /// The evaluator of single layers.
    firing: LayerSettler,
    /// Whether the last state was settled by an update. Then the evaluator of layers lists what changed.
    updated: bool,
}

impl Drop for Worklist {
    fn drop(self) {
        let Worklist {
            derived,
            rules,
            next: _,
            firing,
            updated: _,
        } = self;
        drop(derived);
        drop(rules);
        drop(firing);
    }
}

impl Worklist {
    /// Returns an evaluator for this task.
    pub fn new<T: Grounded>(alloc: Global, layered: &Layered<T>) -> Result<Worklist, AllocError>
        ensures { IfOk result (λ w. IsReadyFor layered.now w) }
    {
        let rules = first_rules(alloc, layered)?;
        let derived = derived_spans(alloc, layered)?;
        let share = share_of(layered, derived.as_slice());
        Ok(Worklist {
            derived,
            rules,
            next: 0,
            firing: LayerSettler::new(alloc, layered, share)?,
            updated: false,
        })
    }

    /// Settles the state layer by layer, whatever state was settled last.
    fn settle_anew<T: Grounded>(&mut self, layered: &Layered<T>, state: &mut State)
        requires ready { IsReadyFor layered.now self.old }
        requires state { IsState layered.now.variables state.old }
        ensures ready { IsReadyFor layered.now self.new }
        ensures follows { IsFollowed layered.now state.new self.new.firing.work }
        ensures anew { self.new.updated ≡ false }
        ensures settles { Settles layered.now state.old state.new }
    {
        settle_by_layers(self, layered, state);
        self.updated = false;
    }
}

/// Returns how many list entries an update may process. Settling a state from scratch goes through the derived variables and the rules,
/// mostly in order. An update jumps between them, so it may process half as many. From scratch, all variables are compared, too. An entry
/// takes as long as sixteen of them.
fn share_of<T: Grounded>(layered: &Layered<T>, derived: &[VariableSpan]) -> usize {
    let settled = derived
        .iter()
        .fold(0usize, |sum, span| sum.saturating_add(span.size()));
    let fired = settled.saturating_add(layered.rules() as usize) / 2;
    fired.saturating_add(layered.variables() as usize / 16)
}

impl<T: Grounded> Settle<T> for Worklist {
    ghost use Rattle.std.specs.Prelude.{◌≡◌, IsTrue};
    ghost use Rattle.sas_axioms.specs.Worklist.{IsReadyFor};
    ghost use Rattle.sas_axioms.specs.Following.{IsFollowed};

    ghost ready = { λ w p. IsReadyFor p w };

    ghost follows = { λ w p s. IsFollowed p s w.firing.work };

    ghost changed = { λ w listed. IsTrue w.updated × (listed ≡ w.firing.changed.items) };

    fn settle(&mut self, layered: &Layered<T>, state: &mut State) {
        self.settle_anew(layered, state);
    }

    fn settle_on(&mut self, layered: &Layered<T>, gone: &[Fact], state: &mut State) {
        match self.firing.follow(layered, gone, state) {
            Ok(()) => self.updated = true,
            Err(_) => self.settle_anew(layered, state),
        }
    }

    fn changed(&self) -> Option<&[u32]> {
        if self.updated {
            Some(self.firing.changed.as_slice())
        } else {
            None
        }
    }
}

impl<T: Grounded> ByLayers<T> for Worklist {
    ghost use Rattle.sas_axioms.specs.Worklist.{IsReadyFor, IsReadyFrom};
    ghost use Rattle.sas_axioms.specs.Following.{IsFollowed};

    ghost ready = { λ w p. IsReadyFor p w };

    ghost stands = { λ w p layer s. IsReadyFrom p layer s w };

    ghost follows = { λ w p s. IsFollowed p s w.firing.work };

    fn begin(&mut self, layered: &Layered<T>, state: &mut State) {
        self.firing.begin(layered, self.derived.as_slice(), state);
        self.next = 0;
    }

    fn settle_next(&mut self, layered: &Layered<T>, _from: u64, state: &mut State) -> Option<u32> {
        let rules = self.rules.as_slice();
        let ready = self.firing.next_ready(rules, self.next)?;
        let layer = rules[ready].layer;
        self.next = self.firing.settle_layer(layered, rules, ready, state);
        Some(layer)
    }
}
