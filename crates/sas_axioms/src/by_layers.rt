// Settles a state by settling its layers one by one.
ghost use Rattle.sas_core.specs.Variables.{IsState};
ghost use Rattle.sas_meaning.specs.Settled.{Settles};

use sas_core::Grounded;
use sas_meaning::{Layered, State};

/// An evaluator that settles the layers of a task one by one, from the lowest to the highest.
pub trait ByLayers<T: Grounded> {
    ghost use Rattle.std.specs.Prelude.{◌≡◌, ◌+◌, ◌≤◌, ℕ, List, ⊤, IfSome, IfNone};
    ghost use Rattle.sas_core.specs.declared.parts.Parts.{Parts};
    ghost use Rattle.sas_core.specs.Variables.{IsState};
    ghost use Rattle.sas_meaning.specs.Settled.{SameBasic, IsSettled, IsSettledAt};
    ghost use Rattle.sas_meaning.specs.Forced.{AtDefault};
    ghost use Rattle.sas_axioms.specs.ByLayers.{SettlesNext};

    /// The evaluator can settle states of this task.
    ghost ready: { Self → Parts → Type 0 };

    /// The evaluator can continue with a state with these values, in which this layer and the higher ones aren't settled yet.
    ghost stands: { Self → Parts → ℕ → List ℕ → Type 0 };

    /// This is the state that the evaluator settled last, so that it can update it.
    ghost follows: { Self → Parts → List ℕ → Type 0 } = { λ _ _ _. ⊤ };

    /// Sets the derived variables to their defaults.
    fn begin(&mut self, layered: &Layered<T>, state: &mut State)
        requires ready { ready self.old layered.now }
        requires state { IsState layered.now.variables state.old }
        ensures stands { stands self.new layered.now 0 state.new }
        ensures state { IsState layered.now.variables state.new }
        ensures basic { SameBasic layered.now state.old state.new }
        ensures default { (layer : ℕ) → AtDefault layered.now layer state.new };

    /// Settles one of the remaining layers and returns it. It may skip layers that are settled already. Returns `None` if all remaining
    /// layers are.
    fn settle_next(&mut self, layered: &Layered<T>, from: u64, state: &mut State) -> Option<u32>
        requires stands { stands self.old layered.now from state.old }
        requires state { IsState layered.now.variables state.old }
        requires default { (layer : ℕ) → from ≤ layer → AtDefault layered.now layer state.old }
        ensures stands { IfSome result (λ layer.
            stands self.new layered.now (layer + 1) state.new) }
        ensures settles { IfSome result (λ layer.
            SettlesNext layered.now from state.old state.new layer) }
        ensures ready { IfNone result (ready self.new layered.now) }
        ensures follows { IfNone result
            ((IsSettled layered.now state.new) → follows self.new layered.now state.new) }
        ensures same { IfNone result (state.new ≡ state.old) }
        ensures settled { IfNone result ((layer : ℕ) → from ≤ layer
            → IsSettledAt layered.now layer state.new) };
}

/// Settles the state, layer by layer.
pub fn settle_by_layers<T: Grounded, E: ByLayers<T>>(
    evaluator: &mut E,
    layered: &Layered<T>,
    state: &mut State,
)
    requires ready { E.ready evaluator.old layered.now }
    requires state { IsState layered.now.variables state.old }
    ensures ready { E.ready evaluator.new layered.now }
    ensures follows { E.follows evaluator.new layered.now state.new }
    ensures settles { Settles layered.now state.old state.new }
{
    // The contract of `task` ensures that the task is well ranged and layered.
    let _ = layered.task();
    evaluator.begin(layered, state);
    let mut from: u64 = 0;
    while let Some(layer) = evaluator.settle_next(layered, from, state) {
        from = u64::from(layer) + 1;
    }
}
