// Axiom evaluators, which settle states.
use crate::layered::Layered;
use crate::state::State;
use sas_core::{Fact, Grounded};

/// An axiom evaluator. It settles states of a task: it sets the derived variables to the values that follow from the rules.
pub trait Settle<T: Grounded> {
    ghost use Rattle.std.specs.Prelude.{ℕ, List, ⊤, IfSome};
    ghost use Rattle.sas_core.specs.declared.parts.Parts.{Parts};
    ghost use Rattle.sas_core.specs.Variables.{IsState};
    ghost use Rattle.sas_meaning.specs.Settled.{Settles};
    ghost use Rattle.sas_meaning.specs.Following.{HaveGone, ListsDerived};

    /// The evaluator can settle states of this task.
    ghost ready: { Self → Parts → Type 0 };

    /// This is the state that the evaluator settled last, so `settle_on` can start from it. Evaluators without `settle_on` keep the
    /// default.
    ghost follows: { Self → Parts → List ℕ → Type 0 } = { λ _ _ _. ⊤ };

    /// This list has the derived variables that the last call changed. Evaluators without `changed` keep the default.
    ghost changed: { Self → List ℕ → Type 0 } = { λ _ _. ⊥ };

    /// Settles the state, which must be a state of the task.
    fn settle(&mut self, layered: &Layered<T>, state: &mut State)
        requires ready { ready self.old layered.now }
        requires state { IsState layered.now.variables state.old }
        ensures ready { ready self.new layered.now }
        ensures follows { follows self.new layered.now state.new }
        ensures changed { (listed : List ℕ) → changed self.new listed
            → ListsDerived layered.now state.old state.new listed }
        ensures settles { Settles layered.now state.old state.new };

    /// Settles the state like `settle`. The state must be the one that this evaluator settled last, except that the facts `gone` may
    /// have become false. So an evaluator need only re-evaluate what depends on these facts and on those that replaced them.
    fn settle_on(&mut self, layered: &Layered<T>, gone: &[Fact], state: &mut State)
        requires ready { ready self.old layered.now }
        requires state { IsState layered.now.variables state.old }
        requires follows { (s : List ℕ)
            × follows self.old layered.now s × HaveGone layered.now gone.now s state.old }
        ensures ready { ready self.new layered.now }
        ensures follows { follows self.new layered.now state.new }
        ensures changed { (listed : List ℕ) → changed self.new listed
            → ListsDerived layered.now state.old state.new listed }
        ensures settles { Settles layered.now state.old state.new }
    {
        self.settle(layered, state);
    }

    /// Returns a list of derived variables that has all that the last call changed. Returns `None` if the evaluator doesn't have it, as
    /// when it settled the state from scratch.
    fn changed(&self) -> Option<&[u32]>
        ensures { IfSome result (λ listed. changed self.now listed.now) }
    {
        None
    }
}
