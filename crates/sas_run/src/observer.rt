// Who is told of the steps of a plan.
ghost use Rattle.std.specs.Prelude.{◌≡◌, ◌+◌, ◌≤◌, ◌++◌, length, vec_capacity};

use sas_core::Grounded;
use sas_meaning::{Layered, State};

/// Is told of each step of a plan when it was made.
pub trait Observer<T: Grounded> {
    ghost use Rattle.std.specs.Prelude.{◌∷◌, ◌++◌, ℕ, List, [], IfSome};
    ghost use Rattle.sas_core.specs.declared.parts.Parts.{Parts};
    ghost use Rattle.sas_run.specs.Observing.{IsTold, ListsLast};

    /// It can be told of the step with this number, which this operator made.
    ghost admits: { Self → Parts → ℕ → ℕ → Type 0 };

    /// What it was before the first step, and what it is after the steps of these operators, from the values of a start.
    ghost sees: { Parts → List ℕ → Self → Self → List ℕ → Type 0 };

    /// Notes a step, counted from 1. `derived` has the derived variables that it changed, if they are known. `state` is the state after
    /// it.
    fn observe(
        &mut self,
        task: &Layered<T>,
        step: usize,
        operator: u32,
        derived: Option<&[u32]>,
        state: &State,
    )
        requires told { (start : List ℕ) × (first : Self) × (before : List ℕ)
            × IsTold admits sees task.now start first before self.old step operator state.now
            × IfSome derived (λ listed. ListsLast task.now start before state.now listed.now) }
        ensures sees { (start : List ℕ) (first : Self) (before : List ℕ)
            → IsTold admits sees task.now start first before self.old step operator state.now
            → sees task.now start first self.new (before ++ operator ∷ []) };
}

/// Notes nothing of the steps that it is told of.
#[derive(Drop)]
pub struct NotesNothing;

impl<T: Grounded> Observer<T> for NotesNothing {
    ghost use Rattle.std.specs.Prelude.{⊤};

    ghost admits = { λ _ _ _ _. ⊤ };

    ghost sees = { λ _ _ _ _ _. ⊤ };

    #[inline(always)]
    fn observe(
        &mut self,
        _task: &Layered<T>,
        _step: usize,
        _operator: u32,
        _derived: Option<&[u32]>,
        _state: &State,
    ) {}
}

/// A list notes the operator of each step. It must have room for them.
impl<T: Grounded> Observer<T> for Vec<u32> {
    ghost admits = { λ list p step operator. length list.items + step ≤ vec_capacity list };

    ghost sees = { λ p start first now operators. (now.items ≡ first.items ++ operators)
        × (vec_capacity first ≤ vec_capacity now) };

    #[inline(always)]
    fn observe(
        &mut self,
        _task: &Layered<T>,
        _step: usize,
        operator: u32,
        _derived: Option<&[u32]>,
        _state: &State,
    ) {
        self.push(operator).unwrap();
    }
}
