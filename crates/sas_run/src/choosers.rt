// What the steps of a plan mean: by their names, or by numbers.
ghost use Rattle.std.specs.Prelude.{◌≡◌, [], length, slice_index};
ghost use Rattle.sas_core.specs.Stepwise.{step_at};
ghost use Rattle.sas_names.specs.Names.{IsLowestNamed};
ghost use Rattle.sas_run.specs.Choosers.{HaveOperators, IsNumberChoice};
ghost use Rattle.sas_run.specs.Running.{IsChoice};
ghost use Rattle.sas_run.specs.Starts.{IsStart};

use crate::choice::{Choice, is_applicable};
use crate::long_chains::LongChains;
use sas_core::{Grounded, Stepwise};
use sas_meaning::{Layered, State};
use sas_names::existing;

/// Chooses the operators of a plan's steps. Steps are counted from 0.
pub trait Chooser<T: Grounded> {
    ghost use Rattle.std.specs.Prelude.{◌≡◌, ◌<◌, ℕ, List, length};
    ghost use Rattle.sas_core.specs.declared.parts.Parts.{Parts};
    ghost use Rattle.sas_core.specs.Variables.{IsState};
    ghost use Rattle.sas_run.specs.declared.choice.Choice.{Choice};
    ghost use Rattle.sas_run.specs.declared.choice.Choice.TheVariants.{Blocked};
    ghost use Rattle.sas_run.specs.Choosers.{IsPossible};
    ghost use Rattle.sas_run.specs.Starts.{IsStart};

    /// It chooses operators of this task.
    ghost ready: { Self → Parts → Type 0 };

    /// The values of the state in which the first step is made, or none for the initial state.
    ghost starts: { Self → List ℕ };

    /// For how many steps it chooses.
    ghost count: { Self → ℕ };

    /// The plan's cost.
    ghost costs: { Self → ℕ };

    /// What the step means in the state.
    ghost means: { Self → Parts → ℕ → List ℕ → Choice → Type 0 };

    /// Returns the values of the state in which the first step is made, one for each variable. Returns none for the initial state.
    fn start(&self, task: &Layered<T>) -> &[u32]
        requires ready { ready self.now task.now }
        ensures values { result.now ≡ starts self.now }
        ensures start { IsStart task.now result.now };

    /// Returns for how many steps it chooses.
    fn steps(&self) -> usize
        ensures { result ≡ count self.now };

    /// Returns the plan's cost.
    fn cost(&self) -> u64
        ensures { result ≡ costs self.now };

    /// The lowest operator that the step can mean in a state.
    ghost lowest: { Self → Parts → ℕ → ℕ → Type 0 };

    /// Returns what the step means in the state.
    fn choose(&self, task: &Layered<T>, state: &State, step: usize) -> Choice
        requires ready { ready self.now task.now }
        requires step { step < count self.now }
        requires state { IsState task.now.variables state.now }
        ensures means { means self.now task.now step state.now result }
        ensures possible { IsPossible task.now state.now result };

    /// Returns the lowest operator that the step can mean in a state. There must be one.
    fn lowest(&self, task: &Layered<T>, step: usize) -> u32
        requires ready { ready self.now task.now }
        requires step { step < count self.now }
        requires some { (s : List ℕ) × means self.now task.now step s Blocked }
        ensures exists { result < length task.now.operators }
        ensures lowest { lowest self.now task.now step result };
}

/// A plan of a task with the operators of its steps' names, borrowed.
#[derive(Drop)]
pub struct NamedPlan<'f, T: Grounded, P: Stepwise> {
    pub task: &'f Layered<T>,
    pub plan: &'f P,
    /// The lowest operator of the name of each step, or a number that no operator has if there is none.
    pub firsts: &'f [u32],
    /// The next operator of the same name, for each operator of one of these names.
    pub nexts: &'f [Option<u32>],
    /// The long chains of operators of one name.
    pub long: &'f LongChains,
}

/// By name: a step means the lowest applicable operator of its name.
impl<'f, T: Grounded, P: Stepwise> Chooser<T> for NamedPlan<'f, T, P> {
    ghost ready = { λ named p. HaveOperators p (P.says named.plan.now)
        named.firsts.now named.nexts.now named.long.now };

    ghost starts = { λ _. [] };

    ghost count = { λ named. length (P.says named.plan.now).steps };

    ghost costs = { λ named. (P.says named.plan.now).cost };

    ghost means = { λ named p step s. IsChoice p s (step_at (P.says named.plan.now) step) };

    ghost lowest = { λ named p step. IsLowestNamed p (step_at (P.says named.plan.now) step) 0 };

    fn start(&self, _task: &Layered<T>) -> &[u32] {
        &[]
    }

    fn steps(&self) -> usize {
        self.plan.steps()
    }

    fn cost(&self) -> u64 {
        self.plan.cost()
    }

    #[inline(always)]
    fn choose(&self, task: &Layered<T>, state: &State, step: usize) -> Choice {
        let Some(first) = existing(task, self.firsts[step]) else {
            return Choice::Unknown;
        };
        if is_applicable(task, state, first) {
            return Choice::Found(first);
        }
        // The lists are read only here, so that a step of an ordinary plan has more registers.
        match self.long.later_applicable(task, self.nexts, state, first) {
            Some(operator) => Choice::Found(operator),
            None => Choice::Blocked,
        }
    }

    fn lowest(&self, _task: &Layered<T>, step: usize) -> u32 {
        self.firsts[step]
    }
}

/// A plan as the numbers of its operators, its cost, and the state that it starts in.
#[derive(Clone, Copy)]
pub struct NumberedPlan<'n> {
    pub operators: &'n [u32],
    pub cost: u64,
    /// The values of this state, one for each variable, or none for the initial state. Derived variables are computed anew.
    pub start: &'n [u32],
}

/// By number: a step means the operator with its number. No name is looked up.
impl<'n, T: Grounded> Chooser<T> for NumberedPlan<'n> {
    ghost ready = { λ plan p. IsStart p plan.start.now };

    ghost starts = { λ plan. plan.start.now };

    ghost count = { λ plan. length plan.operators.now };

    ghost costs = { λ plan. plan.cost };

    ghost means = { λ plan p step s. IsNumberChoice p s (slice_index plan.operators.now step) };

    ghost lowest = { λ plan p step operator. operator ≡ slice_index plan.operators.now step };

    fn start(&self, _task: &Layered<T>) -> &[u32] {
        self.start
    }

    fn steps(&self) -> usize {
        self.operators.len()
    }

    fn cost(&self) -> u64 {
        self.cost
    }

    #[inline(always)]
    fn choose(&self, task: &Layered<T>, state: &State, step: usize) -> Choice {
        let Some(operator) = existing(task, self.operators[step]) else {
            return Choice::Unknown;
        };
        if is_applicable(task, state, operator) {
            Choice::Found(operator)
        } else {
            Choice::Blocked
        }
    }

    fn lowest(&self, _task: &Layered<T>, step: usize) -> u32 {
        self.operators[step]
    }
}
