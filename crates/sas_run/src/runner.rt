// The runner, which makes the steps of plans.
ghost use Rattle.std.specs.Prelude.{◌≡◌, ◌<◌, ◌↔◌, length, IfOk, IfErr, None, IsTrue};
ghost use Rattle.sas_core.specs.Grounded.{operator_at};
ghost use Rattle.sas_core.specs.Variables.{IsState};
ghost use Rattle.sas_meaning.specs.InitialStates.{IsInitial};
ghost use Rattle.sas_run.specs.Plans.{IsApplicable};
ghost use Rattle.sas_run.specs.Running.{IsChoice, IsFaultOrMemory, IsGoalAnswer, IsSolution, Steps};

use crate::checker::{Checker, checker_for};
use crate::choice::{Choice, is_applicable};
use crate::goal_and_cost::first_missed;
use crate::plan_check::{PlanFault, Valid};
use crate::stepper::{initial_of, step_on};
use crate::steps::{StepFault, missed_precondition};
use sas_core::{Grounded, Stepwise, Task};
use sas_meaning::{Layered, Settle, State};
use std::alloc::{AllocError, Global};
use std::marker::Model;

/// Makes steps of a layered task, with an evaluator that is ready for the task. In a contract its value is the parts of the task.
pub struct Runner<'a, E: Settle<T> + Drop, T: Grounded = Task> {
    layered: &'a Layered<T>,
    checker: Checker<E>,
}

impl<'a, E: Settle<T> + Drop, T: Grounded> Drop for Runner<'a, E, T> {
    fn drop(self) {
        let Runner {
            layered: _,
            checker,
        } = self;
        drop(checker);
    }
}

impl<'a, E: Settle<T> + Drop, T: Grounded> Model for Runner<'a, E, T> {
    ghost use Rattle.sas_core.specs.declared.parts.Parts.{Parts};
    ghost use Rattle.sas_run.specs.Checkers.{IsChecker};

    ghost Value = { Parts };

    ghost view = { λ r. r.layered.now };

    ghost invariant = { λ r. IsChecker E.ready r.layered.now r.checker };
}

impl<'a, E: Settle<T> + Drop, T: Grounded> Runner<'a, E, T> {
    /// Returns a runner for the task. The evaluator must be ready for it. All memory for the steps is allocated here. If that fails, the
    /// evaluator is returned unchanged.
    pub fn new(
        alloc: Global,
        layered: &'a Layered<T>,
        evaluator: E,
    ) -> Result<Runner<'a, E, T>, (E, AllocError)>
        requires { E.ready evaluator layered.now }
        ensures task { IfOk result (λ r. r ≡ layered.now) }
        ensures handed_back { IfErr result (λ e. e.0 ≡ evaluator) }
    {
        Ok(Runner {
            layered,
            checker: checker_for(alloc, layered, evaluator)?,
        })
    }

    /// Returns the initial state: the values of the state section, with the derived variables computed from the basic ones.
    pub fn initial(&mut self, alloc: Global) -> Result<State, AllocError>
        ensures initial { IfOk result (λ s. IsInitial self.old s) }
        ensures same { self.new ≡ self.old }
    {
        initial_of(alloc, self.layered, &mut self.checker.stepper)
    }

    /// Returns whether the operator's preconditions hold in the state.
    pub fn applicable(&self, state: &State, operator: u32) -> bool
        requires operator { operator < length self.now.operators }
        requires state { IsState self.now.variables state.now }
        ensures { IsTrue result ↔ IsApplicable state.now (operator_at self.now operator) }
    {
        is_applicable(self.layered, state, operator)
    }

    /// Returns the operator that the name means in the state: the lowest-numbered applicable one of exactly this name.
    pub fn choose(&self, state: &State, name: &[u8]) -> Choice
        requires { IsState self.now.variables state.now }
        ensures { IsChoice self.now state.now name.now result }
    {
        let names = &self.checker.names;
        let long = &self.checker.long;
        let Some(first) = names.first(self.layered, name) else {
            return Choice::Unknown;
        };
        match long.first_applicable(self.layered, names.next(), state, first) {
            Some(operator) => Choice::Found(operator),
            None => Choice::Blocked,
        }
    }

    /// Makes the operator's step in the state. If the operator has no step there, leaves the state unchanged and returns the reason.
    pub fn step(&mut self, state: &mut State, operator: u32) -> Result<(), StepFault>
        requires operator { operator < length self.old.operators }
        requires state { IsState self.old.variables state.old }
        ensures steps { Steps self.old state.old operator state.new result }
        ensures same { self.new ≡ self.old }
    {
        match missed_precondition(self.layered, operator, state) {
            Some(fact) => Err(StepFault::NotApplicable { fact }),
            None => step_on(self.layered, &mut self.checker.stepper, operator, state),
        }
    }

    /// Returns the index of the first fact of the goal that doesn't hold, or `None` if the goal holds.
    pub fn goal(&self, state: &State) -> Option<u32>
        requires { IsState self.now.variables state.now }
        ensures { IsGoalAnswer state.now self.now.goal result }
    {
        match first_missed(state, self.layered.task().goal()) {
            Some(index) => Some(index as u32),
            None => None,
        }
    }

    /// Checks whether the plan is valid. Returns its operators and its cost, or its fault. A step means the lowest-numbered applicable
    /// operator of its name. All memory is allocated before the first step.
    pub fn check_plan<P: Stepwise>(&mut self, alloc: Global, plan: &P) -> Result<Valid, PlanFault>
        ensures valid { IfOk result (IsSolution self.old (P.says plan.now)) }
        ensures fault { IfErr result (IsFaultOrMemory self.old (P.says plan.now)) }
        ensures same { self.new ≡ self.old }
    {
        self.checker.check_plan(alloc, self.layered, plan)
    }

    /// Returns the task.
    pub fn layered(&self) -> &'a Layered<T>
        ensures { result.now ≡ self.now }
    {
        self.layered
    }
}
