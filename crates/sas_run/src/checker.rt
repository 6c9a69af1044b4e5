// What checking plans needs beside the task.
ghost use Rattle.std.specs.Prelude.{◌≡◌, IfOk, IfErr};
ghost use Rattle.sas_run.specs.Checkers.{IsChecker};
ghost use Rattle.sas_run.specs.Running.{IsSolution, IsFaultOrMemory};

use crate::choosers::NamedPlan;
use crate::long_chains::LongChains;
use crate::plan_check::{PlanFault, Valid, check};
use crate::stepper::{Stepper, stepper_for};
use sas_core::{Grounded, Stepwise};
use sas_meaning::{Layered, Settle};
use sas_names::Names;
use std::alloc::{AllocError, Global};

/// What checking plans of a task needs beside the task: its operators by name, an evaluator that is ready for it, and memory for a step.
pub struct Checker<E> {
    pub names: Names,
    pub long: LongChains,
    pub stepper: Stepper<E>,
}

impl<E: Drop> Drop for Checker<E> {
    fn drop(self) {
        let Checker {
            names,
            long,
            stepper,
        } = self;
        drop(names);
        drop(long);
        drop(stepper);
    }
}

/// Returns a checker for the task. The evaluator must be ready for it. All memory for the steps is allocated here. If that fails, the
/// evaluator is returned unchanged.
pub fn checker_for<E: Settle<T> + Drop, T: Grounded>(
    alloc: Global,
    layered: &Layered<T>,
    evaluator: E,
) -> Result<Checker<E>, (E, AllocError)>
    requires { E.ready evaluator layered.now }
    ensures checker { IfOk result (IsChecker E.ready layered.now) }
    ensures handed_back { IfErr result (λ e. e.0 ≡ evaluator) }
{
    let names = match Names::new(alloc, layered) {
        Ok(names) => names,
        Err(error) => return Err((evaluator, error)),
    };
    let long = match LongChains::of_task(alloc, layered, &names) {
        Ok(long) => long,
        Err(error) => return Err((evaluator, error)),
    };
    Ok(Checker {
        names,
        long,
        stepper: stepper_for(alloc, layered, evaluator)?,
    })
}

impl<E: Drop> Checker<E> {
    /// Checks whether the plan is valid, like `Runner::check_plan`. `layered` is the task of this checker.
    pub fn check_plan<T: Grounded, P: Stepwise>(
        &mut self,
        alloc: Global,
        layered: &Layered<T>,
        plan: &P,
    ) -> Result<Valid, PlanFault>
    where
        E: Settle<T>,
        requires checker { IsChecker E.ready layered.now self.old }
        ensures checker { IsChecker E.ready layered.now self.new }
        ensures valid { IfOk result (IsSolution layered.now (P.says plan.now)) }
        ensures fault { IfErr result (IsFaultOrMemory layered.now (P.says plan.now)) }
    {
        let firsts = self.names.first_operators(alloc, layered, plan)?;
        let named = NamedPlan {
            task: layered,
            plan,
            firsts: firsts.as_slice(),
            nexts: self.names.next(),
            long: &self.long,
        };
        check(alloc, layered, &mut self.stepper, &named)
    }
}
