// The operators whose names occur in one plan.
ghost use Rattle.std.specs.Prelude.{◌≡◌, ℕ, List, IfOk, None, slice_index_or};
ghost use Rattle.sas_names.specs.Chains.{AreChains, AreStepOperators};
ghost use Rattle.sas_names.specs.Nameless.{nameless_steps};
ghost use Rattle.sas_names.specs.Names.{AreFirsts};
ghost use Rattle.sas_names.specs.StepNames.{AreStepNames};

use crate::names::{Names, existing};
use crate::step_names::StepNames;
use sas_core::{Grounded, Stepwise};
use std::alloc::{AllocError, Global};

/// The operators whose names occur in one plan.
pub struct StepOperators {
    /// The lowest operator of the name of each step, or a number that no operator has if there is none.
    pub firsts: Vec<u32>,
    /// The next operator of the same name, for each operator of one of these names.
    pub nexts: Vec<Option<u32>>,
}

impl Drop for StepOperators {
    fn drop(self) {
        let StepOperators { firsts, nexts } = self;
        drop(firsts);
        drop(nexts);
    }
}

impl StepOperators {
    /// Finds the operators whose names occur in the plan. For a long plan (`deserves_table`), a table of all operators' names is faster than
    /// one of the steps' names.
    pub fn new<T: Grounded, P: Stepwise>(
        alloc: Global,
        task: &T,
        plan: &P,
    ) -> Result<StepOperators, AllocError>
        ensures { IfOk result (λ o. AreStepOperators (T.says task.now) (P.says plan.now).steps
            o.firsts.items o.nexts.items) }
    {
        if deserves_table(task, plan) {
            StepOperators::by_operator_names(alloc, task, plan)
        } else {
            StepOperators::by_step_names(alloc, task, plan)
        }
    }

    /// Looks up the names of the plan's steps among those of the operators.
    fn by_operator_names<T: Grounded, P: Stepwise>(
        alloc: Global,
        task: &T,
        plan: &P,
    ) -> Result<StepOperators, AllocError>
        ensures { IfOk result (λ o. AreStepOperators (T.says task.now) (P.says plan.now).steps
            o.firsts.items o.nexts.items) }
    {
        let names = Names::new(alloc, task)?;
        let firsts = names.first_operators(alloc, task, plan)?;
        Ok(StepOperators {
            firsts,
            nexts: names.into_next(),
        })
    }

    /// Looks up the names of the operators among those of the plan's steps.
    fn by_step_names<T: Grounded, P: Stepwise>(
        alloc: Global,
        task: &T,
        plan: &P,
    ) -> Result<StepOperators, AllocError>
        ensures { IfOk result (λ o. AreStepOperators (T.says task.now) (P.says plan.now).steps
            o.firsts.items o.nexts.items) }
    {
        let names = StepNames::new(alloc, plan)?;
        let mut found = StepOperators::of_names(alloc, task, plan, &names)?;
        for step in 0..plan.steps() {
            found.firsts[step] = found.firsts[names.of_steps[step]];
        }
        Ok(found)
    }

    /// Finds the operators of these names: `firsts` has the lowest operator of a name at the name's number. Visits the operators from last
    /// to first, so the lowest operator of a name is stored last.
    fn of_names<T: Grounded, P: Stepwise>(
        alloc: Global,
        task: &T,
        plan: &P,
        names: &StepNames,
    ) -> Result<StepOperators, AllocError>
        requires { AreStepNames (P.says plan.now).steps names.now }
        ensures { IfOk result (AreChains (T.says task.now) (P.says plan.now).steps names.now) }
    {
        let operators = task.operators();
        let mut firsts = vec![in alloc; operators; plan.steps()]?;
        let mut nexts = vec![in alloc; None; operators as usize]?;
        let mut operator = operators;
        while operator > 0 {
            operator -= 1;
            if let Some(number) = names.number(plan, task.name(operator)) {
                nexts[operator as usize] = existing(task, firsts[number]);
                firsts[number] = operator;
            }
        }
        Ok(StepOperators { firsts, nexts })
    }
}

/// Returns how many of the steps name no operator. `firsts` has the lowest operator of the name of each step, as `StepOperators` has it.
pub fn nameless<T: Grounded>(task: &T, firsts: &[u32]) -> usize
    ensures { (steps : List (List ℕ)) → AreFirsts (T.says task.now) steps firsts.now
        → result ≡ nameless_steps (T.says task.now) steps }
{
    let operators = task.operators();
    firsts.iter().filter(|first| **first >= operators).count()
}

/// Returns whether the plan has at least half as many steps as the task has operators. Then building a table of all operators' names takes
/// no longer than making the steps.
fn deserves_table<T: Grounded, P: Stepwise>(task: &T, plan: &P) -> bool {
    plan.steps() >= task.operators() as usize / 2
}

/// Returns the entry of an operator in the list: the next operator of the same name. `None` if the list is too short.
pub fn next_in(nexts: &[Option<u32>], operator: u32) -> Option<u32>
    ensures { result ≡ slice_index_or nexts.now operator None }
{
    match nexts.get(operator as usize) {
        Some(next) => *next,
        None => None,
    }
}
