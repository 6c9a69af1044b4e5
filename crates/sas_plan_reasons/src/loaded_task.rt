// Tasks that are kept for many plans.
ghost use Rattle.std.specs.Prelude.{◌≡◌, false, IfOk, IsSomeAnd};
ghost use Rattle.sas_answers.specs.Ending.{EndsCounting, Writes, output_of};
ghost use Rattle.sas_answers.specs.NumberedPlans.{RunAnswer};
ghost use Rattle.sas_plan_reasons.specs.RunTraces.{RunTrace};
ghost use Rattle.sas_plan_reasons.specs.StateBehind.{IsStateBehind};
ghost use Rattle.sas_plan_reasons.specs.VerdictBy.{VerdictBy};

use crate::detail::Detail;
use crate::running::{write_refusal, write_run_trace};
use crate::verdicts::{answer_named, number_answer};
use sas_answers::{Answer, Status, ToolFault, refuse_start};
use sas_flat::{FlatPlan, FlatTask};
use sas_lines::Watched;
use sas_meaning::{Layered, Settle, State};
use sas_run::{Checker, NamedPlan, NumberedPlan, checker_for, start_fault, state_behind};
use std::alloc::{AllocError, Global};
use std::io::Write;
use std::marker::Model;

/// A layered task with everything that checking a plan needs (`Checker`). So one more plan costs only its own steps. A `Runner` borrows its
/// task, but a `LoadedTask` owns it. In a contract its value is the parts of the task.
pub struct LoadedTask<E: Settle<FlatTask> + Drop> {
    layered: Layered<FlatTask>,
    checker: Checker<E>,
}

impl<E: Settle<FlatTask> + Drop> Drop for LoadedTask<E> {
    fn drop(self) {
        let LoadedTask { layered, checker } = self;
        drop(layered);
        drop(checker);
    }
}

impl<E: Settle<FlatTask> + Drop> Model for LoadedTask<E> {
    ghost use Rattle.sas_core.specs.declared.parts.Parts.{Parts};
    ghost use Rattle.sas_run.specs.Checkers.{IsChecker};

    ghost Value = { Parts };

    ghost view = { λ h. h.layered };

    ghost invariant = { λ h. IsChecker E.ready h.layered h.checker };
}

impl<E: Settle<FlatTask> + Drop> LoadedTask<E> {
    /// Keeps the task with an evaluator, which must be ready for it. All memory for the steps is allocated here. If that fails, the task is
    /// dropped.
    pub fn new(
        alloc: Global,
        layered: Layered<FlatTask>,
        evaluator: E,
    ) -> Result<LoadedTask<E>, AllocError>
        requires { E.ready evaluator layered }
        ensures { IfOk result (λ h. h ≡ layered) }
    {
        let Ok(checker) = checker_for(alloc, &layered, evaluator) else {
            return Err(AllocError);
        };
        Ok(LoadedTask { layered, checker })
    }

    /// Returns the task.
    pub fn layered(&self) -> &Layered<FlatTask>
        ensures { result.now ≡ self.now }
    {
        &self.layered
    }

    /// Writes the answer about the plan, and returns its status, as `answer_plan` does.
    pub fn answer<W: Write>(
        &mut self,
        alloc: Global,
        detail: Detail,
        plan: &FlatPlan,
        out: &mut Watched<W>,
    ) -> Result<Status, ToolFault>
        requires { out.old.failed ≡ false }
        ensures writes { Writes W.contents (EndsCounting
            (λ output. IsSomeAnd output (VerdictBy detail self.old plan.now)))
            out.old out.new result }
        ensures same { self.new ≡ self.old }
    {
        let names = &self.checker.names;
        let firsts = names.first_operators(alloc, &self.layered, plan)?;
        let named = NamedPlan {
            task: &self.layered,
            plan,
            firsts: firsts.as_slice(),
            nexts: names.next(),
            long: &self.checker.long,
        };
        answer_named(alloc, detail, &mut self.checker.stepper, &named, out)
    }

    /// Returns the answer about whether the operators with these numbers are a valid plan from their start: one line. No name is looked up.
    pub fn verdict_by_numbers(
        &mut self,
        alloc: Global,
        plan: &NumberedPlan<'_>,
    ) -> Result<Answer, AllocError>
        ensures answer { IfOk result (λ a. RunAnswer self.old plan.now.start.now
            plan.now.operators.now plan.now.cost (output_of a)) }
        ensures same { self.new ≡ self.old }
    {
        match start_fault(&self.layered, plan.start) {
            Some(fault) => refuse_start(alloc, fault),
            None => number_answer(alloc, &self.layered, &mut self.checker.stepper, plan),
        }
    }

    /// Writes the trace of the operators with these numbers from their start, and after it the answer about them. Returns its status.
    pub fn trace_by_numbers<W: Write>(
        &mut self,
        alloc: Global,
        plan: &NumberedPlan<'_>,
        out: &mut Watched<W>,
    ) -> Result<Status, ToolFault>
        requires { out.old.failed ≡ false }
        ensures writes { Writes W.contents (EndsCounting (λ output. IsSomeAnd output
            (RunTrace self.old plan.now.start.now plan.now.operators.now plan.now.cost)))
            out.old out.new result }
        ensures same { self.new ≡ self.old }
    {
        match start_fault(&self.layered, plan.start) {
            Some(fault) => write_refusal(alloc, fault, out),
            None => { write_run_trace(alloc, &self.layered, &mut self.checker.stepper, plan, out) }
        }
    }

    /// Returns the state to which the operators with these numbers lead from their start, up to the first that fails, and whether none
    /// does. Returns `None` if the start isn't a state. The cost isn't looked at.
    pub fn state_by_numbers(
        &mut self,
        alloc: Global,
        plan: &NumberedPlan<'_>,
    ) -> Result<Option<(State, bool)>, AllocError>
        ensures state { IfOk result (IsStateBehind self.old
            plan.now.start.now plan.now.operators.now) }
        ensures same { self.new ≡ self.old }
    {
        match start_fault(&self.layered, plan.start) {
            Some(_) => Ok(None),
            None => {
                let stepper = &mut self.checker.stepper;
                Ok(Some(state_behind(alloc, &self.layered, stepper, plan)?))
            }
        }
    }
}
